//! What a reader of lines returns.

/// What the next line is.
#[derive(Clone, Copy, PartialEq, Eq)]
pub enum Line {
    /// A line of at most [`LONGEST_LINE`](crate::LONGEST_LINE) bytes.
    Text,
    /// A line of more than [`LONGEST_LINE`](crate::LONGEST_LINE) bytes, which was skipped and counted.
    TooLong,
    /// There is no further line.
    End,
}

/// Why no next line can be read.
#[derive(Clone, Copy, PartialEq, Eq)]
pub enum LineFault {
    /// The source failed.
    ReadFault,
    /// [`MAX_BYTES`](crate::MAX_BYTES) bytes were taken, and the source has more.
    TooMuchInput,
}
