//! What may come next in a report.

/// What may come next in a report, by the lines that were read.
#[derive(Clone, Copy, PartialEq, Eq)]
pub enum Stand {
    /// Nothing was read: the first line comes.
    Nothing,
    /// The first line or a refused line was read: a block comes.
    Block,
    /// The first line of a round was read.
    Round,
    /// The number of a hypothesis was read: its first step comes.
    Hyp,
    /// A step that closes a leaf was read, without its last so many reasons, at least one.
    Reasons { owed: u32 },
    /// The last line of a step was read.
    Step,
    /// The line of a ranked hypothesis was read, or after it the activation of this node.
    Ranked { last: Option<u32> },
    /// The line of an open hypothesis was read.
    Open,
    /// The line of a rejected hypothesis was read.
    Rejected,
    /// The counts of a round were read, or after them the loss of this panel.
    Counts { last: Option<u64> },
}
