//! Why a line of the log is refused.

/// Why a line of the log is refused: the first in this order that holds.
#[derive(Clone, Copy, PartialEq, Eq)]
pub enum Refusal {
    /// It has none of the five shapes.
    BadLine,
    /// Its time is not a number.
    BadNumber,
    /// Its time is above 10^12.
    TimeTooLarge,
    /// Its time is below `last`, the time of the last event.
    TimeBack { last: u64 },
    /// No node has the name.
    UnknownName,
    /// The node is not monitored.
    NotMonitored,
    /// No mode has the name.
    NotAMode,
    /// [`MAX_EVENTS`](crate::MAX_EVENTS) events were accepted.
    LogFull,
    /// [`MAX_MODE_CHANGES`](crate::MAX_MODE_CHANGES) mode changes were accepted.
    ModesFull,
}
