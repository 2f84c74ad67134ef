//! What is said of a trace.

/// Whether a trace explains a log from a set of failure modes, and if not, its first fault. Times are in milliseconds.
#[derive(Clone, Copy, PartialEq, Eq)]
pub enum Verdict {
    /// It explains the log.
    Yes,
    /// The node's time is after now.
    Late { node: u32, time: u64 },
    /// The node is a failure mode that became active at this time, and is no member of the set.
    Stranger { node: u32, time: u64 },
    /// The node became active at this time, when the failure had not arrived.
    May { node: u32, time: u64 },
    /// The node was not active by this time, when the failure was due.
    Must { node: u32, time: u64 },
    /// The alarm of the node at this time is not shown.
    Alarm { node: u32, time: u64 },
    /// The silence of the node at this time, its own or that of a sweep, is not shown: the node is active.
    Silence { node: u32, time: u64 },
}
