//! The instants that an alarm leaves for the activation of its node.

/// The instants from the earliest to the latest at which a node can have become active, in milliseconds.
#[derive(Clone, Copy, PartialEq, Eq)]
pub struct Interval {
    pub earliest: u64,
    pub latest: u64,
}
