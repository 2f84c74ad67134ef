//! The terms of a diagnosis.

/// What a diagnosis is asked with, besides a graph and a log.
#[derive(Clone, Copy, PartialEq, Eq)]
pub struct Terms {
    /// The greatest number of members of a hypothesis: failure modes, and monitors that it doubts.
    pub k: u32,
    /// The greatest number of monitors that a hypothesis doubts.
    pub doubt: u32,
    /// The greatest number of splits of a hypothesis in a round.
    pub budget: u64,
}
