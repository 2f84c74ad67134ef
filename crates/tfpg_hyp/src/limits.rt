//! How many hypotheses there may be, and what doubt costs.

/// How many hypotheses a table has at most.
pub const MAX_HYPOTHESES: u32 = 4_096;

/// What each monitor costs that a hypothesis doubts.
pub const DOUBT_COST: u64 = 1_000;
