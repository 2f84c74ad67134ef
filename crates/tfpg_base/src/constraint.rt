//! Difference constraints, of which facts, clauses and refutations are made.

/// `left - right <= most`, over times in milliseconds. Number 0 is the constant zero, and node `n` is number `n + 1`.
#[derive(Clone, Copy, PartialEq, Eq)]
pub struct Constraint {
    pub left: u32,
    pub right: u32,
    pub most: i64,
}
