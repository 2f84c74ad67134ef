//! The limits of the diagnosis that `generate` makes.

/// The `k` of the diagnosis that `generate` makes: the greatest number of failure modes of a hypothesis.
pub const GENERATED_K: u32 = 2;

/// Its budget: how many splits a hypothesis has in a round at most.
pub const GENERATED_BUDGET: u64 = 50;
