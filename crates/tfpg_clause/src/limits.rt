//! How much a clause may have of each thing.

/// How many constraints an alternative has at most.
pub const MAX_CONSTRAINTS: u32 = 3;
