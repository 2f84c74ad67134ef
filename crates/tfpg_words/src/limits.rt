//! The limits of the numbers that the words give, and what the numbers are where the words give none.

/// The greatest number of a draw.
pub const MAX_DRAW: u64 = 1_000_000_000_000;

/// The `k` where the words give none.
pub const DEFAULT_K: u64 = 2;

/// The `doubt` where the words give none.
pub const DEFAULT_DOUBT: u64 = 0;

/// The budget where the words give none.
pub const DEFAULT_BUDGET: u64 = 1000;

/// How many milliseconds are looked ahead where the words give no number.
pub const DEFAULT_AHEAD: u64 = 1000;

/// The number of a draw where the words give none.
pub const DEFAULT_DRAW: u64 = 1;

/// The size of a generated case where the words give none.
pub const DEFAULT_SIZE: u64 = 10;
