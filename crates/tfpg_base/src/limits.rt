//! The limits of inputs, of generated cases and of times.

/// How many bytes a file has at most: 2^24.
pub const LONGEST_FILE: usize = 16_777_216;

/// How many bytes a line has at most.
pub const LONGEST_LINE: usize = 4_096;

/// How many bytes the buffer of a reader of lines has, which is more than a line may have.
pub const BUFFER_SIZE: usize = 65_536;

/// How many bytes a reader of lines reads at most: 2^32. It takes one byte after them at most, to see that there are more.
pub const MAX_BYTES: u64 = 4_294_967_296;

/// How many bytes a name has at most.
pub const LONGEST_NAME: usize = 32;

/// How many members a set of failure modes has at most: their positions are below this.
pub const MAX_MEMBERS: u32 = 64;

/// The greatest `k` of a diagnosis: a hypothesis has no more members.
pub const MAX_K: u64 = MAX_MEMBERS as u64;

/// The greatest `doubt` of a diagnosis: a hypothesis doubts no more monitors.
pub const MAX_DOUBT: u64 = 4;

/// The greatest budget of a diagnosis.
pub const MAX_BUDGET: u64 = 1_000_000_000_000;

/// The greatest number of a line in a report: 2^63 - 1.
pub const MAX_LINE_NUMBER: u64 = 9_223_372_036_854_775_807;

/// The greatest number of a panel in a report.
pub const MAX_PANEL_NUMBER: u64 = MAX_LINE_NUMBER;

/// How many numbers a set of nodes has at most: each is below this.
pub const MAX_NODE_NUMBERS: u32 = 512;

/// How many vehicles share one stream at most.
pub const MAX_VEHICLES: usize = 64;

/// How many words a line of any text format has at most.
pub const MAX_WORDS: usize = 9;

/// The greatest size of a generated case.
pub const MAX_CASE_SIZE: u64 = 100;

/// The greatest time, delay and lag, in milliseconds.
pub const MAX_TIME: u64 = 1_000_000_000_000;

/// One past the greatest time, which means never.
pub const NEVER: u64 = MAX_TIME + 1;
