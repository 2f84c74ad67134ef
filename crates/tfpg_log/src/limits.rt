//! How much a log takes of each thing.

/// How many events a log takes at most.
pub const MAX_EVENTS: u32 = 65_536;

/// How many of its events are changes of mode at most. A script has no more changes of mode either.
pub const MAX_MODE_CHANGES: u32 = 1_024;
