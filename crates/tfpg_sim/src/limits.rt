//! The limits of scripts, of draws and of generated cases, and the streams that are drawn from.

/// How many lines a script has at most.
pub const MAX_ENTRIES: usize = 8_192;

/// How many delays an edge without a greatest one draws from.
pub const OPEN_DELAYS: u64 = 1_000;

/// How many values the least delay of a generated edge is drawn from, and also how far its greatest one is above it.
pub const GENERATED_DELAYS: u32 = 50;

/// How many failure modes a generated graph has: its first nodes.
pub const FAILURE_COUNT: u32 = 16;

/// The stream of the generator from which a graph and its script are drawn.
pub const GRAPH_STREAM: u64 = 1;

/// The stream of the generator from which a simulation draws the delays and the latenesses.
pub const DELAY_STREAM: u64 = 2;
