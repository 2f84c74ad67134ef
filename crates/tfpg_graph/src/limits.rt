//! How much a graph may have of each thing.

use tfpg_base::{MAX_MEMBERS, MAX_NODE_NUMBERS};

/// How many nodes a graph has at most: a set of nodes may have them all.
pub const MAX_NODES: u32 = MAX_NODE_NUMBERS;

/// How many of its nodes are failure modes at most: a set may have them all.
pub const MAX_FAILURES: u32 = MAX_MEMBERS;

/// How many edges it has at most.
pub const MAX_EDGES: u32 = 2_048;

/// How many edges enter one node at most.
pub const MAX_INCOMING: usize = 32;

/// How many modes it has at most.
pub const MAX_MODES: u32 = 64;

/// The greatest rarity.
pub const MAX_RARITY: u64 = 1_000_000;
