//! What is asked of each ranked hypothesis, lent.

use tfpg_graph::Graph;
use tfpg_log::Log;

/// When the node becomes active at the earliest, by a graph and a log.
#[derive(Clone, Copy)]
pub(crate) struct Query<'a> {
    pub(crate) graph: &'a Graph,
    pub(crate) log: &'a Log,
    /// The graph with a probe of the node, by whose names steps are written.
    pub(crate) probed: &'a Graph,
    pub(crate) node: u32,
    /// The time in milliseconds up to which is looked.
    pub(crate) to: u64,
    /// How many splits each search may make, at least 1.
    pub(crate) budget: u64,
}
