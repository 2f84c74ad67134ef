//! Where a clause stands.

use tfpg_graph::Graph;
use tfpg_log::Log;

/// A span of a log of a graph, up to a horizon. The clauses of the span are those of nodes and edges of the graph.
#[derive(Clone, Copy)]
pub(crate) struct Site<'a> {
    pub(crate) graph: &'a Graph,
    pub(crate) log: &'a Log,
    /// The number of the span.
    pub(crate) span: u32,
    /// In milliseconds.
    pub(crate) horizon: u64,
}
