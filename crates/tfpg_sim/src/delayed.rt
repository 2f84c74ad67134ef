//! What the first arrivals at nodes depend on besides the trace so far.

use tfpg_graph::Graph;
use tfpg_log::Span;

/// A graph with the delay of each edge in milliseconds, and the spans of the modes up to the stop.
#[derive(Clone, Copy)]
pub(crate) struct Delayed<'a> {
    pub(crate) graph: &'a Graph,
    pub(crate) spans: &'a [Span],
    pub(crate) delays: &'a [u64],
}
