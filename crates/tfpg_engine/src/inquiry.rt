//! What a round is made for, besides the log: an inquiry, lent.

use tfpg_base::Terms;
use tfpg_graph::Graph;

/// A graph, and the terms.
#[derive(Clone, Copy)]
pub(crate) struct LentInquiry<'a> {
    pub(crate) graph: &'a Graph,
    /// Their budget is at least 1.
    pub(crate) terms: Terms,
}
