//! A hypothesis, as the table lists it.

use tfpg_base::Hypothesis;
use tfpg_graph::NodeSet;

/// A hypothesis with its number and with what it reaches.
#[derive(Clone, Copy)]
pub(crate) struct Listed<'a> {
    pub(crate) number: u32,
    pub(crate) hypothesis: Hypothesis,
    pub(crate) reach: &'a NodeSet,
}
