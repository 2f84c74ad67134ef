//! What is tried with one bound after the other: a look ahead by a hypothesis, lent.

ghost use Rattle.std.specs.Prelude.{◌≡◌};

use tfpg_base::{Doubts, Hypothesis, Set};
use tfpg_graph::Graph;
use tfpg_log::Log;

/// A look ahead by a hypothesis, from its failure modes and by the log that ignores the monitors that it doubts, and the budget of
/// each search.
#[derive(Clone, Copy)]
pub(crate) struct Quest<'a> {
    pub(crate) graph: &'a Graph,
    pub(crate) log: &'a Log,
    pub(crate) hypothesis: Hypothesis,
    pub(crate) node: u32,
    /// The time in milliseconds to which the log is continued.
    pub(crate) to: u64,
    /// At least 1.
    pub(crate) budget: u64,
}

impl<'a> Quest<'a> {
    /// The failure modes of the hypothesis.
    pub(crate) fn set(&self) -> Set
        ensures { result ≡ self.now.hypothesis.set }
    {
        self.hypothesis.set
    }

    /// The monitors that it doubts.
    pub(crate) fn doubts(&self) -> Doubts
        ensures { result ≡ self.now.hypothesis.doubts }
    {
        self.hypothesis.doubts
    }
}
