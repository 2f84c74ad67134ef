//! The choices that AND nodes leave: one that is overdue is not if one of its sources becomes active later, whichever it is.

use super::windows::{edge_at, edges_into, joint_over};
use super::{Raising, TryEnds};
use tfpg_base::NoMemory;
use tfpg_evidence::ClauseName;

/// A source that may be raised, to which time, and by how much. Times are in milliseconds.
#[derive(Clone, Copy)]
struct Choice {
    source: u32,
    time: u64,
    rise: u64,
}

impl Raising<'_> {
    /// Raises a source of an AND node that is overdue by all of its edges, where this clause is violated: of those whose upper bound allows
    /// it the one that is raised least. If that leaves no bounds, the source is bounded to before. Returns whether there are bounds to go on
    /// with. A clause of another kind is given up.
    pub(crate) fn choose(&mut self, name: ClauseName) -> Result<bool, NoMemory> {
        let Some(choice) = self.least_choice(name) else {
            return Ok(false);
        };
        let lows = self.lows.clone()?;
        let highs = self.highs.clone()?;
        if self.take(choice).is_ok() {
            return Ok(true);
        }
        self.lows = lows;
        self.highs = highs;
        Ok(self.rule_out(choice).is_ok())
    }

    /// Raises the source that is chosen.
    fn take(&mut self, choice: Choice) -> Result<(), TryEnds> {
        self.raise(choice.source, choice.time)?;
        self.settle()
    }

    /// Lowers the upper bound of the source to before the time that is chosen.
    fn rule_out(&mut self, choice: Choice) -> Result<(), TryEnds> {
        self.lower(choice.source, choice.time.saturating_sub(1))?;
        self.settle()
    }

    /// The source that is raised least so that the node of an AndMust clause is not overdue in its joint window round the span.
    fn least_choice(&self, name: ClauseName) -> Option<Choice> {
        let ClauseName::AndMust { node, span, .. } = name else {
            return None;
        };
        let window = joint_over(self.graph, self.log, node, span)?;
        let due = window.hi.saturating_add(1).min(self.low(node));
        let mut least = None;
        for edge in edges_into(self.graph, node) {
            least = lesser(least, self.choice(*edge, due));
        }
        least
    }

    /// The source of an edge, raised so far that the failure is due by the edge at this instant or later, where its upper bound allows that.
    fn choice(&self, edge: u32, due: u64) -> Option<Choice> {
        let propagation = edge_at(self.graph, edge)?;
        let source = propagation.source;
        let time = due.saturating_sub(propagation.tmax?);
        let rise = time.saturating_sub(self.low(source));
        (time <= self.high(source)).then_some(Choice { source, time, rise })
    }
}

/// The one that is raised less, and of equal ones the first.
fn lesser(one: Option<Choice>, other: Option<Choice>) -> Option<Choice> {
    match (one, other) {
        (Some(first), Some(second)) => Some(if second.rise < first.rise {
            second
        } else {
            first
        }),
        (Some(first), None) => Some(first),
        (None, other) => other,
    }
}
