//! The steps of a refutation by lower bounds.
//!
//! The steps split on the may clause of one node after the other, sources first, each with the horizon up to which the node has to be
//! shown not to be active. Of its alternatives the first, before the span, is closed by the bound of the node so far. In the second the
//! node becomes active after the span: that is its new bound, and the next split stands there. In each other one the failure arrives
//! within the span by some edge, which the bound of the source refutes ([`closing`](super::closing)). In the deepest leaf some node was
//! active by an alarm of it, which its bound refutes too.

use super::PASSES;
use super::bounds::{AllBounds, ProposedBound};
use super::closing::OpenLeaf;
use super::facts::{AlarmBound, upto_alarm};
use super::may::{may_clause, shown_by};
use super::needs::find_needs;
use crate::asking::Subject;
use std::alloc::Global;
use tfpg_base::NoMemory;
use tfpg_clause::{constraint, count};
use tfpg_evidence::{ClauseName, Reason, Reasons, Step, StepList};
use tfpg_graph::Graph;
use tfpg_log::{Log, Span};

/// The one constraint of the first two alternatives of a may clause: the node becomes active before the span, or after it.
const OUTSIDE_SPAN: u32 = 1;

/// The first alternative of a may clause by which the failure arrives within the span. There is one for each edge by which it can.
const FIRST_ARRIVAL: u32 = 3;

/// The constraint of such an alternative that the node becomes active the least delay after the source, or later.
const AFTER_SOURCE: u32 = 1;

/// The constraint of such an alternative that the node becomes active by the end of the span.
const BY_THE_END: u32 = 3;

/// The steps so far: those down to the present leaf, and those that close what stands beside the path, the last first.
#[derive(Drop)]
pub(super) struct Proposal<'a> {
    pub(super) alloc: Global,
    pub(super) graph: &'a Graph,
    pub(super) log: &'a Log,
    pub(super) bounds: AllBounds,
    down: Vec<Step>,
    beside: Vec<Step>,
    /// How many splits stand on the path to the present leaf.
    depth: u64,
    /// How many of the steps are splits.
    pub(super) splits: u64,
    /// At most this many are.
    budget: u64,
}

/// Steps that refute the log, where some node was active by an alarm of it, and cannot have been. Nothing is promised of them. There are
/// none where the delays show nothing, or where the budget does not suffice.
pub(super) fn proposed(alloc: Global, subject: &Subject<'_>) -> Result<Option<StepList>, NoMemory> {
    let graph = subject.graph;
    let log = subject.log;
    let mut bounds = AllBounds::new(alloc, graph, log, &subject.reach)?;
    let Some(alarm) = early_alarm(graph, log, &bounds) else {
        return Ok(None);
    };
    bounds.need(alarm.node, alarm.time);
    find_needs(graph, &mut bounds);
    let mut proposal = Proposal {
        alloc,
        graph,
        log,
        bounds,
        down: Vec::new(alloc),
        beside: Vec::new(alloc),
        depth: 0,
        splits: 0,
        budget: subject.budget,
    };
    proposal.show_all(&alarm)?;
    if !proposal.bounds.is_shown(alarm.node, alarm.time) {
        return Ok(None);
    }
    proposal.close_last(&alarm)?;
    let steps = proposal.into_steps()?;
    Ok(Some(steps))
}

/// The first alarm by which a node was active before what follows allows, in the order of nodes.
fn early_alarm(graph: &Graph, log: &Log, bounds: &AllBounds) -> Option<AlarmBound> {
    for node in 0..graph.node_count() {
        if let Some(alarm) = upto_alarm(graph, log, node)
            && bounds.at(node).least > alarm.time
        {
            return Some(alarm);
        }
    }
    None
}

impl Proposal<'_> {
    /// Shows of one node after the other that it is not active as long as is needed, until that is shown of the node of the alarm or the
    /// budget is spent.
    fn show_all(&mut self, last: &AlarmBound) -> Result<(), NoMemory> {
        for _ in 0..PASSES {
            if self.is_spent() || self.bounds.is_shown(last.node, last.time) {
                return Ok(());
            }
            self.show_once()?;
        }
        Ok(())
    }

    /// Goes through the nodes once, until the budget is spent.
    fn show_once(&mut self) -> Result<(), NoMemory> {
        for node in 0..self.graph.node_count() {
            if self.is_spent() {
                return Ok(());
            }
            if let Some(until) = self.not_shown(node) {
                self.show(node, until)?;
            }
        }
        Ok(())
    }

    /// Up to when the node has to be shown not to be active, where what is stated does not show that yet.
    fn not_shown(&self, node: u32) -> Option<u64> {
        let until = self.bounds.at(node).needed?;
        if self.bounds.is_shown(node, until) {
            return None;
        }
        Some(until)
    }

    /// Whether no further split is within the budget.
    pub(super) fn is_spent(&self) -> bool {
        self.splits >= self.budget
    }

    /// Shows that a node is not active up to an instant, span by span, if what is stated suffices. It ends at the first span without a
    /// split.
    fn show(&mut self, node: u32, until: u64) -> Result<(), NoMemory> {
        let Some(may) = shown_by(self.graph, &self.bounds, node, until) else {
            return Ok(());
        };
        let Some(first) = self.log.span_of(self.bounds.at(node).stated.time) else {
            return Ok(());
        };
        let Some(last) = self.log.span_of(until) else {
            return Ok(());
        };
        for number in first..=last {
            let Some(span) = self.log.span(number, until) else {
                return Ok(());
            };
            let name = may_clause(&may, node, number, until);
            if !self.split(name, node, span)? {
                return Ok(());
            }
        }
        Ok(())
    }

    /// Splits on a may clause of a node for a span, within the budget, and continues in the second alternative. Returns whether it did.
    fn split(&mut self, name: ClauseName, node: u32, span: Span) -> Result<bool, NoMemory> {
        if self.is_spent() {
            return Ok(false);
        }
        let Ok(alternatives) = count(self.graph, self.log, name) else {
            return Ok(false);
        };
        self.splits = self.splits.saturating_add(1);
        self.depth = self.depth.saturating_add(1);
        let outside = self.pick(OUTSIDE_SPAN);
        let before = self.cycle(&[self.bounds.at(node).stated.reason, outside])?;
        self.down.push(Step::Split(name))?;
        self.down.push(before)?;
        self.close_arrivals(name, alternatives, span.hi)?;
        self.bounds.state(
            node,
            ProposedBound {
                time: span.hi.saturating_add(1),
                reason: outside,
            },
        );
        Ok(true)
    }

    /// Closes each alternative of the last split by which the failure arrives up to the end of the span.
    fn close_arrivals(
        &mut self,
        name: ClauseName,
        alternatives: u32,
        end: u64,
    ) -> Result<(), NoMemory> {
        for alternative in (FIRST_ARRIVAL..=alternatives).rev() {
            if let Ok(Some(arrives)) = constraint(
                self.graph,
                self.log,
                name,
                alternative,
                AFTER_SOURCE,
            ) {
                let source = arrives.left.saturating_sub(1);
                let until = end.saturating_sub(arrives.most.unsigned_abs());
                let reasons = self.reasons(&[self.pick(AFTER_SOURCE), self.pick(BY_THE_END)])?;
                self.close_beside(source, until, reasons)?;
            }
        }
        Ok(())
    }

    /// Closes the leaf beside the path at which the node is active by the instant.
    fn close_beside(&mut self, node: u32, until: u64, reasons: Reasons) -> Result<(), NoMemory> {
        let leaf = OpenLeaf {
            node,
            until,
            reasons,
            depth: self.depth,
        };
        let mut steps = self.close(leaf)?;
        for _ in 0..steps.len() {
            if let Some(step) = steps.pop() {
                self.beside.push(step)?;
            }
        }
        Ok(())
    }

    /// Closes the present leaf, at which the alarm says that its node was active.
    fn close_last(&mut self, alarm: &AlarmBound) -> Result<(), NoMemory> {
        let reasons = self.reasons(&[Reason::Upto { event: alarm.event }])?;
        let leaf = OpenLeaf {
            node: alarm.node,
            until: alarm.time,
            reasons,
            depth: self.depth,
        };
        for step in self.close(leaf)? {
            self.down.push(step)?;
        }
        Ok(())
    }

    /// The constraint at this place in the alternative that is taken at the last split of the path.
    fn pick(&self, place: u32) -> Reason {
        Reason::Pick {
            split: self.depth,
            place,
        }
    }

    /// The cycle of these reasons.
    fn cycle(&self, of: &[Reason]) -> Result<Step, NoMemory> {
        Ok(Step::Cycle(self.reasons(of)?))
    }

    /// These reasons.
    fn reasons(&self, of: &[Reason]) -> Result<Reasons, NoMemory> {
        let mut reasons = Reasons::new(self.alloc);
        for reason in of {
            reasons.push(*reason)?;
        }
        Ok(reasons)
    }

    /// All steps, in their order.
    fn into_steps(self) -> Result<StepList, NoMemory> {
        let Proposal {
            mut down,
            mut beside,
            ..
        } = self;
        for _ in 0..beside.len() {
            if let Some(step) = beside.pop() {
                down.push(step)?;
            }
        }
        Ok(StepList::from_vec(down))
    }
}
