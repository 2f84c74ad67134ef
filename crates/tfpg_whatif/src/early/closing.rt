//! Closes a leaf at which a node is active earlier than its bound allows.
//!
//! Where a bound is stated that refutes this, one cycle closes the leaf. Else the steps split on the must clause of the edge by which a
//! node would be due. Its first alternative, that the failure starts too late to be due, is closed at once. In the two others that node
//! is active early, and they are closed alike: after the source in time, or since the window of the edge began.

use super::due::DueBound;
use super::steps::Proposal;
use std::alloc::Global;
use tfpg_base::NoMemory;
use tfpg_evidence::{ClauseName, Reason, Reasons, Step};

/// How many leaves are closed at most, of those that one leaf is split into.
const CLOSINGS: u32 = 64;

/// The one constraint of an alternative of the must clause of one edge.
const DUE: u32 = 1;

/// A leaf at which a node is active up to an instant, in milliseconds.
#[derive(Drop)]
pub(super) struct OpenLeaf {
    pub(super) node: u32,
    pub(super) until: u64,
    /// They say so, from the node on.
    pub(super) reasons: Reasons,
    /// How many splits stand on the path to the leaf.
    pub(super) depth: u64,
}

impl Proposal<'_> {
    /// The steps that close the leaf, in their order. They may leave some of it open.
    pub(super) fn close(&mut self, leaf: OpenLeaf) -> Result<Vec<Step>, NoMemory> {
        let mut steps = Vec::new(self.alloc);
        let mut open = Vec::new(self.alloc);
        open.push(leaf)?;
        for _ in 0..CLOSINGS {
            let Some(leaf) = open.pop() else {
                return Ok(steps);
            };
            self.close_next(&leaf, &mut open, &mut steps)?;
        }
        Ok(steps)
    }

    /// Closes the leaf by one cycle, or splits it.
    fn close_next(
        &mut self,
        leaf: &OpenLeaf,
        open: &mut Vec<OpenLeaf>,
        steps: &mut Vec<Step>,
    ) -> Result<(), NoMemory> {
        let bounds = self.bounds.at(leaf.node);
        if bounds.stated.time <= leaf.until
            && !self.is_spent()
            && let Some(due) = bounds.due_by(leaf.until)
        {
            return self.split_due(leaf, &due, open, steps);
        }
        let reasons = with_front(self.alloc, bounds.stated.reason, leaf.reasons.as_slice())?;
        steps.push(Step::Cycle(reasons))?;
        Ok(())
    }

    /// Splits the leaf on the must clause by which a node would be due. The first alternative is closed at once.
    fn split_due(
        &mut self,
        leaf: &OpenLeaf,
        due: &DueBound,
        open: &mut Vec<OpenLeaf>,
        steps: &mut Vec<Step>,
    ) -> Result<(), NoMemory> {
        self.splits = self.splits.saturating_add(1);
        let depth = leaf.depth.saturating_add(1);
        let pick = Reason::Pick {
            split: depth,
            place: DUE,
        };
        let reasons = with_front(self.alloc, pick, leaf.reasons.as_slice())?;
        steps.push(Step::Split(ClauseName::OrMust {
            edge: due.edge,
            span: due.span,
            horizon: self.log.now(),
        }))?;
        steps.push(Step::Cycle(reasons.copy()?))?;
        open.push(OpenLeaf {
            node: due.target,
            until: due.begins_by(),
            reasons: with_front(self.alloc, pick, &[])?,
            depth,
        })?;
        open.push(OpenLeaf {
            node: due.target,
            until: due.follows_by(leaf.until),
            reasons,
            depth,
        })?;
        Ok(())
    }
}

/// The reasons, with this one before them.
fn with_front(alloc: Global, front: Reason, rest: &[Reason]) -> Result<Reasons, NoMemory> {
    let mut reasons = Reasons::new(alloc);
    reasons.push(front)?;
    for reason in rest {
        reasons.push(*reason)?;
    }
    Ok(reasons)
}
