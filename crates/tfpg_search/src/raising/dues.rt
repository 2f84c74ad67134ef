//! What would be overdue: the failure is due at a target so long after its sources. These are the OrMust clauses, and what an AndMust clause
//! leaves of the upper bound of its node.

use super::windows::{edge_at, edges_into, joint_from, last_span, window_from, window_over};
use super::{Raising, TryEnds};
use tfpg_graph::Edge;
use tfpg_log::Window;

impl Raising<'_> {
    /// Raises the sources of an OR node so far that it is overdue by none, and lowers the upper bound of a discrepancy to the first instant
    /// at which it is due.
    pub(super) fn draw_from_dues(&mut self, node: u32) -> Result<(), TryEnds> {
        if !self.graph.is_or(node) {
            return self.lower_joint(node);
        }
        let graph = self.graph;
        for edge in edges_into(graph, node) {
            self.draw_from_due(*edge)?;
        }
        Ok(())
    }

    /// Raises the source of an edge into an OR node so far that the node is not overdue by it, and lowers the upper bound of the node to where
    /// it is due by it.
    fn draw_from_due(&mut self, edge: u32) -> Result<(), TryEnds> {
        let Some(propagation) = edge_at(self.graph, edge) else {
            return Ok(());
        };
        let Some(delay) = propagation.tmax else {
            return Ok(());
        };
        let time = self.in_time(edge, propagation, delay);
        self.raise(propagation.source, time)?;
        let latest = self.high(propagation.source).saturating_add(delay);
        let due = self.active_for(edge, latest, delay);
        if due > self.log.now() {
            return Ok(());
        }
        self.lower(propagation.target, due)
    }

    /// The first instant, from its lower bound on, at which the source of an edge may become active so that the target is not overdue by it: in
    /// no window the failure is due there before the target's lower bound.
    fn in_time(&self, edge: u32, propagation: Edge, delay: u64) -> u64 {
        let active = self.low(propagation.target);
        let mut time = self.low(propagation.source);
        let mut due = time.saturating_add(delay);
        for _ in 0..=last_span(self.log) {
            if active <= due {
                return time;
            }
            let Some(window) = window_from(self.graph, self.log, edge, due) else {
                return time;
            };
            let at_once = window.lo.saturating_add(delay);
            due = window.hi.saturating_add(1);
            if at_once <= window.hi && at_once < active {
                time = due.min(active).saturating_sub(delay);
            }
        }
        time
    }

    /// Lowers the upper bound of an AND node to the first instant at which it is due by all of its edges, where that is by now.
    fn lower_joint(&mut self, node: u32) -> Result<(), TryEnds> {
        let Some(mut due) = self.latest_due(node) else {
            return Ok(());
        };
        for _ in 0..=last_span(self.log) {
            let Some(window) = joint_from(self.graph, self.log, node, due) else {
                return Ok(());
            };
            let time = due.max(self.due_at_once(node, window));
            if time <= window.hi {
                return self.lower(node, time);
            }
            due = window.hi.saturating_add(1);
        }
        Ok(())
    }

    /// The greatest delay after the upper bound of each source of a node, the latest of them. There is none where an edge has no greatest delay.
    fn latest_due(&self, node: u32) -> Option<u64> {
        let mut latest = 0;
        for edge in edges_into(self.graph, node) {
            let propagation = edge_at(self.graph, *edge)?;
            let due = self
                .high(propagation.source)
                .saturating_add(propagation.tmax?);
            latest = due.max(latest);
        }
        Some(latest)
    }

    /// When an AND node is due in a joint window if all its sources are active before.
    fn due_at_once(&self, node: u32, joint: Window) -> u64 {
        let mut latest = 0;
        for edge in edges_into(self.graph, node) {
            if let Some(window) = window_over(self.graph, self.log, *edge, joint.first)
                && let Some(propagation) = edge_at(self.graph, *edge)
                && let Some(delay) = propagation.tmax
            {
                latest = window.lo.saturating_add(delay).max(latest);
            }
        }
        latest
    }
}
