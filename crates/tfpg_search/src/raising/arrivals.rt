//! When the failure can arrive: a node becomes active only by an edge that carries it. These are the OrMay and AndMay clauses.

use super::windows::{edge_at, edges_into, last_span, window_from};
use super::{Raising, TryEnds};

impl Raising<'_> {
    /// Raises the lower bound of a discrepancy to the first instant at which it may become active, or to the one after now. Where it is active
    /// by now, lowers the upper bounds of the sources that it then cannot do without.
    pub(super) fn draw_from_arrivals(&mut self, node: u32) -> Result<(), TryEnds> {
        if self.graph.is_or(node) {
            let arrival = self.first_arrival(node);
            self.raise(node, arrival)?;
            self.lower_only_source(node)
        } else {
            let arrival = self.last_arrival(node);
            self.raise(node, arrival)?;
            self.lower_sources(node)
        }
    }

    /// The first instant, from the lower bound of an OR node on, at which some edge into it carries the failure, or the one after now.
    fn first_arrival(&self, node: u32) -> u64 {
        let instant = self.low(node);
        let mut first = self.after_now();
        for edge in edges_into(self.graph, node) {
            first = first.min(self.arrival_by(*edge, instant));
            if first <= instant {
                return first;
            }
        }
        first
    }

    /// An instant, from the lower bound of an AND node on, before which not all edges into it carry the failure. Where they are active in
    /// different modes, the edges before may not carry it then: that is for the next look.
    fn last_arrival(&self, node: u32) -> u64 {
        let mut last = self.low(node);
        for edge in edges_into(self.graph, node) {
            last = self.arrival_by(*edge, last);
        }
        last
    }

    /// Lowers the upper bound of the source of the only edge by which an OR node can become active up to its own, where that is by now.
    fn lower_only_source(&mut self, node: u32) -> Result<(), TryEnds> {
        let (low, high) = (self.low(node), self.high(node));
        if high > self.log.now() {
            return Ok(());
        }
        let mut only = None;
        for edge in edges_into(self.graph, node) {
            if self.arrival_by(*edge, low) <= high {
                if only.is_some() {
                    return Ok(());
                }
                only = Some(*edge);
            }
        }
        match only {
            Some(edge) => self.lower_source(edge, high),
            None => Err(TryEnds),
        }
    }

    /// Lowers the upper bounds of the sources of an AND node, where it is active by now.
    fn lower_sources(&mut self, node: u32) -> Result<(), TryEnds> {
        let graph = self.graph;
        let high = self.high(node);
        if high > self.log.now() {
            return Ok(());
        }
        for edge in edges_into(graph, node) {
            self.lower_source(*edge, high)?;
        }
        Ok(())
    }

    /// Lowers the upper bound of the source of an edge so far that the edge can carry the failure by this instant.
    fn lower_source(&mut self, edge: u32, instant: u64) -> Result<(), TryEnds> {
        match edge_at(self.graph, edge) {
            Some(propagation) if propagation.tmin <= instant => {
                self.lower(propagation.source, instant - propagation.tmin)
            }
            _ => Err(TryEnds),
        }
    }

    /// The first instant from this one on at which the edge can carry the failure, or the one after now.
    fn arrival_by(&self, edge: u32, instant: u64) -> u64 {
        let Some(propagation) = edge_at(self.graph, edge) else {
            return self.after_now();
        };
        let delay = propagation.tmin;
        let from = instant.max(self.low(propagation.source).saturating_add(delay));
        self.active_for(edge, from, delay)
    }

    /// The first instant from this one on at which the window of the edge has been active for this delay, or the one after now.
    pub(super) fn active_for(&self, edge: u32, instant: u64, delay: u64) -> u64 {
        let mut from = instant;
        for _ in 0..=last_span(self.log) {
            let Some(window) = window_from(self.graph, self.log, edge, from) else {
                return self.after_now();
            };
            let arrival = from.max(window.lo.saturating_add(delay));
            if arrival <= window.hi {
                return arrival;
            }
            from = window.hi.saturating_add(1);
        }
        self.after_now()
    }
}
