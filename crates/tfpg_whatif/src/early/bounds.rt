//! Lower bounds of the times of nodes.

use super::PASSES;
use super::due::{DueBound, due_bound};
use super::facts::{from_zero, stated_by_facts};
use std::alloc::Global;
use tfpg_base::{NEVER, NoMemory};
use tfpg_evidence::Reason;
use tfpg_graph::{Graph, NodeSet};
use tfpg_log::Log;

/// A lower bound of the time of a node, in milliseconds, with the reason that states it.
#[derive(Clone, Copy)]
pub(super) struct ProposedBound {
    pub(super) time: u64,
    pub(super) reason: Reason,
}

/// What is known of a node, and what has to be shown of it. Times are in milliseconds.
#[derive(Clone, Copy)]
pub(super) struct ProposedBounds {
    /// The greatest lower bound that is stated so far.
    pub(super) stated: ProposedBound,
    /// A lower bound that follows from those that the facts state.
    pub(super) least: u64,
    /// The greatest one that follows by a node which would be due, where some does.
    pub(super) due: Option<DueBound>,
    /// Up to when it has to be shown not to be active, where it has to.
    pub(super) needed: Option<u64>,
}

impl ProposedBounds {
    /// Which node would be due if this one were active by the instant, where that shows that it is not.
    pub(super) fn due_by(&self, instant: u64) -> Option<DueBound> {
        self.due.filter(|due| due.time > instant)
    }
}

/// The bounds of all nodes.
#[derive(Drop)]
pub(super) struct AllBounds {
    nodes: Vec<ProposedBounds>,
}

impl AllBounds {
    /// The bounds that the facts of the log state, and what follows from them.
    pub(super) fn new(
        alloc: Global,
        graph: &Graph,
        log: &Log,
        reach: &NodeSet,
    ) -> Result<AllBounds, NoMemory> {
        let mut nodes = Vec::with_capacity(alloc, graph.node_count() as usize)?;
        for node in 0..graph.node_count() {
            let stated = stated_by_facts(graph, log, reach, node);
            nodes.push(ProposedBounds {
                stated,
                least: stated.time,
                due: None,
                needed: None,
            })?;
        }
        let mut bounds = AllBounds { nodes };
        bounds.follow(graph, log);
        Ok(bounds)
    }

    /// Those of a node. The node may be any number.
    pub(super) fn at(&self, node: u32) -> ProposedBounds {
        match self.nodes.get(node as usize) {
            Some(bounds) => *bounds,
            None => ProposedBounds {
                stated: from_zero(node),
                least: 0,
                due: None,
                needed: None,
            },
        }
    }

    /// Changes those of a node of the graph.
    fn set(&mut self, node: u32, bounds: ProposedBounds) {
        if (node as usize) < self.nodes.len() {
            self.nodes[node as usize] = bounds;
        }
    }

    /// States a bound of a node.
    pub(super) fn state(&mut self, node: u32, stated: ProposedBound) {
        let bounds = self.at(node);
        self.set(node, ProposedBounds { stated, ..bounds });
    }

    /// The node has to be shown not to be active up to this instant, or a later one. Returns whether that is new.
    pub(super) fn need(&mut self, node: u32, until: u64) -> bool {
        let bounds = self.at(node);
        if let Some(needed) = bounds.needed
            && until <= needed
        {
            return false;
        }
        self.set(
            node,
            ProposedBounds {
                needed: Some(until),
                ..bounds
            },
        );
        true
    }

    /// Brings in what follows, forwards by the least delays and backwards by the greatest.
    fn follow(&mut self, graph: &Graph, log: &Log) {
        for _ in 0..PASSES {
            let forwards = self.follow_arrivals(graph);
            let backwards = self.follow_dues(graph, log);
            if !forwards && !backwards {
                return;
            }
        }
    }

    /// Goes through the nodes once, for the arrivals of the failure. Returns whether a bound was raised.
    fn follow_arrivals(&mut self, graph: &Graph) -> bool {
        let mut raised = false;
        for node in 0..graph.node_count() {
            let least = self.by_edges(graph, node);
            let bounds = self.at(node);
            if least > bounds.least {
                self.set(node, ProposedBounds { least, ..bounds });
                raised = true;
            }
        }
        raised
    }

    /// The bound of a node that follows from those of the sources of its edges: an OR node becomes active by the first arrival, an AND
    /// node by the last.
    fn by_edges(&self, graph: &Graph, node: u32) -> u64 {
        if graph.is_or(node) {
            self.first_arrival(graph, node)
        } else if graph.is_and(node) {
            self.last_arrival(graph, node)
        } else {
            0
        }
    }

    /// The first arrival at an OR node.
    fn first_arrival(&self, graph: &Graph, node: u32) -> u64 {
        let mut first = NEVER;
        for edge in edges_into(graph, node) {
            first = first.min(self.arrival(graph, *edge));
        }
        first
    }

    /// The last arrival at an AND node.
    fn last_arrival(&self, graph: &Graph, node: u32) -> u64 {
        let mut last = 0;
        for edge in edges_into(graph, node) {
            last = last.max(self.arrival(graph, *edge));
        }
        last
    }

    /// The first instant at which the failure can arrive by the edge, by what follows.
    pub(super) fn arrival(&self, graph: &Graph, edge: u32) -> u64 {
        let (source, delay) = source_and_delay(graph, edge);
        self.at(source).least.saturating_add(delay)
    }

    /// Goes through the OR nodes once, from the last on, for what would be due. Returns whether a bound was raised.
    fn follow_dues(&mut self, graph: &Graph, log: &Log) -> bool {
        let mut raised = false;
        for node in (0..graph.node_count()).rev() {
            if graph.is_or(node) {
                raised = self.follow_dues_of(graph, log, node) || raised;
            }
        }
        raised
    }

    /// Raises the bounds of the nodes by which this one would be due. Returns whether one was raised.
    fn follow_dues_of(&mut self, graph: &Graph, log: &Log, node: u32) -> bool {
        let mut raised = false;
        for edge in edges_into(graph, node) {
            let (source, _) = source_and_delay(graph, *edge);
            let bounds = self.at(source);
            let least = self.at(node).least;
            if let Some(due) = due_bound(graph, log, *edge, least, bounds.least) {
                self.set(
                    source,
                    ProposedBounds {
                        least: due.time,
                        due: Some(due),
                        ..bounds
                    },
                );
                raised = true;
            }
        }
        raised
    }

    /// Whether what is stated shows that the node is not active up to the instant: of the node itself, or of one that would be due
    /// then, or would be by one that is.
    pub(super) fn is_shown(&self, node: u32, until: u64) -> bool {
        let mut node = node;
        let mut until = until;
        for _ in 0..PASSES {
            let bounds = self.at(node);
            if bounds.stated.time > until {
                return true;
            }
            let Some(due) = bounds.due_by(until) else {
                return false;
            };
            node = due.target;
            until = due.active_by(until);
        }
        false
    }

    /// Whether what is stated shows that the failure does not arrive by the edge up to the instant.
    pub(super) fn is_late(&self, graph: &Graph, edge: u32, until: u64) -> bool {
        let (source, delay) = source_and_delay(graph, edge);
        match until.checked_sub(delay) {
            Some(until) => self.is_shown(source, until),
            None => true,
        }
    }
}

/// The edges into a node of the graph.
pub(super) fn edges_into(graph: &Graph, node: u32) -> &[u32] {
    if node < graph.node_count() {
        return graph.incoming(node);
    }
    &[]
}

/// The source of an edge, and its least delay in milliseconds. The edge may be any number: of one that is no edge both are 0.
pub(super) fn source_and_delay(graph: &Graph, edge: u32) -> (u32, u64) {
    if edge < graph.edge_count() {
        let propagation = graph.edge(edge);
        return (propagation.source, propagation.tmin);
    }
    (0, 0)
}
