//! A valid graph with its look-ups.

ghost use Rattle.std.specs.Prelude.{◌≡◌, ◌<◌, ◌≤◌, length, slice_get, Some, unwrap_or, IfOk, IsTrue, All};
ghost use Rattle.tfpg_graph.specs.Graph.{kind_at, is_kind_at, is_or, is_and, is_monitored, lag_at, lag_or_zero, name_at, name_word, node_named, mode_named, edge_from_to, incoming, failures, failure_at, position_of_failure};
ghost use Rattle.tfpg_graph.specs.Valid.{IsValid};
ghost use Rattle.tfpg_graph.specs.ZeroCycle.{HasZeroOrder};

use crate::declared::Declared;
use crate::edge::Edge;
use crate::kind::{Kind, Lag};
use crate::limits::{MAX_INCOMING, MAX_NODES};
use std::marker::Model;
use tfpg_base::NoMemory;

/// A timed failure propagation graph that is valid.
///
/// Nodes, edges and modes are numbered from 0 in the order of their lines; the failure modes among the nodes have
/// positions from 0, in the order of their numbers. No look-up takes memory. Those by number take constant time, those
/// by name one look-up in a map.
#[derive(Drop)]
pub struct Graph {
    declared: Declared,
}

impl Model for Graph {
    ghost use Rattle.tfpg_graph.specs.Graph.{Tfpg};

    ghost Value = { Tfpg };

    ghost use Rattle.tfpg_graph.specs.Valid.{IsValid};

    ghost view = { λ graph. graph.declared };

    ghost invariant = { λ graph. IsValid graph.declared };
}

impl Graph {
    /// The graph of what is declared, where that is valid.
    pub(crate) fn new(declared: Declared) -> Graph
        requires { IsValid declared }
        ensures { result ≡ declared }
    {
        Graph { declared }
    }

    /// What is declared of the graph.
    pub(crate) fn into_declared(self) -> Declared
        ensures { result ≡ self }
    {
        self.declared
    }

    /// A copy of the graph, with the allocator that the graph keeps. Takes time and memory linear in the graph.
    pub fn copy(&self) -> Result<Graph, NoMemory>
        ensures { IfOk result (λ graph. graph ≡ self.now) }
    {
        let declared = self.declared.copy()?;
        Ok(Graph { declared })
    }

    /// How many nodes it has: at most [`MAX_NODES`](crate::MAX_NODES).
    pub fn node_count(&self) -> u32
        ensures count { result ≡ length self.now.nodes }
        ensures valid { IsValid self.now }
        ensures order { HasZeroOrder self.now }
    {
        self.declared.node_count()
    }

    /// Does nothing: brings into a proof that the graph is valid.
    pub fn is_always_valid(&self)
        ensures valid { IsValid self.now }
        ensures few { length self.now.nodes ≤ MAX_NODES }
        ensures order { HasZeroOrder self.now }
    {
        let _opened = &self.declared;
    }

    /// How many edges it has: at most [`MAX_EDGES`](crate::MAX_EDGES).
    pub fn edge_count(&self) -> u32
        ensures { result ≡ length self.now.edges }
    {
        self.declared.edge_count()
    }

    /// How many modes it has: from 1 to [`MAX_MODES`](crate::MAX_MODES).
    pub fn mode_count(&self) -> u32
        ensures { result ≡ length self.now.modes }
    {
        self.declared.mode_count()
    }

    /// How many of its nodes are failure modes: at most [`MAX_FAILURES`](crate::MAX_FAILURES).
    pub fn failure_count(&self) -> u32
        ensures { result ≡ length (failures self.now) }
    {
        self.declared.failure_count()
    }

    /// What the node is.
    pub fn kind(&self, node: u32) -> Kind
        requires { node < length self.now.nodes }
        ensures { kind_at self.now node ≡ Some result }
    {
        self.declared.kind(node)
    }

    /// Whether it is an OR node. The number may be any.
    pub fn is_or(&self, node: u32) -> bool
        ensures value { result ≡ is_kind_at is_or self.now node }
        ensures within { IsTrue result → (node < length self.now.nodes) × (node < MAX_NODES) }
    {
        node < self.node_count() && self.kind(node).is_or()
    }

    /// Whether it is an AND node. The number may be any.
    pub fn is_and(&self, node: u32) -> bool
        ensures value { result ≡ is_kind_at is_and self.now node }
        ensures within { IsTrue result → (node < length self.now.nodes) × (node < MAX_NODES) }
    {
        node < self.node_count() && self.kind(node).is_and()
    }

    /// Whether it is a node that is monitored. The number may be any.
    pub fn is_monitored(&self, node: u32) -> bool
        ensures { result ≡ is_monitored self.now node }
    {
        node < self.node_count() && self.kind(node).is_monitored()
    }

    /// The lag of the node's alarm in milliseconds, and from 0 up to 0 where it is no monitored node. The number may be any.
    pub fn lag_or_zero(&self, node: u32) -> Lag
        ensures { result ≡ lag_or_zero self.now node }
    {
        match self.lag(node) {
            Some(lag) => lag,
            None => Lag { least: 0, most: 0 },
        }
    }

    /// The lag of the node's alarm in milliseconds, where it is a monitored node. The number may be any.
    pub fn lag(&self, node: u32) -> Option<Lag>
        ensures { result ≡ lag_at self.now node }
    {
        if node >= self.node_count() {
            return None;
        }
        self.kind(node).lag()
    }

    /// The edge of this number.
    pub fn edge(&self, edge: u32) -> Edge
        requires { edge < length self.now.edges }
        ensures { slice_get self.now.edges edge ≡ Some result }
    {
        self.declared.edge(edge)
    }

    /// The name of the node.
    pub fn name(&self, node: u32) -> &[u8]
        requires { node < length self.now.nodes }
        ensures at { name_at self.now node ≡ Some result.now }
        ensures word { result.now ≡ name_word self.now node }
    {
        self.declared.name(node)
    }

    /// The name of the mode.
    pub fn mode_name(&self, mode: u32) -> &[u8]
        requires { mode < length self.now.modes }
        ensures { slice_get self.now.modes mode ≡ Some result.now }
    {
        self.declared.mode_name(mode)
    }

    /// The node of this name, by one look-up in a map.
    pub fn find(&self, name: &[u8]) -> Option<u32>
        ensures { result ≡ node_named self.now name.now }
    {
        self.declared.find(name)
    }

    /// The mode of this name, by one look-up in a map.
    pub fn find_mode(&self, name: &[u8]) -> Option<u32>
        ensures { result ≡ mode_named self.now name.now }
    {
        self.declared.find_mode(name)
    }

    /// The edge from the one node to the other. Goes through the edges into the other, at most [`MAX_INCOMING`].
    pub fn edge_between(&self, source: u32, target: u32) -> Option<u32>
        requires source_in { source < length self.now.nodes }
        requires target_in { target < length self.now.nodes }
        ensures { result ≡ edge_from_to self.now source target }
    {
        self.declared.edge_between(source, target)
    }

    /// The numbers of the edges into the node, rising: none of a failure mode, at most [`MAX_INCOMING`] of a
    /// discrepancy.
    pub fn incoming(&self, node: u32) -> &[u32]
        requires { node < length self.now.nodes }
        ensures edges { result.now ≡ incoming self.now node }
        ensures few { length (incoming self.now node) ≤ MAX_INCOMING }
        ensures within { All (λ edge. edge < length self.now.edges) result.now }
    {
        self.declared.incoming(node)
    }

    /// The node of the failure mode at this place.
    pub fn failure_node(&self, place: u32) -> u32
        requires { place < length (failures self.now) }
        ensures node { failure_at self.now place ≡ Some result }
        ensures within { result < length self.now.nodes }
    {
        self.declared.failure_node(place)
    }

    /// The position of the node among the failure modes, where it is one.
    pub fn place_of(&self, node: u32) -> Option<u32>
        requires { node < length self.now.nodes }
        ensures { result ≡ position_of_failure self.now node }
    {
        self.declared.position_of(node)
    }
}
