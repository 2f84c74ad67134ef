//! What is declared so far of a graph, with the indexes by which it is looked up.

ghost use Rattle.std.specs.Prelude.{◌≡◌, ◌↔◌, ◌<◌, ◌≤◌, ◌^◌, [], ◌∷◌, ◌++◌, length, map, Some, None, slice_get, IsTrue, IfOk, IfSome, IfNone, if◌then◌else◌, is_some};
ghost use Rattle.tfpg_base.specs.Words.{is_name};
ghost use Rattle.tfpg_graph.specs.Graph.{is_failure, kind_at, name_at, node_named, mode_named, edge_from_to, incoming, failures, failure_at, position_of_failure};
ghost use Rattle.tfpg_graph.specs.Valid.{HasValidNumber, IsValidEdge};

use crate::edge::Edge;
use crate::kind::Kind;
use crate::limits::{MAX_EDGES, MAX_FAILURES, MAX_INCOMING, MAX_MODES, MAX_NODES};
use indexmap::{IndexMap, IndexSet};
use std::alloc::Global;
use std::marker::Model;
use tfpg_base::NoMemory;

/// Nodes, edges and modes, in the order of their lines.
#[derive(Drop)]
pub(crate) struct Declared {
    nodes: IndexMap<Vec<u8>, Kind>,
    edges: Vec<Edge>,
    modes: IndexSet<Vec<u8>>,
    /// For each node the numbers of the edges into it, rising.
    incoming: Vec<Vec<u32>>,
    /// The nodes that are failure modes, rising.
    failures: Vec<u32>,
    /// For each node its position among these, where it is one.
    positions: Vec<Option<u32>>,
}

impl Model for Declared {
    ghost use Rattle.tfpg_graph.specs.Graph.{Tfpg};

    ghost Value = { Tfpg };

    ghost use Rattle.tfpg_graph.specs.inside.declaring.Indexes.{graph_of, IsDeclared};

    ghost view = { graph_of };

    ghost invariant = { IsDeclared };
}

impl Declared {
    ghost use Rattle.tfpg_graph.specs.inside.declaring.Indexes.{nothing_declared, with_node, with_edge, with_mode};
    ghost use Rattle.tfpg_graph.specs.Valid.{IsValidSoFar, HasIncomingBefore};
    ghost use Rattle.tfpg_graph.specs.Faults.{LacksIncoming};

    /// Nothing is declared. Takes no memory.
    pub(crate) fn new(alloc: Global) -> Declared
        ensures { result ≡ nothing_declared }
    {
        Declared {
            nodes: IndexMap::new(alloc),
            edges: Vec::new(alloc),
            modes: IndexSet::new(alloc),
            incoming: Vec::new(alloc),
            failures: Vec::new(alloc),
            positions: Vec::new(alloc),
        }
    }

    /// Declares one more mode.
    pub(crate) fn with_mode(self, alloc: Global, name: &[u8]) -> Result<Declared, NoMemory>
        requires before_edges { self.edges ≡ [] }
        requires name { IsTrue (is_name name.now) }
        requires new { mode_named self name.now ≡ None }
        requires room { length self.modes < MAX_MODES }
        ensures { IfOk result (λ declared. declared ≡ with_mode self name.now) }
    {
        let mut declared = self;
        let name = Vec::from_slice(alloc, name)?;
        declared.modes.insert(name)?;
        Ok(declared)
    }

    /// Declares one more node.
    pub(crate) fn with_node(
        self,
        alloc: Global,
        name: &[u8],
        kind: Kind,
    ) -> Result<Declared, NoMemory>
        requires name { IsTrue (is_name name.now) }
        requires new { node_named self name.now ≡ None }
        requires number { HasValidNumber kind }
        requires room { length self.nodes < MAX_NODES }
        requires failure_room { IsTrue (is_failure kind) → length (failures self) < MAX_FAILURES }
        ensures { IfOk result (λ declared. declared ≡ with_node self name.now kind) }
    {
        let Declared {
            mut nodes,
            edges,
            modes,
            mut incoming,
            mut failures,
            mut positions,
        } = self;
        let number = nodes.len() as u32;
        let name = Vec::from_slice(alloc, name)?;
        nodes.insert(name, kind)?;
        index_node(
            alloc,
            &mut incoming,
            &mut failures,
            &mut positions,
            number,
            kind,
        )?;
        Ok(Declared {
            nodes,
            edges,
            modes,
            incoming,
            failures,
            positions,
        })
    }

    /// Declares one more edge, which is valid among the nodes and modes that are declared.
    pub(crate) fn with_edge(self, edge: Edge) -> Result<Declared, NoMemory>
        requires valid { IsValidEdge self edge }
        requires new { edge_from_to self edge.source edge.target ≡ None }
        requires room { length self.edges < MAX_EDGES }
        requires incoming_room { length (incoming self edge.target) < MAX_INCOMING }
        ensures { IfOk result (λ declared. declared ≡ with_edge self edge) }
    {
        let mut declared = self;
        let number = declared.edges.len() as u32;
        declared.edges.push(edge)?;
        declared.incoming[edge.target as usize].push(number)?;
        Ok(declared)
    }

    /// A copy of what is declared. Takes time and memory linear in it.
    pub(crate) fn copy(&self) -> Result<Declared, NoMemory>
        ensures { IfOk result (λ declared. declared ≡ self.now) }
    {
        let edges = self.edges.clone()?;
        let failures = self.failures.clone()?;
        let positions = self.positions.clone()?;
        let incoming = self.incoming.clone()?;
        let modes = self.modes.clone()?;
        let nodes = self.nodes.clone()?;
        Ok(Declared {
            nodes,
            edges,
            modes,
            incoming,
            failures,
            positions,
        })
    }

    pub(crate) fn node_count(&self) -> u32
        ensures { result ≡ length self.now.nodes }
    {
        self.nodes.len() as u32
    }

    pub(crate) fn edge_count(&self) -> u32
        ensures { result ≡ length self.now.edges }
    {
        self.edges.len() as u32
    }

    pub(crate) fn mode_count(&self) -> u32
        ensures count { result ≡ length self.now.modes }
        ensures few { length self.now.modes ≤ MAX_MODES }
        ensures so_far { IsValidSoFar self.now }
    {
        self.modes.len() as u32
    }

    pub(crate) fn failure_count(&self) -> u32
        ensures { result ≡ length (failures self.now) }
    {
        self.failures.len() as u32
    }

    pub(crate) fn kind(&self, node: u32) -> Kind
        requires { node < length self.now.nodes }
        ensures { kind_at self.now node ≡ Some result }
    {
        self.nodes[node as usize]
    }

    pub(crate) fn edge(&self, edge: u32) -> Edge
        requires { edge < length self.now.edges }
        ensures { slice_get self.now.edges edge ≡ Some result }
    {
        self.edges[edge as usize]
    }

    pub(crate) fn name(&self, node: u32) -> &[u8]
        requires { node < length self.now.nodes }
        ensures { name_at self.now node ≡ Some result.now }
    {
        let (name, _) = self.nodes.get_index(node as usize).unwrap();
        name.as_slice()
    }

    pub(crate) fn mode_name(&self, mode: u32) -> &[u8]
        requires { mode < length self.now.modes }
        ensures { slice_get self.now.modes mode ≡ Some result.now }
    {
        self.modes.get_index(mode as usize).unwrap().as_slice()
    }

    pub(crate) fn find(&self, name: &[u8]) -> Option<u32>
        ensures node { result ≡ node_named self.now name.now }
        ensures within { IfSome result (λ node. node < length self.now.nodes) }
        ensures named { IfSome result (λ node. name_at self.now node ≡ Some name.now) }
    {
        self.nodes.get_index_of(name).map(|index| index as u32)
    }

    pub(crate) fn find_mode(&self, name: &[u8]) -> Option<u32>
        ensures { result ≡ mode_named self.now name.now }
    {
        self.modes.get_index_of(name).map(|index| index as u32)
    }

    pub(crate) fn edge_between(&self, source: u32, target: u32) -> Option<u32>
        requires source_in { source < length self.now.nodes }
        requires target_in { target < length self.now.nodes }
        ensures { result ≡ edge_from_to self.now source target }
    {
        for number in self.incoming(target) {
            if self.edge(*number).source == source {
                return Some(*number);
            }
        }
        None
    }

    pub(crate) fn incoming(&self, node: u32) -> &[u32]
        requires { node < length self.now.nodes }
        ensures edges { result.now ≡ incoming self.now node }
        ensures few { length (incoming self.now node) ≤ MAX_INCOMING }
    {
        self.incoming[node as usize].as_slice()
    }

    /// The first discrepancy with no edge into it. Takes time linear in the number of nodes.
    pub(crate) fn without_incoming(&self) -> Option<u32>
        ensures all { IfNone result (HasIncomingBefore self.now (length self.now.nodes)) }
        ensures lacking { IfSome result (LacksIncoming self.now) }
        ensures first { IfSome result (HasIncomingBefore self.now) }
        ensures so_far { IsValidSoFar self.now }
    {
        let _declared = &self.nodes;
        for node in 0..self.node_count() {
            if self.lacks_incoming(node) {
                return Some(node);
            }
        }
        None
    }

    fn lacks_incoming(&self, node: u32) -> bool
        requires { node < length self.now.nodes }
        ensures { IsTrue result ↔ LacksIncoming self.now node }
    {
        !self.kind(node).is_failure() && self.incoming(node).is_empty()
    }

    pub(crate) fn failure_node(&self, position: u32) -> u32
        requires { position < length (failures self.now) }
        ensures { failure_at self.now position ≡ Some result }
    {
        self.failures[position as usize]
    }

    pub(crate) fn position_of(&self, node: u32) -> Option<u32>
        requires { node < length self.now.nodes }
        ensures { result ≡ position_of_failure self.now node }
    {
        self.positions[node as usize]
    }
}

/// Adds a node with no edge into it to the indexes.
fn index_node(
    alloc: Global,
    incoming: &mut Vec<Vec<u32>>,
    failures: &mut Vec<u32>,
    positions: &mut Vec<Option<u32>>,
    node: u32,
    kind: Kind,
) -> Result<(), NoMemory>
    requires { length failures.old.items < 2 ^ 32 }
    ensures rows { IfOk result (λ _. map (λ row. row.items) incoming.new.items ≡
        map (λ row. row.items) incoming.old.items ++ [] ∷ []) }
    ensures failures { IfOk result (λ _. failures.new.items ≡ failures.old.items ++
        (if is_failure kind then node ∷ [] else [])) }
    ensures positions { IfOk result (λ _. positions.new.items ≡ positions.old.items ++
        (if is_failure kind then Some (length failures.old.items) else None) ∷ []) }
{
    let position = give_position(failures, node, kind)?;
    incoming.push(Vec::new(alloc))?;
    positions.push(position)?;
    Ok(())
}

/// Gives the next position to a node that is a failure mode.
fn give_position(failures: &mut Vec<u32>, node: u32, kind: Kind) -> Result<Option<u32>, NoMemory>
    requires { length failures.old.items < 2 ^ 32 }
    ensures failures { IfOk result (λ _. failures.new.items ≡ failures.old.items ++
        (if is_failure kind then node ∷ [] else [])) }
    ensures position { IfOk result (λ position. position ≡
        (if is_failure kind then Some (length failures.old.items) else None)) }
{
    match kind {
        Kind::Failure { rarity: _ } => {
            let position = failures.len() as u32;
            failures.push(node)?;
            Ok(Some(position))
        }
        _ => Ok(None),
    }
}
