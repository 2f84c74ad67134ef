//! What JSON says of a graph, before any name is looked up.

ghost use Rattle.std.specs.Prelude.{◌≡◌, [], map, unwrap_or};
ghost use Rattle.std.specs.List.{list_all};
ghost use Rattle.tfpg_base.specs.Words.{is_name};
ghost use Rattle.tfpg_json.specs.GraphSaid.{has_edge_names};

use std::marker::Model;
use tfpg_base::{Items, read_name};
use tfpg_graph::Kind;

/// The names of modes, nodes, and edges between nodes of some names.
#[derive(Drop)]
pub(crate) struct JsonGraph<'a> {
    pub(crate) modes: Items<&'a [u8]>,
    pub(crate) nodes: Items<JsonNode<'a>>,
    pub(crate) edges: Items<JsonEdge<'a>>,
}

impl<'a> Model for JsonGraph<'a> {
    ghost use Rattle.std.specs.Prelude.{map};
    ghost use Rattle.tfpg_json.specs.GraphSaid.{GraphSaid};

    ghost Value = { GraphSaid };

    ghost view = { λ said. record {
      modes = map (λ name. name.now) said.modes;
      nodes = said.nodes;
      edges = said.edges;
    } };
}

/// A node of this name.
#[derive(Drop)]
pub(crate) struct JsonNode<'a> {
    pub(crate) name: &'a [u8],
    pub(crate) kind: Kind,
}

impl<'a> Model for JsonNode<'a> {
    ghost use Rattle.tfpg_graph.specs.Graph.{Node};

    ghost Value = { Node };

    ghost view = { λ node. record { name = node.name.now; kind = node.kind } };
}

/// An edge between the nodes of two names, active in the modes of these names, or in all.
#[derive(Drop)]
pub(crate) struct JsonEdge<'a> {
    pub(crate) source: &'a [u8],
    pub(crate) target: &'a [u8],
    pub(crate) tmin: u64,
    pub(crate) tmax: Option<u64>,
    pub(crate) modes: Option<Items<&'a [u8]>>,
}

impl<'a> Model for JsonEdge<'a> {
    ghost use Rattle.std.specs.Prelude.{map, option_map};
    ghost use Rattle.tfpg_json.specs.GraphSaid.{EdgeSaid};

    ghost Value = { EdgeSaid };

    ghost view = { λ edge. record {
      source = edge.source.now;
      target = edge.target.now;
      tmin = edge.tmin;
      tmax = edge.tmax;
      modes = option_map (λ names. map (λ name. name.now) names) edge.modes;
    } };
}

impl<'a> JsonGraph<'a> {
    ghost use Rattle.tfpg_json.specs.GraphSaid.{has_names};

    /// Whether each name has the form of one.
    pub(crate) fn has_names(&self) -> bool
        ensures { result ≡ has_names self.now }
    {
        are_names(self.modes.as_slice())
            && have_node_names(self.nodes.as_slice())
            && have_edge_names(self.edges.as_slice())
    }
}

impl<'a> JsonEdge<'a> {
    /// Whether each name in it has the form of one.
    fn has_names(&self) -> bool
        ensures { result ≡ has_edge_names self.now }
    {
        read_name(self.source) && read_name(self.target) && self.has_mode_names()
    }

    /// Whether each name of a mode has the form of one.
    fn has_mode_names(&self) -> bool
        ensures { result ≡ list_all is_name (unwrap_or self.now.modes []) }
    {
        match &self.modes {
            Some(names) => are_names(names.as_slice()),
            None => true,
        }
    }
}

fn are_names(words: &[&[u8]]) -> bool
    ensures { result ≡ list_all is_name (map (λ word. word.now) words.now) }
{
    all_are_names(words)
}

fn all_are_names(words: &[&[u8]]) -> bool
    ensures { result ≡ list_all (λ word. is_name word.now) words.now }
{
    words.iter().all(|word| read_name(word))
}

fn have_node_names(nodes: &[JsonNode]) -> bool
    ensures { result ≡ list_all (λ node. is_name node.name) nodes.now }
{
    nodes.iter().all(|node| read_name(node.name))
}

fn have_edge_names(edges: &[JsonEdge]) -> bool
    ensures { result ≡ list_all has_edge_names edges.now }
{
    edges.iter().all(|edge| edge.has_names())
}
