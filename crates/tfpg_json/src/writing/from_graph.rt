//! A graph as JSON, token by token.

ghost use Rattle.std.specs.Prelude.{◌≡◌, ◌++◌, OnOk, codes, map};
ghost use Rattle.std.specs.Option.{option_map_or};
ghost use Rattle.serde_json.specs.Data.{array, null, string};
ghost use Rattle.serde_json.specs.View.{items_of};
ghost use Rattle.tfpg_graph.specs.Valid.{IsValidEdge};
ghost use Rattle.tfpg_json.specs.GraphData.{discrepancy_data, edge_data, graph_data, kind_data, mode_names, texts, whole};
ghost use Rattle.tfpg_json.specs.inside.Tokens.{data_tokens, lag_tokens, member_tokens};

use crate::writing::from_names::{mode_name, node_name};
use crate::writing::members::{append_null, append_number, append_text};
use json::Writer;
use std::alloc::AllocError;
use tfpg_graph::{Edge, Graph, Kind, Lag};

/// Appends the graph.
pub(crate) fn append_graph(graph: &Graph, into: &mut Writer) -> Result<(), AllocError>
    ensures before { into.new.before ≡ into.old.before }
    ensures ok { OnOk result
        (into.new.tokens ≡ into.old.tokens ++ data_tokens (graph_data graph.now)) }
{
    into.begin_object()?;
    append_edges(graph, into)?;
    append_modes(graph, into)?;
    append_nodes(graph, into)?;
    into.end_object()
}

/// Appends the member with the edges.
fn append_edges(graph: &Graph, into: &mut Writer) -> Result<(), AllocError>
    ensures before { into.new.before ≡ into.old.before }
    ensures ok { OnOk result (into.new.tokens ≡ into.old.tokens
        ++ member_tokens (codes "edges") (array (items_of (map (edge_data graph.now) graph.now.edges)))) }
{
    graph.is_always_valid();
    into.key("edges")?;
    into.begin_array()?;
    for number in 0..graph.edge_count() {
        append_edge(graph, &graph.edge(number), into)?;
    }
    into.end_array()
}

/// Appends the member with the names of all modes.
fn append_modes(graph: &Graph, into: &mut Writer) -> Result<(), AllocError>
    ensures before { into.new.before ≡ into.old.before }
    ensures ok { OnOk result (into.new.tokens
        ≡ into.old.tokens ++ member_tokens (codes "modes") (texts graph.now.modes)) }
{
    into.key("modes")?;
    into.begin_array()?;
    for mode in 0..graph.mode_count() {
        into.string(mode_name(graph, mode))?;
    }
    into.end_array()
}

/// Appends the member with the nodes.
fn append_nodes(graph: &Graph, into: &mut Writer) -> Result<(), AllocError>
    ensures before { into.new.before ≡ into.old.before }
    ensures ok { OnOk result (into.new.tokens ≡ into.old.tokens
        ++ member_tokens (codes "nodes") (array (items_of (map (λ node. kind_data node.name node.kind) graph.now.nodes)))) }
{
    into.key("nodes")?;
    into.begin_array()?;
    for node in 0..graph.node_count() {
        append_node(node_name(graph, node), graph.kind(node), into)?;
    }
    into.end_array()
}

/// Appends an edge.
fn append_edge(graph: &Graph, edge: &Edge, into: &mut Writer) -> Result<(), AllocError>
    requires { IsValidEdge graph.now edge.now }
    ensures before { into.new.before ≡ into.old.before }
    ensures ok { OnOk result
        (into.new.tokens ≡ into.old.tokens ++ data_tokens (edge_data graph.now edge.now)) }
{
    let source = node_name(graph, edge.source);
    let target = node_name(graph, edge.target);
    into.begin_object()?;
    append_text("from", source, into)?;
    append_greatest(edge.tmax, into)?;
    append_number("min", edge.tmin, into)?;
    append_active_modes(graph, edge, into)?;
    append_text("to", target, into)?;
    into.end_object()
}

/// Appends the member with the greatest delay of an edge, which is null where it is infinite.
fn append_greatest(tmax: Option<u64>, into: &mut Writer) -> Result<(), AllocError>
    ensures before { into.new.before ≡ into.old.before }
    ensures ok { OnOk result
        (into.new.tokens ≡ into.old.tokens ++ member_tokens (codes "max") (option_map_or whole tmax null)) }
{
    match tmax {
        Some(tmax) => append_number("max", tmax, into),
        None => append_null("max", into),
    }
}

/// Appends the member with the names of the modes in which an edge is active.
fn append_active_modes(graph: &Graph, edge: &Edge, into: &mut Writer) -> Result<(), AllocError>
    ensures before { into.new.before ≡ into.old.before }
    ensures ok { OnOk result (into.new.tokens ≡ into.old.tokens
        ++ member_tokens (codes "modes") (texts (mode_names graph.now edge.now.modes))) }
{
    into.key("modes")?;
    into.begin_array()?;
    for mode in 0..graph.mode_count() {
        if edge.is_active_in(mode) {
            into.string(mode_name(graph, mode))?;
        }
    }
    into.end_array()
}

/// Appends a node of this name and kind.
fn append_node(name: &str, kind: Kind, into: &mut Writer) -> Result<(), AllocError>
    ensures before { into.new.before ≡ into.old.before }
    ensures ok { OnOk result
        (into.new.tokens ≡ into.old.tokens ++ data_tokens (kind_data name.now kind)) }
{
    match kind {
        Kind::Failure { rarity } => append_failure(name, rarity, into),
        Kind::Or { lag } => append_discrepancy("or", name, lag, into),
        Kind::And { lag } => append_discrepancy("and", name, lag, into),
    }
}

/// Appends a failure mode.
fn append_failure(name: &str, rarity: u64, into: &mut Writer) -> Result<(), AllocError>
    ensures before { into.new.before ≡ into.old.before }
    ensures ok { OnOk result
        (into.new.tokens ≡ into.old.tokens ++ data_tokens (kind_data name.now (Kind.Failure rarity))) }
{
    into.begin_object()?;
    append_text("kind", "failure", into)?;
    append_text("name", name, into)?;
    append_number("rarity", rarity, into)?;
    into.end_object()
}

/// Appends a discrepancy of this kind.
fn append_discrepancy(
    kind: &str,
    name: &str,
    lag: Option<Lag>,
    into: &mut Writer,
) -> Result<(), AllocError>
    ensures before { into.new.before ≡ into.old.before }
    ensures ok { OnOk result (into.new.tokens
        ≡ into.old.tokens ++ data_tokens (discrepancy_data kind.now name.now lag)) }
{
    into.begin_object()?;
    append_text("kind", kind, into)?;
    append_lag(lag, into)?;
    append_text("name", name, into)?;
    into.end_object()
}

/// Appends the members that a monitored discrepancy has: the greatest lag, and the least where it is not 0.
fn append_lag(lag: Option<Lag>, into: &mut Writer) -> Result<(), AllocError>
    ensures before { into.new.before ≡ into.old.before }
    ensures ok { OnOk result (into.new.tokens ≡ into.old.tokens ++ lag_tokens lag) }
{
    let Some(lag) = lag else {
        return Ok(());
    };
    append_number("lag", lag.most, into)?;
    if lag.least == 0 {
        return Ok(());
    }
    append_number("least", lag.least, into)
}
