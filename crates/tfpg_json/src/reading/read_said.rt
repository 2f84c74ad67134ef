//! What a JSON value says of a graph.

ghost use Rattle.std.specs.Prelude.{◌≡◌, Some, codes, map, option_and_then, option_map};
ghost use Rattle.std.specs.Option.{option_map_or};
ghost use Rattle.serde_json.specs.Find.{as_str, get};
ghost use Rattle.serde_json.specs.View.{view};
ghost use Rattle.tfpg_json.specs.GraphSaid.{each_in, edge_from, graph_in, kind_in, kind_of, lag_from, node_in, number_from, unless_null};
ghost use Rattle.tfpg_json.specs.inside.ReadAs.{ReadAs};

use crate::reading::fields::{
    NO_GRAPH, list_in, number_or_null, number_under, text_in, text_under,
};
use crate::reading::json_graph::{JsonEdge, JsonGraph, JsonNode};
use serde_json::Value;
use std::alloc::Global;
use tfpg_base::Items;
use tfpg_graph::{GraphRefusal, Kind, Lag};

/// What a value says of a graph.
pub(crate) fn graph_said<'a>(alloc: Global, value: &'a Value) -> Result<JsonGraph<'a>, GraphRefusal>
    ensures { ReadAs (λ said. said) (graph_in (view value.now)) result }
{
    let modes = names_in(alloc, value.get("modes").ok_or(NO_GRAPH)?)?;
    let nodes = nodes_in(alloc, value.get("nodes").ok_or(NO_GRAPH)?)?;
    let edges = edges_in(alloc, value.get("edges").ok_or(NO_GRAPH)?)?;
    Ok(JsonGraph {
        modes,
        nodes,
        edges,
    })
}

/// The texts in a list.
fn names_in<'a>(alloc: Global, value: &'a Value) -> Result<Items<&'a [u8]>, GraphRefusal>
    ensures { ReadAs (λ names. map (λ name. name.now) names) (each_in as_str (view value.now)) result }
{
    let mut names = Items::new(alloc);
    for item in list_in(value)? {
        names.push(text_in(item).ok_or(NO_GRAPH)?)?;
    }
    Ok(names)
}

/// The nodes in a list.
fn nodes_in<'a>(alloc: Global, value: &'a Value) -> Result<Items<JsonNode<'a>>, GraphRefusal>
    ensures { ReadAs (λ nodes. nodes) (each_in node_in (view value.now)) result }
{
    let mut nodes = Items::new(alloc);
    for item in list_in(value)? {
        nodes.push(node_in(item).ok_or(NO_GRAPH)?)?;
    }
    Ok(nodes)
}

/// The edges in a list.
fn edges_in<'a>(alloc: Global, value: &'a Value) -> Result<Items<JsonEdge<'a>>, GraphRefusal>
    ensures { ReadAs (λ edges. edges) (each_in edge_from (view value.now)) result }
{
    let mut edges = Items::new(alloc);
    for item in list_in(value)? {
        edges.push(edge_in(alloc, item)?)?;
    }
    Ok(edges)
}

/// A node.
fn node_in<'a>(value: &'a Value) -> Option<JsonNode<'a>>
    ensures { result ≡ node_in (view value.now) }
{
    let name = text_under("name", value)?;
    let kind = kind_in(value)?;
    Some(JsonNode { name, kind })
}

/// What a node is.
fn kind_in(value: &Value) -> Option<Kind>
    ensures { result ≡ kind_in (view value.now) }
{
    let word = text_under("kind", value)?;
    if word == b"failure".as_slice() {
        return Some(Kind::Failure {
            rarity: number_under("rarity", value)?,
        });
    }
    if word == b"or".as_slice() {
        return Some(Kind::Or {
            lag: lag_in(value)?,
        });
    }
    if word == b"and".as_slice() {
        return Some(Kind::And {
            lag: lag_in(value)?,
        });
    }
    None
}

/// The lag of a discrepancy, where it is monitored. There is no result where what stands there is no lag.
fn lag_in(value: &Value) -> Option<Option<Lag>>
    ensures { result ≡ lag_from (view value.now) }
{
    let Some(most) = value.get("lag") else {
        return Some(None);
    };
    if most.is_null() {
        return Some(None);
    }
    let most = most.as_u64()?;
    let least = least_in(value)?;
    Some(Some(Lag { least, most }))
}

/// The least lag of a monitored node, which is 0 where the key is absent.
fn least_in(value: &Value) -> Option<u64>
    ensures { result ≡ option_map_or number_from (get (codes "least") (view value.now)) (Some 0) }
{
    match value.get("least") {
        Some(least) => least.as_u64(),
        None => Some(0),
    }
}

/// An edge.
fn edge_in<'a>(alloc: Global, value: &'a Value) -> Result<JsonEdge<'a>, GraphRefusal>
    ensures { ReadAs (λ edge. edge) (edge_from (view value.now)) result }
{
    let source = text_under("from", value).ok_or(NO_GRAPH)?;
    let target = text_under("to", value).ok_or(NO_GRAPH)?;
    let tmin = number_under("min", value).ok_or(NO_GRAPH)?;
    let tmax = value.get("max").and_then(number_or_null).ok_or(NO_GRAPH)?;
    let modes = modes_in(alloc, value)?;
    Ok(JsonEdge {
        source,
        target,
        tmin,
        tmax,
        modes,
    })
}

/// The modes of an edge: none where they are all.
fn modes_in<'a>(alloc: Global, value: &'a Value) -> Result<Option<Items<&'a [u8]>>, GraphRefusal>
    ensures { ReadAs (option_map (λ names. map (λ name. name.now) names)) (option_and_then (unless_null (each_in as_str)) (get (codes "modes") (view value.now))) result }
{
    let modes = value.get("modes").ok_or(NO_GRAPH)?;
    if modes.is_null() {
        return Ok(None);
    }
    Ok(Some(names_in(alloc, modes)?))
}
