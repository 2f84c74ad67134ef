//! The names of a graph and their indexes.

ghost use Rattle.std.specs.Prelude.{◌≡◌, length, option_and_then, option_map, slice_get, unwrap_or};
ghost use Rattle.tfpg_graph.specs.Graph.{failure_at, name_at, node_named, position_of_failure};
ghost use Rattle.tfpg_embed.specs.Names.{answer_of_index, answer_of_name, index_in, name_in, room_after_name};

use crate::answer::{TfpgAnswer, plain};
use crate::kinds::{FAILURE_NAME, MODE_NAME, NODE_NAME};
use crate::room::put_text;
use crate::status::{DONE, NO_SUCH};
use tfpg_graph::Graph;

/// Writes the name of what has this index to the front of the room, if it fits.
pub(crate) fn put_name(graph: &Graph, kind: u32, index: u32, room: &mut [u8]) -> TfpgAnswer
    ensures answer { result ≡ answer_of_name (name_in graph.now kind index) (length room.old) }
    ensures room { room.new ≡ room_after_name (name_in graph.now kind index) room.old }
{
    match name_in(graph, kind, index) {
        Some(name) => put_text(name, room),
        None => plain(NO_SUCH),
    }
}

/// Writes the index of what has this name.
pub(crate) fn put_index(graph: &Graph, kind: u32, name: &[u8], index: &mut u32) -> TfpgAnswer
    ensures answer { result ≡ answer_of_index (index_in graph.now kind name.now) }
    ensures index { index.new ≡ unwrap_or (index_in graph.now kind name.now) index.old }
{
    match index_in(graph, kind, name) {
        Some(found) => {
            *index = found;
            plain(DONE)
        }
        None => plain(NO_SUCH),
    }
}

/// The name of what has this index.
fn name_in(graph: &Graph, kind: u32, index: u32) -> Option<&[u8]>
    ensures { option_map (λ name. name.now) result ≡ name_in graph.now kind index }
{
    if kind == NODE_NAME {
        node_name(graph, index)
    } else if kind == FAILURE_NAME {
        failure_name(graph, index)
    } else if kind == MODE_NAME {
        mode_name(graph, index)
    } else {
        None
    }
}

/// The name of a node.
pub(crate) fn node_name(graph: &Graph, node: u32) -> Option<&[u8]>
    ensures { option_map (λ name. name.now) result ≡ name_at graph.now node }
{
    if node < graph.node_count() {
        Some(graph.name(node))
    } else {
        None
    }
}

/// The name of the failure mode at this position.
fn failure_name(graph: &Graph, position: u32) -> Option<&[u8]>
    ensures { option_map (λ name. name.now) result ≡ option_and_then (name_at graph.now) (failure_at graph.now position) }
{
    if position < graph.failure_count() {
        Some(graph.name(graph.failure_node(position)))
    } else {
        None
    }
}

/// The name of a mode.
pub(crate) fn mode_name(graph: &Graph, mode: u32) -> Option<&[u8]>
    ensures { option_map (λ name. name.now) result ≡ slice_get graph.now.modes mode }
{
    if mode < graph.mode_count() {
        Some(graph.mode_name(mode))
    } else {
        None
    }
}

/// The index of what has this name.
fn index_in(graph: &Graph, kind: u32, name: &[u8]) -> Option<u32>
    ensures { result ≡ index_in graph.now kind name.now }
{
    if kind == NODE_NAME {
        graph.find(name)
    } else if kind == FAILURE_NAME {
        failure_named(graph, name)
    } else if kind == MODE_NAME {
        graph.find_mode(name)
    } else {
        None
    }
}

/// The position of the failure mode of this name.
fn failure_named(graph: &Graph, name: &[u8]) -> Option<u32>
    ensures { result ≡ option_and_then (position_of_failure graph.now) (node_named graph.now name.now) }
{
    graph.is_always_valid();
    graph.place_of(graph.find(name)?)
}
