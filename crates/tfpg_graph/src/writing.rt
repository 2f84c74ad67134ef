//! Writes the text of a graph.

ghost use Rattle.std.specs.Prelude.{◌≡◌, length, flat_map};
ghost use Rattle.tfpg_base.specs.Append.{Appends};
ghost use Rattle.tfpg_base.specs.Lines.{with_line_end};
ghost use Rattle.tfpg_graph.specs.Text.{canonical_text, header, node_text, version_for, Spells};
ghost use Rattle.tfpg_graph.specs.Valid.{IsValid};
ghost use Rattle.tfpg_graph.specs.inside.writing.Written.{mode_text, edge_text};

mod write_edge;
mod write_modes;
mod write_node;

use crate::graph::Graph;
use crate::version::Version;
use crate::writing::write_edge::append_edge;
use tfpg_base::{NoMemory, append_line};
pub use write_edge::append_edge_start;
pub use write_node::append_node;

/// Appends the canonical text of the graph: a line for each mode, node and edge in their order, no comment, and a star
/// for the modes of an edge that is active in all. It is of version 1 where each least lag is 0, and else of version 2. Where
/// memory runs out, the old bytes may be followed by a part of the text. Costs the length of the text, and for each edge one
/// test for each mode.
pub fn write(graph: &Graph, into: &mut Vec<u8>) -> Result<(), NoMemory>
    ensures text { Appends result into.old.items into.new.items (canonical_text graph.now) }

    // The text spells the graph, which is valid, so what is read of it is this graph.
    ensures spelled { Spells (canonical_text graph.now) graph.now }
    ensures valid { IsValid graph.now }
{
    let nodes = graph.node_count();
    let version = version_for(graph, nodes);
    append_header(version, into)?;
    append_modes(graph, into)?;
    append_nodes(version, graph, nodes, into)?;
    append_edges(graph, into)?;
    append_line(into, &[b"end"])
}

/// The version in which the graph is written, by its nodes, of which there are `count`.
fn version_for(graph: &Graph, count: u32) -> Version
    requires { count ≡ length graph.now.nodes }
    ensures { result ≡ version_for graph.now }
{
    for node in 0..count {
        if !graph.kind(node).has_zero_least() {
            return Version::Two;
        }
    }
    Version::One
}

/// Appends the first line.
fn append_header(version: Version, into: &mut Vec<u8>) -> Result<(), NoMemory>
    ensures { Appends result into.old.items into.new.items (with_line_end (header version)) }
{
    match version {
        Version::One => append_line(into, &[b"tfpg", b"1"]),
        Version::Two => append_line(into, &[b"tfpg", b"2"]),
    }
}

/// Appends the lines of the modes.
fn append_modes(graph: &Graph, into: &mut Vec<u8>) -> Result<(), NoMemory>
    ensures { Appends result into.old.items into.new.items (flat_map mode_text graph.now.modes) }
{
    for mode in 0..graph.mode_count() {
        append_line(into, &[b"mode", graph.mode_name(mode)])?;
    }
    Ok(())
}

/// Appends the lines of the nodes, of which there are `count`.
fn append_nodes(
    version: Version,
    graph: &Graph,
    count: u32,
    into: &mut Vec<u8>,
) -> Result<(), NoMemory>
    requires { count ≡ length graph.now.nodes }
    ensures { Appends result into.old.items into.new.items (flat_map (node_text version) graph.now.nodes) }
{
    for node in 0..count {
        append_node(version, graph.name(node), graph.kind(node), into)?;
    }
    Ok(())
}

/// Appends the lines of the edges.
fn append_edges(graph: &Graph, into: &mut Vec<u8>) -> Result<(), NoMemory>
    requires { IsValid graph.now }
    ensures { Appends result into.old.items into.new.items (flat_map (edge_text graph.now) graph.now.edges) }
{
    for number in 0..graph.edge_count() {
        append_edge(graph, graph.edge(number), into)?;
    }
    Ok(())
}
