//! The graph text that JSON stands for.

ghost use Rattle.std.specs.Prelude.{◌≡◌, flat_map, map};
ghost use Rattle.tfpg_base.specs.Append.{Appends};
ghost use Rattle.tfpg_base.specs.Lines.{with_line_end};
ghost use Rattle.tfpg_base.specs.Words.{joined_by_commas};
ghost use Rattle.tfpg_graph.specs.Text.{mode_line, node_text};
ghost use Rattle.tfpg_graph.specs.declared.version.Version.TheVariants.{Two};
ghost use Rattle.tfpg_json.specs.GraphText.{edge_said_line, modes_said_word, text_said};

use crate::reading::json_graph::{JsonEdge, JsonGraph, JsonNode};
use tfpg_base::{NoMemory, append_line, append_part};
use tfpg_graph::{Version, append_edge_start, append_node};

/// Appends the text: the header of version 2, a line for each mode, node and edge in their order, and the end.
pub(crate) fn append_graph(said: &JsonGraph, into: &mut Vec<u8>) -> Result<(), NoMemory>
    ensures { Appends result into.old.items into.new.items (text_said said.now) }
{
    append_line(into, &[b"tfpg", b"2"])?;
    append_modes(said.modes.as_slice(), into)?;
    append_nodes(said.nodes.as_slice(), into)?;
    append_edges(said.edges.as_slice(), into)?;
    append_line(into, &[b"end"])
}

/// Appends the lines of the modes.
fn append_modes(names: &[&[u8]], into: &mut Vec<u8>) -> Result<(), NoMemory>
    ensures { Appends result into.old.items into.new.items
        (flat_map (λ name. with_line_end (mode_line name.now)) names.now) }
{
    for name in names {
        append_line(into, &[b"mode", name])?;
    }
    Ok(())
}

/// Appends the lines of the nodes.
fn append_nodes(nodes: &[JsonNode], into: &mut Vec<u8>) -> Result<(), NoMemory>
    ensures { Appends result into.old.items into.new.items (flat_map (node_text Two) nodes.now) }
{
    for node in nodes {
        append_node(Version::Two, node.name, node.kind, into)?;
    }
    Ok(())
}

/// Appends the lines of the edges.
fn append_edges(edges: &[JsonEdge], into: &mut Vec<u8>) -> Result<(), NoMemory>
    ensures { Appends result into.old.items into.new.items
        (flat_map (λ edge. with_line_end (edge_said_line edge)) edges.now) }
{
    for edge in edges {
        append_edge(edge, into)?;
    }
    Ok(())
}

/// Appends the line of an edge.
fn append_edge(edge: &JsonEdge, into: &mut Vec<u8>) -> Result<(), NoMemory>
    ensures { Appends result into.old.items into.new.items (with_line_end (edge_said_line edge.now)) }
{
    append_edge_start(edge.source, edge.target, edge.tmin, edge.tmax, into)?;
    into.push(b' ')?;
    append_modes_word(edge, into)?;
    into.push(b'\n')?;
    Ok(())
}

/// Appends the word for the modes of an edge: a star for all, a hyphen where none is named.
fn append_modes_word(edge: &JsonEdge, into: &mut Vec<u8>) -> Result<(), NoMemory>
    ensures { Appends result into.old.items into.new.items (modes_said_word edge.now.modes) }
{
    match &edge.modes {
        None => Ok(into.push(b'*')?),
        Some(names) if names.as_slice().is_empty() => Ok(into.push(b'-')?),
        Some(names) => append_joined(names.as_slice(), into),
    }
}

/// Appends the names with commas between.
fn append_joined(names: &[&[u8]], into: &mut Vec<u8>) -> Result<(), NoMemory>
    ensures { Appends result into.old.items into.new.items
        (joined_by_commas (map (λ name. name.now) names.now)) }
{
    for (index, name) in names.iter().enumerate() {
        append_part(into, b',', index == 0, name)?;
    }
    Ok(())
}
