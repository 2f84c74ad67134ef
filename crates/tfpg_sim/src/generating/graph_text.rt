//! The text of a generated graph, and the graph that is read of it.

ghost use Rattle.std.specs.Prelude.{◌≡◌, ◌*◌, ◌≤◌, length, All, IfOk};
ghost use Rattle.std.specs.List.{flat_map};
ghost use Rattle.tfpg_base.specs.declared.limits.TheConstants.{MAX_CASE_SIZE};
ghost use Rattle.tfpg_base.specs.Append.{Appends};
ghost use Rattle.tfpg_graph.specs.Valid.{IsValid};
ghost use Rattle.tfpg_sim.specs.Generated.{drawn_graph, failure_kinds, named_nodes};
ghost use Rattle.tfpg_sim.specs.declared.limits.TheConstants.{FAILURE_COUNT};
ghost use Rattle.tfpg_sim.specs.inside.GraphText.{drawn_modes_word, edge_text_by_number, draft_text, HasDrawnModes};
ghost use Rattle.tfpg_base.specs.TextLine.{text_line};
ghost use Rattle.tfpg_graph.specs.Text.{node_text, version_for};
ghost use Rattle.tfpg_graph.specs.inside.writing.Written.{node_words};
ghost use Rattle.tfpg_graph.specs.declared.version.Version.TheVariants.{One};
ghost use Rattle.tfpg_sim.specs.Generated.{drawn_name};

use crate::generating::draft::Draft;
use crate::generating::drawn_name::drawn_name;
use crate::limits::FAILURE_COUNT;
use std::alloc::Global;
use tfpg_base::NoMemory;
use tfpg_graph::{Edge, Graph, GraphRefusal, Kind, Version, append_edge_start, append_node, read};

/// The graph of the draft, which is valid.
pub(crate) fn drawn_graph(alloc: Global, draft: &Draft) -> Result<Graph, NoMemory>
    requires valid { IsValid (drawn_graph draft.now.kinds.items draft.now.edges.items) }
    requires few { length draft.now.kinds.items ≤ 4 * MAX_CASE_SIZE }
    requires modes { All HasDrawnModes draft.now.edges.items }
    requires version { version_for (drawn_graph draft.now.kinds.items draft.now.edges.items) ≡ One }
    ensures { IfOk result (λ graph. graph ≡ drawn_graph draft.now.kinds.items draft.now.edges.items) }
{
    let text = draft_text(alloc, &draft.kinds, &draft.edges)?;
    match read(alloc, &text) {
        Ok(graph) => Ok(graph),
        Err(GraphRefusal::NoMemory) => Err(NoMemory),
        Err(GraphRefusal::Fault(_)) => unreachable!(),
    }
}

/// The text of the graph of these discrepancies and edges.
fn draft_text(alloc: Global, kinds: &[Kind], edges: &[Edge]) -> Result<Vec<u8>, NoMemory>
    requires { length kinds.now ≤ 4 * MAX_CASE_SIZE }
    ensures { IfOk result (λ text. text.items ≡ draft_text kinds.now edges.now) }
{
    let mut text = Vec::new(alloc);
    text.extend_from_slice(b"tfpg 1\nmode M0\nmode M1\n")?;
    append_failures(alloc, &mut text)?;
    append_discrepancies(alloc, kinds, &mut text)?;
    append_edges_by_number(alloc, edges, &mut text)?;
    text.extend_from_slice(b"end\n")?;
    Ok(text)
}

/// Appends the lines of the failure modes.
fn append_failures(alloc: Global, into: &mut Vec<u8>) -> Result<(), NoMemory>
    ensures { Appends result into.old.items into.new.items
        (flat_map (node_text One) (named_nodes 0 (failure_kinds FAILURE_COUNT))) }
{
    for index in 0..FAILURE_COUNT {
        let rarity = u64::from(index) + 1;
        append_node_by_number(alloc, index, Kind::Failure { rarity }, into)?;
    }
    Ok(())
}

/// Appends the lines of the discrepancies.
fn append_discrepancies(alloc: Global, kinds: &[Kind], into: &mut Vec<u8>) -> Result<(), NoMemory>
    requires { length kinds.now ≤ 4 * MAX_CASE_SIZE }
    ensures { Appends result into.old.items into.new.items
        (flat_map (node_text One) (named_nodes FAILURE_COUNT kinds.now)) }
{
    for index in 0..kinds.len() {
        append_node_by_number(alloc, FAILURE_COUNT + index as u32, kinds[index], into)?;
    }
    Ok(())
}

/// Appends the line of a node of this number and kind.
fn append_node_by_number(
    alloc: Global,
    node: u32,
    kind: Kind,
    into: &mut Vec<u8>,
) -> Result<(), NoMemory>
    ensures { Appends result into.old.items into.new.items (text_line (node_words One (drawn_name node) kind)) }
{
    let name = drawn_name(alloc, node)?;
    append_node(Version::One, &name, kind, into)
}

/// Appends the lines of the edges.
fn append_edges_by_number(alloc: Global, edges: &[Edge], into: &mut Vec<u8>) -> Result<(), NoMemory>
    ensures { Appends result into.old.items into.new.items (flat_map edge_text_by_number edges.now) }
{
    for edge in edges {
        append_edge_by_number(alloc, *edge, into)?;
    }
    Ok(())
}

/// Appends the line of an edge.
fn append_edge_by_number(alloc: Global, edge: Edge, into: &mut Vec<u8>) -> Result<(), NoMemory>
    ensures { Appends result into.old.items into.new.items (edge_text_by_number edge) }
{
    let source = drawn_name(alloc, edge.source)?;
    let target = drawn_name(alloc, edge.target)?;
    append_edge_start(&source, &target, edge.tmin, edge.tmax, into)?;
    into.push(b' ')?;
    into.extend_from_slice(drawn_modes_word(edge.modes))?;
    into.push(b'\n')?;
    Ok(())
}

/// The word for the first mode alone, or for both.
fn drawn_modes_word(modes: u64) -> &'static [u8]
    ensures { result.now ≡ drawn_modes_word modes }
{
    if modes == 1 { b"M0" } else { b"*" }
}
