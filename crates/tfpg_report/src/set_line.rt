//! A line that ends with the text of a set.

ghost use Rattle.std.specs.Prelude.{◌≡◌, ◌<◌, ◌++◌, ◌∷◌, [], true, All, flat_map, length, map};
ghost use Rattle.tfpg_base.specs.Append.{Appends};
ghost use Rattle.tfpg_base.specs.TextLine.{separated};
ghost use Rattle.tfpg_graph.specs.Graph.{AreFailures, failure_word};
ghost use Rattle.tfpg_report.specs.SetText.{set_word};
ghost use Rattle.tfpg_graph.specs.Members.{doubt_word};
ghost use Rattle.tfpg_report.specs.inside.Further.{further_words};

use crate::names::failure_word;
use tfpg_base::{Doubts, Hypothesis, NoMemory, Set, append_part};
use tfpg_graph::Graph;

/// Appends the pieces, the text of the hypothesis's set and a line end.
pub fn append_set_line(
    graph: &Graph,
    pieces: &[&[u8]],
    hypothesis: Hypothesis,
    into: &mut Vec<u8>,
) -> Result<(), NoMemory>
    requires members { AreFailures graph.now hypothesis.set }
    requires nodes { All (λ node. node < length graph.now.nodes) hypothesis.doubts }
    ensures { Appends result into.old.items into.new.items (flat_map (λ piece. piece.now) pieces.now
        ++ set_word graph.now hypothesis ++ 10 ∷ []) }
{
    append_pieces(pieces, into)?;
    append_set(graph, hypothesis, into)?;
    into.push(b'\n')?;
    Ok(())
}

/// Appends the pieces one after another.
fn append_pieces(pieces: &[&[u8]], into: &mut Vec<u8>) -> Result<(), NoMemory>
    ensures { Appends result into.old.items into.new.items (flat_map (λ piece. piece.now) pieces.now) }
{
    for piece in pieces {
        into.extend_from_slice(piece)?;
    }
    Ok(())
}

/// Appends the text of a set: a hyphen where there is no member. Else the members, with commas between: the names of the
/// failure modes in the order of their positions, and then the monitors that are not believed, in the order of their nodes,
/// each with a `!` before its node's name. Takes time linear in its text.
pub fn append_set(graph: &Graph, hypothesis: Hypothesis, into: &mut Vec<u8>) -> Result<(), NoMemory>
    requires members { AreFailures graph.now hypothesis.set }
    requires nodes { All (λ node. node < length graph.now.nodes) hypothesis.doubts }
    ensures { Appends result into.old.items into.new.items (set_word graph.now hypothesis) }
{
    if hypothesis.is_empty() {
        into.push(b'-')?;
        return Ok(());
    }
    append_failures(graph, hypothesis.set, into)?;
    append_doubts(graph, hypothesis.doubts, hypothesis.set.is_empty(), into)
}

/// Appends the names of the failure modes with commas between.
fn append_failures(graph: &Graph, set: Set, into: &mut Vec<u8>) -> Result<(), NoMemory>
    requires { AreFailures graph.now set }
    ensures { Appends result into.old.items into.new.items
        (further_words true (map (failure_word graph.now) set)) }
{
    let mut left = set;
    let mut is_first = true;
    while let Some(parts) = left.split_first() {
        append_part(into, b',', is_first, failure_word(graph, parts.0))?;
        is_first = false;
        left = parts.1;
    }
    Ok(())
}

/// Appends the words for the monitors that are not believed, with a comma before each, unless it is the first member.
fn append_doubts(
    graph: &Graph,
    doubts: Doubts,
    is_first: bool,
    into: &mut Vec<u8>,
) -> Result<(), NoMemory>
    requires { All (λ node. node < length graph.now.nodes) doubts }
    ensures { Appends result into.old.items into.new.items
        (further_words is_first (map (doubt_word graph.now) doubts)) }
{
    let mut left = doubts;
    let mut is_next_first = is_first;
    while let Some(parts) = left.split_first() {
        append_doubt(graph, parts.0, is_next_first, into)?;
        is_next_first = false;
        left = parts.1;
    }
    Ok(())
}

/// Appends the word for a monitor that is not believed, with a comma before it, unless it is the first member.
fn append_doubt(
    graph: &Graph,
    node: u32,
    is_first: bool,
    into: &mut Vec<u8>,
) -> Result<(), NoMemory>
    requires { node < length graph.now.nodes }
    ensures { Appends result into.old.items into.new.items
        (separated 44 is_first (doubt_word graph.now node)) }
{
    append_part(into, b',', is_first, b"!")?;
    into.extend_from_slice(graph.name(node))?;
    Ok(())
}
