//! The line of an edge, as it is written.

ghost use Rattle.tfpg_base.specs.Append.{Appends};
ghost use Rattle.tfpg_base.specs.Words.{line_of};
ghost use Rattle.tfpg_graph.specs.Text.{edge_start_words};
ghost use Rattle.tfpg_graph.specs.Valid.{IsValid, IsValidEdge};
ghost use Rattle.tfpg_graph.specs.inside.writing.Written.{edge_text};

use crate::edge::Edge;
use crate::graph::Graph;
use crate::writing::write_modes::append_modes_word;
use itoa::Buffer;
use tfpg_base::{NoMemory, append_words};

/// Appends the line of an edge.
pub(crate) fn append_edge(graph: &Graph, edge: Edge, into: &mut Vec<u8>) -> Result<(), NoMemory>
    requires graph { IsValid graph.now }
    requires edge { IsValidEdge graph.now edge }
    ensures { Appends result into.old.items into.new.items (edge_text graph.now edge) }
{
    let source = graph.name(edge.source);
    let target = graph.name(edge.target);
    append_edge_start(source, target, edge.tmin, edge.tmax, into)?;
    into.push(b' ')?;
    append_modes_word(graph, &edge, into)?;
    into.push(b'\n')?;
    Ok(())
}

/// Appends the words of an edge's line that stand before the word for its modes: the names of source and target, and
/// the delays in milliseconds, of which the greatest may be infinite. No space follows them. Where memory runs out, a
/// part of them may follow the old bytes. Takes time and memory linear in their length.
pub fn append_edge_start(
    source: &[u8],
    target: &[u8],
    tmin: u64,
    tmax: Option<u64>,
    into: &mut Vec<u8>,
) -> Result<(), NoMemory>
    ensures { Appends result into.old.items into.new.items
        (line_of (edge_start_words source.now target.now tmin tmax)) }
{
    let mut tmin_digits = Buffer::new();
    let tmin = tmin_digits.format(tmin).as_bytes();
    match tmax {
        Some(tmax) => {
            let mut tmax_digits = Buffer::new();
            let tmax = tmax_digits.format(tmax).as_bytes();
            append_words(into, &[b"edge", source, target, tmin, tmax])
        }
        None => append_words(into, &[b"edge", source, target, tmin, b"inf"]),
    }
}
