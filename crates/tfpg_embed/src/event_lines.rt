//! The line of an event that is given by numbers.

ghost use Rattle.std.specs.Prelude.{◌≡◌, IfOk, slice_get, unwrap_or};
ghost use Rattle.tfpg_base.specs.Append.{Appends};
ghost use Rattle.tfpg_graph.specs.Graph.{name_at};
ghost use Rattle.tfpg_embed.specs.EventLines.{line_of_event, no_name};

use crate::kinds::{ALARM, MODE, SILENT, SWEEP, TICK};
use crate::names::{mode_name, node_name};
use itoa::Buffer;
use std::alloc::Global;
use tfpg_base::{NoMemory, append_words};
use tfpg_graph::Graph;

/// The line of an event of this kind at this time in milliseconds, for the node or the mode of this index, without a line end.
pub(crate) fn event_line(
    alloc: Global,
    graph: &Graph,
    time: u64,
    kind: u32,
    index: u32,
) -> Result<Vec<u8>, NoMemory>
    ensures { IfOk result (λ line. line.items ≡ line_of_event graph.now time kind index) }
{
    let mut line = Vec::new(alloc);
    append_event(graph, time, kind, index, &mut line)?;
    Ok(line)
}

/// Appends that line.
fn append_event(
    graph: &Graph,
    time: u64,
    kind: u32,
    index: u32,
    into: &mut Vec<u8>,
) -> Result<(), NoMemory>
    ensures { Appends result into.old.items into.new.items (line_of_event graph.now time kind index) }
{
    let mut digits = Buffer::new();
    let time = digits.format(time).as_bytes();
    if kind == ALARM {
        append_words(into, &[time, b"alarm", node_word(graph, index)])
    } else if kind == SILENT {
        append_words(into, &[time, b"silent", node_word(graph, index)])
    } else if kind == SWEEP {
        append_words(into, &[time, b"sweep"])
    } else if kind == TICK {
        append_words(into, &[time, b"tick"])
    } else if kind == MODE {
        append_words(into, &[time, b"mode", mode_word(graph, index)])
    } else {
        append_words(into, &[time])
    }
}

/// The name of a node, and for a number that is none a word that is no name.
fn node_word(graph: &Graph, node: u32) -> &[u8]
    ensures { result.now ≡ unwrap_or (name_at graph.now node) no_name }
{
    match node_name(graph, node) {
        Some(name) => name,
        None => b"xxxxxxxxxxxxxxxxxxxxxxxxxxxxxxxxx",
    }
}

/// The same for a mode.
fn mode_word(graph: &Graph, mode: u32) -> &[u8]
    ensures { result.now ≡ unwrap_or (slice_get graph.now.modes mode) no_name }
{
    match mode_name(graph, mode) {
        Some(name) => name,
        None => b"xxxxxxxxxxxxxxxxxxxxxxxxxxxxxxxxx",
    }
}
