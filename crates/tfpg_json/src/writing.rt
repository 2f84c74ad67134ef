//! Writes graphs and rounds as JSON.

ghost use Rattle.std.specs.Prelude.{◌≡◌, []};
ghost use Rattle.tfpg_base.specs.Append.{Appends};
ghost use Rattle.tfpg_evidence.specs.RoundOf.{IsRoundOf};
ghost use Rattle.tfpg_graph.specs.Graph.{sizes_of};
ghost use Rattle.tfpg_json.specs.GraphData.{graph_json};
ghost use Rattle.tfpg_json.specs.RoundData.{round_json};

mod from_graph;
mod from_names;
mod from_round;
mod members;

use crate::writing::from_graph::append_graph;
use crate::writing::from_round::append_round;
use json::Writer;
use std::mem;
use tfpg_base::NoMemory;
use tfpg_evidence::Round;
use tfpg_graph::Graph;

/// Appends the graph as one line of JSON, with its line end: an object with the keys `edges`, `modes` and `nodes`, no space in
/// it, and the keys of each object in rising order. The modes of an edge stand by name, in the order of the modes, also where
/// they are all; `max` is null where it is infinite; `lag` stands for monitored nodes alone, and `least` where it is not 0. Where
/// memory runs out, the old bytes may be followed by a part of the line. Takes time and memory linear in the line.
pub fn write_graph(graph: &Graph, into: &mut Vec<u8>) -> Result<(), NoMemory>
    ensures { Appends result into.old.items into.new.items (graph_json graph.now) }
{
    let mut writer = writer_after(into);
    let written = append_graph(graph, &mut writer);
    *into = writer.into_inner();
    written?;
    into.push(b'\n')?;
    Ok(())
}

/// Appends the round as one line of JSON, without a line end: an object with the counts, line, time and number of the round, and
/// the open, the ranked and the rejected hypotheses, each by its set. A set is the list of the names of its failure modes, and
/// then of its monitors that are not believed, each with a `!` before it. No space stands in it, and the keys of each object
/// rise. Where memory runs out, the old bytes may be followed by a part of the line. It costs the length of the line, and a binary
/// search for each ranked hypothesis.
pub fn write_round(graph: &Graph, round: &Round, into: &mut Vec<u8>) -> Result<(), NoMemory>
    requires { IsRoundOf (sizes_of graph.now) round.now }
    ensures { Appends result into.old.items into.new.items (round_json graph.now round.entry.now) }
{
    let alloc = *into.allocator();
    let mut writer = writer_after(into);
    let written = append_round(alloc, graph, round, &mut writer);
    *into = writer.into_inner();
    written
}

/// A writer that writes after these bytes, which it takes.
fn writer_after(into: &mut Vec<u8>) -> Writer
    ensures before { result.before ≡ into.old.items }
    ensures tokens { result.tokens ≡ [] }
{
    let empty = Vec::new(*into.allocator());
    Writer::new(mem::replace(into, empty))
}
