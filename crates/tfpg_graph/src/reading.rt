//! Reads the text of a graph.

ghost use Rattle.std.specs.Prelude.{IfOk, IfErr};
ghost use Rattle.tfpg_graph.specs.Graph.{Tfpg};
ghost use Rattle.tfpg_graph.specs.Text.{Spells};
ghost use Rattle.tfpg_graph.specs.Valid.{IsValid};
ghost use Rattle.tfpg_graph.specs.Faults.{IsFirstFault, IsRefusalOf, IsGraphResult, IsFaultResult};
ghost use Rattle.tfpg_graph.specs.declared.cause.GraphFault.{GraphFault};

mod check_edge;
mod check_mode;
mod check_node;
mod find_line;
mod list_modes;
mod read_numbers;
mod reader;
mod statement;

use crate::cause::GraphRefusal;
use crate::graph::Graph;
use crate::reading::reader::Reader;
use std::alloc::Global;
use tfpg_base::without_last_line_end;

/// Reads the text of a graph, of either [`Version`](crate::Version).
///
/// Returns the graph that the text spells, where it spells a valid one, and else the first fault of the text: the first
/// line that has a cause, with the first of its causes; or, where no line has one, what is wrong with the whole text. In
/// place of either it may run out of memory. Takes time linear in the text, but for look-ups by name, and in a line with a
/// fault the square of the number of modes that it lists. Takes memory for the graph and one line.
pub fn read(alloc: Global, text: &[u8]) -> Result<Graph, GraphRefusal>
    ensures spelled { IfOk result (λ graph. Spells text.now graph) }
    ensures valid { IfOk result IsValid }
    ensures refused { IfErr result (IsRefusalOf text.now) }
    ensures exact { (graph : Tfpg) → Spells text.now graph → IsValid graph → IsGraphResult graph result }
    ensures faulty { (fault : GraphFault) → IsFirstFault text.now fault → IsFaultResult fault result }
{
    let body = without_last_line_end(text);
    let mut reader = Reader::new(alloc);
    let mut line_count: u64 = 0;
    for line in body.split(|byte| *byte == b'\n') {
        line_count += 1;
        reader = match reader.take(alloc, line) {
            Ok(next) => next,
            Err(refusal) => return Err(refusal.at(line_count)),
        };
    }
    reader.end(alloc, body, line_count)
}
