//! Reads a graph from JSON.

ghost use Rattle.std.specs.Prelude.{IfOk, IfErr};
ghost use Rattle.serde_json.specs.View.{view};
ghost use Rattle.tfpg_graph.specs.declared.cause.GraphFault.{GraphFault};
ghost use Rattle.tfpg_graph.specs.Faults.{IsFaultResult, IsGraphResult};
ghost use Rattle.tfpg_graph.specs.Graph.{Tfpg};
ghost use Rattle.tfpg_graph.specs.Valid.{IsValid};
ghost use Rattle.tfpg_json.specs.GraphText.{data_in, stands_for, IsJsonFault, IsJsonRefusalOf, SpellsAsJson};
ghost use Rattle.tfpg_json.specs.inside.ReadAs.{ReadAs, TextAs};

mod fields;
mod json_graph;
mod read_said;
mod write_lines;

use crate::reading::fields::{BAD_NAME, NO_GRAPH};
use crate::reading::read_said::graph_said;
use crate::reading::write_lines::append_graph;
use serde_json::Value;
use std::alloc::Global;
use tfpg_graph::{Graph, GraphRefusal, read};

/// Reads a graph from JSON: an object with the lists `modes`, `nodes` and `edges`.
///
/// The object stands for a graph text of version 2, with a line for each mode, node and edge in their order. The result is what
/// [`read`](tfpg_graph::read) returns for it, with the numbers of its lines. Before that, the fault has the line 0: `BadLine`
/// where the text is not JSON, or has not the shape; else `BadName` where a name of a node, an edge or a mode has not the form of
/// one. In place of each it may run out of memory. Takes time linear in the text, besides that of [`read`](tfpg_graph::read), and
/// memory for the JSON value and the graph text.
pub fn read_graph(alloc: Global, text: &[u8]) -> Result<Graph, GraphRefusal>
    ensures spelled { IfOk result (λ graph. SpellsAsJson text.now graph) }
    ensures valid { IfOk result IsValid }
    ensures refused { IfErr result (IsJsonRefusalOf text.now) }
    ensures exact { (graph : Tfpg) → SpellsAsJson text.now graph → IsValid graph → IsGraphResult graph result }
    ensures faulty { (fault : GraphFault) → IsJsonFault text.now fault → IsFaultResult fault result }
{
    let lines = graph_text(alloc, text)?;
    read(alloc, lines.as_slice())
}

/// The graph text that a text stands for.
fn graph_text(alloc: Global, text: &[u8]) -> Result<Vec<u8>, GraphRefusal>
    ensures { TextAs (λ lines. lines.items) (stands_for text.now) result }
{
    let value = value_of(alloc, text)?;
    let said = graph_said(alloc, &value)?;
    if !said.has_names() {
        return Err(BAD_NAME);
    }
    let mut lines = Vec::new(alloc);
    append_graph(&said, &mut lines)?;
    Ok(lines)
}

/// The JSON value that a text is.
fn value_of(alloc: Global, text: &[u8]) -> Result<Value, GraphRefusal>
    ensures { ReadAs view (data_in text.now) result }
{
    match Value::from_slice(alloc, text) {
        Ok(value) => Ok(value),
        Err(error) if error.is_memory() => Err(GraphRefusal::NoMemory),
        Err(_) => Err(NO_GRAPH),
    }
}
