//! The command `convert`: from the name of a graph file to the graph in the other form.

ghost use Rattle.std.specs.Prelude.{◌≡◌, ◌∷◌, [], IfOk, IfErr, OnOk, Ok, Err};
ghost use Rattle.tfpg_base.specs.Outside.{SourceState};
ghost use Rattle.tfpg_graph.specs.Valid.{IsValid};
ghost use Rattle.tfpg_panel.specs.Desk.{DeskState};
ghost use Rattle.tfpg_run.specs.Fetch.{Fetched, GivesGraphBy, IsFetchFaultBy};
ghost use Rattle.tfpg_streams.specs.Outputs.{TextEnds};
ghost use Rattle.tfpg_run.specs.World.{world};
ghost use Rattle.tfpg_run.specs.convert.Converting.{ConvertEnds, IsFaultFrom, SpellsFrom, converted_text};
ghost use Rattle.tfpg_run.specs.inside.convert.Refusals.{IsRefusalFrom};

use crate::end::End;
use crate::fault::FetchFault;
use crate::fetching::fetch_file;
use std::alloc::Global;
use tfpg_base::{NoMemory, Shelf, Sink};
use tfpg_graph::{Graph, GraphRefusal, read, write};
use tfpg_json::{read_graph, write_graph};
use tfpg_streams::{OutputFault, write_all};

/// Reads the graph of the file of this name, and writes it as JSON; or, where the file has JSON, reads that, and writes the
/// canonical graph text.
pub(crate) fn convert_file<F: Shelf, K: Sink>(
    alloc: Global,
    json: bool,
    name: &str,
    shelf: &mut F,
    out: &mut K,
) -> Result<(), End>
    ensures done { (input : SourceState) (desk : DeskState) → OnOk result (ConvertEnds json name.now
        (world (F.state shelf.old) input (K.state out.old) desk)
        (world (F.state shelf.new) input (K.state out.new) desk) End.Done) }
    ensures stopped { (input : SourceState) (desk : DeskState) → IfErr result (ConvertEnds json name.now
        (world (F.state shelf.old) input (K.state out.old) desk)
        (world (F.state shelf.new) input (K.state out.new) desk)) }
{
    let graph = fetch_graph_from(alloc, json, shelf, name)?;
    Ok(write_converted(alloc, json, &graph, out)?)
}

/// Fetches the file of this name, and reads its graph, from JSON or from a graph text.
fn fetch_graph_from<F: Shelf>(
    alloc: Global,
    json: bool,
    shelf: &mut F,
    name: &str,
) -> Result<Graph, FetchFault>
    ensures graph { IfOk result (GivesGraphBy (SpellsFrom json) (F.state shelf.old) name.now) }
    ensures fetched { OnOk result (Fetched (name.now ∷ []) (F.state shelf.old) (F.state shelf.new)) }
    ensures fault { IfErr result (IsFetchFaultBy (IsFaultFrom json) name.now [] (F.state shelf.old)
        (F.state shelf.new)) }
{
    let text = fetch_file(alloc, shelf, name)?;
    Ok(read_from(alloc, json, &text)?)
}

/// Reads the graph of a text, from JSON or from a graph text.
fn read_from(alloc: Global, json: bool, text: &[u8]) -> Result<Graph, GraphRefusal>
    ensures spelled { IfOk result (SpellsFrom json text.now) }
    ensures valid { IfOk result IsValid }
    ensures refused { IfErr result (IsRefusalFrom json text.now) }
{
    if json {
        read_graph(alloc, text)
    } else {
        read(alloc, text)
    }
}

/// Writes the graph in the form that it was not read from.
fn write_converted<K: Sink>(
    alloc: Global,
    json: bool,
    graph: &Graph,
    out: &mut K,
) -> Result<(), OutputFault>
    ensures done { OnOk result (TextEnds (λ text. text ≡ converted_text json graph.now)
        (K.state out.old) (K.state out.new) (Ok tt)) }
    ensures stopped { IfErr result (λ fault. TextEnds (λ text. text ≡ converted_text json graph.now)
        (K.state out.old) (K.state out.new) (Err fault)) }
{
    let text = converted_text(alloc, json, graph)?;
    write_all(out, &text)?;
    Ok(())
}

/// The text of the graph in the form that it was not read from.
fn converted_text(alloc: Global, json: bool, graph: &Graph) -> Result<Vec<u8>, NoMemory>
    ensures { IfOk result (λ text. text.items ≡ converted_text json graph.now) }
{
    let mut text = Vec::new(alloc);
    if json {
        write(graph, &mut text)?;
    } else {
        write_graph(graph, &mut text)?;
    }
    Ok(text)
}
