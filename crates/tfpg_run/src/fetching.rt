//! The graph of a file, and the text of another.

ghost use Rattle.std.specs.Prelude.{◌≡◌, ◌∷◌, [], IfOk, IfErr, OnOk};
ghost use Rattle.tfpg_run.specs.Fetch.{Fetched, HasFile, GivesGraph, GivesGraphAndText};
ghost use Rattle.tfpg_run.specs.inside.Faults.{IsFetchFault, IsFileFault};

use crate::fault::FetchFault;
use std::alloc::Global;
use tfpg_base::{Shelf, ShelfFault};
use tfpg_graph::{Graph, read};

/// Fetches the file of this name, and reads its graph.
pub(crate) fn fetch_graph<F: Shelf>(
    alloc: Global,
    shelf: &mut F,
    name: &str,
) -> Result<Graph, FetchFault>
    ensures graph { IfOk result (GivesGraph (F.state shelf.old) name.now) }
    ensures fetched { OnOk result (Fetched (name.now ∷ []) (F.state shelf.old) (F.state shelf.new)) }
    ensures fault { IfErr result (IsFetchFault name.now [] (F.state shelf.old) (F.state shelf.new)) }
{
    let text = fetch_file(alloc, shelf, name)?;
    Ok(read(alloc, &text)?)
}

/// Fetches the files of these names, both before the first is read, and reads its graph.
pub(crate) fn fetch_graph_and_text<F: Shelf>(
    alloc: Global,
    shelf: &mut F,
    graph_name: &str,
    text_name: &str,
) -> Result<(Graph, Vec<u8>), FetchFault>
    ensures given { IfOk result (λ both. GivesGraphAndText (F.state shelf.old) graph_name.now text_name.now
        both.0 both.1.items) }
    ensures fetched { OnOk result (Fetched (graph_name.now ∷ text_name.now ∷ []) (F.state shelf.old)
        (F.state shelf.new)) }
    ensures fault { IfErr result (IsFetchFault graph_name.now (text_name.now ∷ []) (F.state shelf.old)
        (F.state shelf.new)) }
{
    let graph_text = fetch_file(alloc, shelf, graph_name)?;
    let text = fetch_file(alloc, shelf, text_name)?;
    let graph = read(alloc, &graph_text)?;
    Ok((graph, text))
}

/// Fetches the file of this name.
pub(crate) fn fetch_file<F: Shelf>(
    alloc: Global,
    shelf: &mut F,
    name: &str,
) -> Result<Vec<u8>, ShelfFault>
    ensures file { IfOk result (λ text. HasFile (F.state shelf.old) name.now text.items) }
    ensures fetched { OnOk result (Fetched (name.now ∷ []) (F.state shelf.old) (F.state shelf.new)) }
    ensures fault { IfErr result (IsFileFault (F.state shelf.old) (F.state shelf.new) name.now) }
    ensures same_files { (F.state shelf.new).files ≡ (F.state shelf.old).files }
{
    let mut text = Vec::new(alloc);
    shelf.fetch(alloc, name, &mut text)?;
    Ok(text)
}
