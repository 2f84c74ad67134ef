//! The command `fleet`: from the name of a graph file, the terms and the names of vehicles to the answers to the lines of the input.

ghost use Rattle.std.specs.Prelude.{◌≡◌, ◌∷◌, [], IfErr, IfOk, OnOk, map};
ghost use Rattle.tfpg_base.specs.Terms.{AreReportTerms};
ghost use Rattle.tfpg_base.specs.Words.{comma_parts};
ghost use Rattle.tfpg_panel.specs.Desk.{DeskState};
ghost use Rattle.tfpg_words.specs.Names.{AreNames};
ghost use Rattle.tfpg_run.specs.Fetch.{Fetched, GivesGraph};
ghost use Rattle.tfpg_run.specs.EndsOf.{end_of_result};
ghost use Rattle.tfpg_run.specs.World.{world};
ghost use Rattle.tfpg_run.specs.Work.{WorksByLines};
ghost use Rattle.tfpg_run.specs.fleet.FleetEnds.{FleetEnds};
ghost use Rattle.tfpg_run.specs.fleet.FleetOutput.{fleet_problem};
ghost use Rattle.tfpg_run.specs.fleet.FleetWork.{IsFleetOutputWithin};
ghost use Rattle.tfpg_run.specs.inside.Faults.{IsFetchFault};

mod answering;
mod counting;
mod opening;
mod stream;
mod watch;

use crate::end::End;
use crate::fault::FetchFault;
use crate::fetching::fetch_graph;
use std::alloc::Global;
use std::sync::ledger::Ledger;
use stream::answer_stream;
use tfpg_base::{Bytes, NoMemory, Shelf, Sink, Source, Steps, Terms, parts_at_commas};
use tfpg_fleet::NameList;
use tfpg_graph::Graph;
use watch::{Vehicles, Watch};

/// What is to be diagnosed: vehicles of these names, which stand with commas between, of the graph of the file of this name, on these
/// terms.
#[derive(Clone, Copy)]
pub(crate) struct FleetSubject<'a> {
    pub(crate) file: &'a str,
    pub(crate) names: &'a str,
    pub(crate) terms: Terms,
}

/// Fetches the graph, diagnoses the vehicles by the lines of the input, and writes the answers and how many vehicles have which failure
/// mode.
pub(crate) fn fleet_file<F: Shelf, S: Source, K: Sink, L: Ledger>(
    alloc: Global,
    subject: &FleetSubject<'_>,
    shelf: &mut F,
    input: &mut S,
    out: &mut K,
    work: &mut Steps<L>,
) -> Result<(), End>
    requires terms { AreReportTerms subject.now.terms }
    requires names { AreNames (comma_parts subject.now.names.now) }
    ensures done { (desk : DeskState) → OnOk result (FleetEnds subject.now.terms subject.now.file.now (comma_parts subject.now.names.now)
        (world (F.state shelf.old) (S.state input.old) (K.state out.old) desk)
        (world (F.state shelf.new) (S.state input.new) (K.state out.new) desk) End.Done) }
    ensures stopped { (desk : DeskState) → IfErr result (FleetEnds subject.now.terms subject.now.file.now (comma_parts subject.now.names.now)
        (world (F.state shelf.old) (S.state input.old) (K.state out.old) desk)
        (world (F.state shelf.new) (S.state input.new) (K.state out.new) desk)) }
    ensures work { (desk : DeskState) → end_of_result (λ end. end) result ≡ End.Done →
        WorksByLines (λ graph. IsFleetOutputWithin (fleet_problem graph subject.now.terms (comma_parts subject.now.names.now))
        work.old work.new) subject.now.file.now (world (F.state shelf.old) (S.state input.old) (K.state out.old) desk)
        (world (F.state shelf.new) (S.state input.new) (K.state out.new) desk) }
{
    let (graph, names) = fetch_graph_and_names(alloc, shelf, subject)?;
    let vehicles = Vehicles {
        graph: &graph,
        names: &names,
        terms: subject.terms,
    };
    let mut watch = Watch::new(alloc, &vehicles)?;
    Ok(answer_stream(alloc, &vehicles, &mut watch, input, out, work)?)
}

/// Fetches the graph of the file, and lists the names of the vehicles.
fn fetch_graph_and_names<F: Shelf>(
    alloc: Global,
    shelf: &mut F,
    subject: &FleetSubject<'_>,
) -> Result<(Graph, NameList), FetchFault>
    ensures graph { IfOk result (λ both. GivesGraph (F.state shelf.old) subject.now.file.now both.0) }
    ensures names { IfOk result (λ both. both.1 ≡ comma_parts subject.now.names.now) }
    ensures fetched { OnOk result (Fetched (subject.now.file.now ∷ []) (F.state shelf.old) (F.state shelf.new)) }
    ensures fault { IfErr result (IsFetchFault subject.now.file.now [] (F.state shelf.old) (F.state shelf.new)) }
{
    let graph = fetch_graph(alloc, shelf, subject.file)?;
    let names = name_list(alloc, subject.names)?;
    Ok((graph, names))
}

/// The list of the names that stand with commas between.
fn name_list(alloc: Global, words: &str) -> Result<NameList, NoMemory>
    ensures { IfOk result (λ names. names ≡ comma_parts words.now) }
{
    let parts = parts_at_commas(alloc, words.as_bytes())?;
    list_of(alloc, parts.as_slice())
}

/// A list of these words.
fn list_of(alloc: Global, words: &[&[u8]]) -> Result<NameList, NoMemory>
    ensures { IfOk result (λ list. list ≡ map (λ word. word.now) words.now) }
{
    let mut list = NameList::new(alloc);
    for word in words {
        list.push(bytes_of(alloc, word)?)?;
    }
    Ok(list)
}

/// A copy of the bytes.
fn bytes_of(alloc: Global, bytes: &[u8]) -> Result<Bytes, NoMemory>
    ensures { IfOk result (λ copy. copy ≡ bytes.now) }
{
    let mut copy = Vec::new(alloc);
    copy.extend_from_slice(bytes)?;
    Ok(Bytes::from_vec(copy))
}
