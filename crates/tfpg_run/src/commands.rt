//! The top call: from the words and the bytes of the outside to the bytes of a report, or of a verdict.

ghost use Rattle.std.specs.Prelude.{◌≡◌, ℕ, List, map, string_bytes, OnOk, IfErr, Ok};
ghost use Rattle.tfpg_panel.specs.Desk.{seen_by};
ghost use Rattle.tfpg_words.specs.Meaning.{Meaning, Check, Diagnose, meaning};
ghost use Rattle.tfpg_words.specs.Plans.{meaning_of};
ghost use Rattle.tfpg_run.specs.inside.Plans.{AreWithinLimits, PlansCommand};
ghost use Rattle.tfpg_run.specs.EndsOf.{end_of_result};
ghost use Rattle.tfpg_run.specs.Run.{RunEnds, CommandEnds, LeavesDesk};
ghost use Rattle.tfpg_run.specs.World.{World, world};
ghost use Rattle.tfpg_run.specs.Work.{RunsWithin};

use crate::ask::ask_by_files;
use crate::check::check_by_files;
use crate::convert::convert_file;
use crate::diagnose::{DiagnosisSubject, diagnose_file};
use crate::end::End;
use crate::explain::explain_by_files;
use crate::fleet::{FleetSubject, fleet_file};
use crate::generate::generate_summary;
use crate::predict::predict_by_files;
use crate::simulate::simulate_files;
use std::alloc::Global;
use std::sync::ledger::Ledger;
use tfpg_answers::ForecastRequest;
use tfpg_base::{Shelf, Sink, Source, Steps, Terms};
use tfpg_panel::{Desk, Panel};
use tfpg_words::laws::numbers_are_within_their_limits;
use tfpg_words::{Command, PlanFault, Planned, plan};

/// Does what the words say. To diagnose it reads the graph that they name, then takes the input line by line, writes the block of
/// each line before the next read, and tells the desk its round. To explain it reads the graph and the log that they name, then the map of
/// the input, and then writes the verdict on it. To check it reads the same files, judges the report of the input line by line, and
/// then writes how many rounds it has. To simulate it reads the graph and the script that they name, and writes the log
/// or the map of what happens. To generate it draws a graph and a script, diagnoses the log, and writes what became of
/// the truth. To convert it reads the graph that they name, and writes it in the other form: a graph text as JSON, or JSON as a
/// graph text. To ask it reads the graph and the log that they name, diagnoses the log, and writes which observation would tell most. To
/// diagnose a fleet it reads the graph, then takes the input line by line, writes the answer to each line before the next read, and
/// at the end writes how many vehicles have which failure mode. To predict it reads the graph and the log that they name, diagnoses the
/// log, and writes when at the earliest a node becomes active by each ranked hypothesis. Searches count their calls on `work`.
pub fn run<F: Shelf, S: Source, K: Sink, P: Panel, L: Ledger>(
    alloc: Global,
    words: &[String],
    shelf: &mut F,
    input: &mut S,
    out: &mut K,
    desk: &mut Desk<P>,
    work: &mut Steps<L>,
) -> End
    // Each end has its cause, and what was written by then is right. No file is asked for but those that the words name, in their order.
    ensures ends { RunEnds (meaning (map string_bytes words.now))
        (world (F.state shelf.old) (S.state input.old) (K.state out.old) (seen_by P.state desk.old))
        (world (F.state shelf.new) (S.state input.new) (K.state out.new)
        (seen_by P.state desk.new)) result }

    // A run of `diagnose` or `fleet` that is done made at most as many counted calls as the limits of its rounds allow.
    ensures work { (meant : Meaning) → meaning (map string_bytes words.now) ≡ Ok meant → result ≡ End.Done →
        RunsWithin meant (world (F.state shelf.old) (S.state input.old) (K.state out.old)
        (seen_by P.state desk.old))
        (world (F.state shelf.new) (S.state input.new) (K.state out.new)
        (seen_by P.state desk.new)) work.old work.new }

    // No command but `diagnose` touches the desk.
    ensures desk { LeavesDesk (meaning (map string_bytes words.now)) desk.old desk.new }
{
    numbers_are_within_their_limits();
    match plan_words(alloc, words) {
        Ok(planned) => end_of(perform(alloc, &planned.command, shelf, input, out, desk, work)),
        Err(fault) => End::from(fault),
    }
}

/// The plan of the words, by what their command asks for.
fn plan_words(alloc: Global, words: &[String]) -> Result<Planned, PlanFault>
    ensures { PlansCommand (meaning (map string_bytes words.now)) result }
{
    plan(alloc, words)
}

/// Does what a command asks for.
fn perform<F: Shelf, S: Source, K: Sink, P: Panel, L: Ledger>(
    alloc: Global,
    command: &Command,
    shelf: &mut F,
    input: &mut S,
    out: &mut K,
    desk: &mut Desk<P>,
    work: &mut Steps<L>,
) -> Result<(), End>
    requires { AreWithinLimits (meaning_of command.now) }
    ensures done { OnOk result (CommandEnds (Ok (meaning_of command.now))
        (world (F.state shelf.old) (S.state input.old) (K.state out.old) (seen_by P.state desk.old))
        (world (F.state shelf.new) (S.state input.new) (K.state out.new) (seen_by P.state desk.new)) End.Done) }
    ensures stopped { IfErr result (CommandEnds (Ok (meaning_of command.now))
        (world (F.state shelf.old) (S.state input.old) (K.state out.old) (seen_by P.state desk.old))
        (world (F.state shelf.new) (S.state input.new) (K.state out.new) (seen_by P.state desk.new))) }
    ensures work { end_of_result (λ end. end) result ≡ End.Done → RunsWithin (meaning_of command.now)
        (world (F.state shelf.old) (S.state input.old) (K.state out.old) (seen_by P.state desk.old))
        (world (F.state shelf.new) (S.state input.new) (K.state out.new) (seen_by P.state desk.new)) work.old work.new }
    ensures desk { LeavesDesk (Ok (meaning_of command.now)) desk.old desk.new }
{
    match command {
        Command::Diagnose {
            k,
            doubt,
            budget,
            graph,
        } => {
            let terms = Terms {
                k: *k,
                doubt: *doubt,
                budget: *budget,
            };
            let subject = DiagnosisSubject {
                name: graph.as_str(),
                terms,
            };
            diagnose_file(alloc, &subject, shelf, input, out, desk, work)
        }
        Command::Explain { graph, log } => {
            explain_by_files(alloc, graph.as_str(), log.as_str(), shelf, input, out)
        }
        Command::Check { graph, log } => {
            check_by_files(alloc, graph.as_str(), log.as_str(), shelf, input, out)
        }
        Command::Simulate {
            draw,
            trace,
            graph,
            script,
        } => simulate_files(
            alloc,
            graph.as_str(),
            script.as_str(),
            *draw,
            *trace,
            shelf,
            out,
        ),
        Command::Generate { draw, size } => generate_summary(alloc, *draw, *size, out, work),
        Command::Convert { json, graph } => convert_file(alloc, *json, graph.as_str(), shelf, out),
        Command::Ask {
            k,
            doubt,
            budget,
            graph,
            log,
        } => {
            let terms = Terms {
                k: *k,
                doubt: *doubt,
                budget: *budget,
            };
            ask_by_files(alloc, terms, graph.as_str(), log.as_str(), shelf, out, work)
        }
        Command::Fleet {
            k,
            doubt,
            budget,
            graph,
            names,
        } => {
            let terms = Terms {
                k: *k,
                doubt: *doubt,
                budget: *budget,
            };
            let subject = FleetSubject {
                file: graph.as_str(),
                names: names.as_str(),
                terms,
            };
            fleet_file(alloc, &subject, shelf, input, out, work)
        }
        Command::Predict {
            k,
            doubt,
            budget,
            ahead,
            graph,
            log,
            node,
        } => {
            let asked = ForecastRequest {
                terms: Terms {
                    k: *k,
                    doubt: *doubt,
                    budget: *budget,
                },
                ahead: *ahead,
                node: node.as_str().as_bytes(),
            };
            predict_by_files(
                alloc,
                &asked,
                graph.as_str(),
                log.as_str(),
                shelf,
                out,
                work,
            )
        }
    }
}

/// How a run ends whose work has this result.
fn end_of(work: Result<(), End>) -> End
    ensures { result ≡ end_of_result (λ end. end) work }
{
    match work {
        Ok(()) => End::Done,
        Err(end) => end,
    }
}
