//! The command `check`: from the names of a graph file and a log file to whether the input is the report on the log.

ghost use Rattle.std.specs.Prelude.{◌≡◌, ◌∷◌, [], IfErr, IfOk, OnOk, Ok, Err, codes, decimal};
ghost use Rattle.tfpg_base.specs.TextLine.{text_line};
ghost use Rattle.tfpg_streams.specs.Outputs.{TextEnds};
ghost use Rattle.tfpg_panel.specs.Desk.{DeskState};
ghost use Rattle.tfpg_run.specs.World.{world};
ghost use Rattle.tfpg_run.specs.check.Checking.{CheckEnds};

use crate::end::End;
use crate::fetching::fetch_graph_and_text;
use itoa::Buffer;
use std::alloc::Global;
use tfpg_base::{NoMemory, Shelf, Sink, Source, append_line};
use tfpg_diagnose::judge_report;
use tfpg_streams::{OutputFault, write_all};

/// Judges the report of the input by the graph and the log of the files of these names, and writes how many rounds it has. No line of a
/// report is too long, so one that is says no line of it.
pub(crate) fn check_by_files<F: Shelf, S: Source, K: Sink>(
    alloc: Global,
    graph_name: &str,
    log_name: &str,
    shelf: &mut F,
    input: &mut S,
    out: &mut K,
) -> Result<(), End>
    ensures done { (desk : DeskState) → OnOk result (CheckEnds graph_name.now log_name.now
        (world (F.state shelf.old) (S.state input.old) (K.state out.old) desk)
        (world (F.state shelf.new) (S.state input.new) (K.state out.new) desk) End.Done) }
    ensures stopped { (desk : DeskState) → IfErr result (CheckEnds graph_name.now log_name.now
        (world (F.state shelf.old) (S.state input.old) (K.state out.old) desk)
        (world (F.state shelf.new) (S.state input.new) (K.state out.new) desk)) }
{
    let (graph, log_text) = fetch_graph_and_text(alloc, shelf, graph_name, log_name)?;
    let rounds = judge_report(alloc, graph, log_text, input)?;
    Ok(write_accepted(alloc, rounds, out)?)
}

/// Writes the line for a report that is accepted, with so many rounds.
fn write_accepted<K: Sink>(alloc: Global, rounds: u32, out: &mut K) -> Result<(), OutputFault>
    ensures done { OnOk result (TextEnds (λ text. text ≡ text_line (codes "accepted" ∷ decimal rounds ∷ [])) (K.state out.old) (K.state out.new) (Ok tt)) }
    ensures stopped { IfErr result (λ fault. TextEnds (λ text. text ≡ text_line (codes "accepted" ∷ decimal rounds ∷ []))
        (K.state out.old) (K.state out.new) (Err fault)) }
{
    let line = accepted_line(alloc, rounds)?;
    write_all(out, &line)?;
    Ok(())
}

/// The line for a report that is accepted, with so many rounds.
fn accepted_line(alloc: Global, rounds: u32) -> Result<Vec<u8>, NoMemory>
    ensures { IfOk result (λ line. line.items ≡ text_line (codes "accepted" ∷ decimal rounds ∷ [])) }
{
    let mut digits = Buffer::new();
    let mut line = Vec::new(alloc);
    append_line(&mut line, &[b"accepted", digits.format(rounds).as_bytes()])?;
    Ok(line)
}
