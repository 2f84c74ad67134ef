//! The report of a diagnosis: line by line, each with its block written, and its round told, before the next is taken.

ghost use Rattle.std.specs.Prelude.{◌≡◌, ◌+◌, [], ℕ, IfOk, IfErr, OnOk, Ok, Err};
ghost use Rattle.tfpg_graph.specs.Graph.{Tfpg};
ghost use Rattle.tfpg_graph.specs.Valid.{IsValid};
ghost use Rattle.tfpg_log.specs.LogOfLines.{new_log};
ghost use Rattle.tfpg_engine.specs.EngineState.{EngineRepresents, calls_of_engine};
ghost use Rattle.tfpg_panel.specs.Desk.{seen_by};
ghost use Rattle.tfpg_report.specs.Blocks.{head_text};
ghost use Rattle.tfpg_check.specs.Report.{HasReports};
ghost use Rattle.tfpg_diagnose.specs.Diagnosing.{Diagnoses};
ghost use Rattle.tfpg_diagnose.specs.Work.{IsReportWithin};
ghost use Rattle.tfpg_streams.specs.Outputs.{WorksToEnd};
ghost use Rattle.tfpg_streams.specs.Streams.{streams};
ghost use Rattle.tfpg_diagnose.specs.Watched.{Watched, watched};
ghost use Rattle.tfpg_diagnose.specs.inside.LineBlocks.{IsEngineReady};
ghost use Rattle.tfpg_diagnose.specs.inside.UnderWay.{IsDiagnosing, IsDiagnosingWithin, ComesTo, ComesToWithin, diagnosis_at};

use crate::line_blocks::{line_block, refused_block};
use crate::telling::write_and_tell;
use std::alloc::Global;
use std::sync::ledger::Ledger;
use tfpg_base::{Line, Lines, NoMemory, Sink, Source, Steps, Terms};
use tfpg_check::laws::a_report_goes_on_block_by_block;
use tfpg_engine::Engine;
use tfpg_panel::laws::{a_desk_is_told_round_by_round, the_losses_of_a_round_rise};
use tfpg_panel::{Desk, Panel};
use tfpg_report::{RefusedLine, head};
use tfpg_streams::{StreamFault, write_all};

/// Whether the block of one more line is written, or the input has ended.
#[derive(Clone, Copy)]
pub(crate) enum NextBlock {
    Written,
    Ended,
}

/// Diagnoses the lines of the input by a new engine, writes the report, and tells the desk each round whose text is written.
pub fn write_report<S: Source, K: Sink, P: Panel, L: Ledger>(
    alloc: Global,
    engine: &mut Engine,
    input: &mut S,
    out: &mut K,
    desk: &mut Desk<P>,
    work: &mut Steps<L>,
) -> Result<(), StreamFault>
    requires valid { IsValid engine.old.graph }
    requires unread { engine.old.log ≡ new_log }
    requires new { EngineRepresents engine.old [] }
    requires has_reports { HasReports engine.old.graph engine.old.terms }
    ensures diagnoses { Diagnoses engine.old.graph engine.old.terms
        (watched (S.state input.old) (K.state out.old) (seen_by P.state desk.old))
        (watched (S.state input.new) (K.state out.new) (seen_by P.state desk.new)) result }
    ensures work { OnOk result (WorksToEnd (IsReportWithin engine.old.graph engine.old.terms work.old work.new)
        (streams (S.state input.old) (K.state out.old)) (streams (S.state input.new) (K.state out.new))) }
    // The counter counts what the systems of all searches count, however it ends.
    ensures counted { calls_of_engine engine.new + work.old ≡ calls_of_engine engine.old + work.new }
{
    desk.always_keeps_its_panels();
    a_desk_is_told_round_by_round();
    let mut lines = Lines::new(alloc)?;
    let head = first_line(alloc, engine.terms())?;
    write_all(out, &head)?;
    loop {
        match write_next_block(alloc, engine, &mut lines, input, out, desk, work)? {
            NextBlock::Written => {}
            NextBlock::Ended => return Ok(()),
        }
    }
}

/// The first line of the report.
pub(crate) fn first_line(alloc: Global, terms: Terms) -> Result<Vec<u8>, NoMemory>
    ensures { IfOk result (λ line. line.items ≡ head_text terms) }
{
    let mut line = Vec::new(alloc);
    head(terms.k, terms.doubt, terms.budget, &mut line)?;
    Ok(line)
}

/// Takes the next line, writes its block, and tells the desk its round.
fn write_next_block<S: Source, K: Sink, P: Panel, L: Ledger>(
    alloc: Global,
    engine: &mut Engine,
    lines: &mut Lines,
    input: &mut S,
    out: &mut K,
    desk: &mut Desk<P>,
    work: &mut Steps<L>,
) -> Result<NextBlock, StreamFault>
    requires { IsEngineReady engine.old }
    ensures comes_to { (graph : Tfpg) (terms : Terms) (before : Watched)
        → IsDiagnosing graph terms before
        (diagnosis_at (watched (S.state input.old) (K.state out.old) (seen_by P.state desk.old)) lines.old engine.old)
        → IfOk result (ComesTo graph terms before lines.old.number
        (diagnosis_at (watched (S.state input.new) (K.state out.new) (seen_by P.state desk.new)) lines.new engine.new)) }
    ensures counts { (graph : Tfpg) (terms : Terms) (before : Watched) (start : ℕ)
        → IsDiagnosingWithin graph terms before
        (diagnosis_at (watched (S.state input.old) (K.state out.old)
        (seen_by P.state desk.old)) lines.old engine.old) start work.old
        → IfOk result (ComesToWithin graph terms before
        (diagnosis_at (watched (S.state input.new) (K.state out.new)
        (seen_by P.state desk.new)) lines.new engine.new) start work.new) }
    ensures stopped { (graph : Tfpg) (terms : Terms) (before : Watched)
        → IsDiagnosing graph terms before
        (diagnosis_at (watched (S.state input.old) (K.state out.old) (seen_by P.state desk.old)) lines.old engine.old)
        → IfErr result (λ fault. Diagnoses graph terms before
        (watched (S.state input.new) (K.state out.new) (seen_by P.state desk.new)) (Err fault)) }
    ensures counted { calls_of_engine engine.new + work.old ≡ calls_of_engine engine.old + work.new }
{
    a_report_goes_on_block_by_block();
    a_desk_is_told_round_by_round();
    the_losses_of_a_round_rise();
    desk.always_keeps_its_panels();
    match lines.next(input)? {
        Line::End => Ok(NextBlock::Ended),
        Line::TooLong => {
            let block = refused_block(alloc, lines.number(), RefusedLine::TooLong)?;
            write_and_tell(out, desk, engine.graph(), &block)
        }
        Line::Text => {
            let block = line_block(alloc, engine, lines.number(), lines.text(), work)?;
            write_and_tell(out, desk, engine.graph(), &block)
        }
    }
}
