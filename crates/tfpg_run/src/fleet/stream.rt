//! The stream: line by line, each with its answer written before the next is taken, and the counts at its end.

ghost use Rattle.std.specs.Prelude.{[], ℕ, IfErr, IfOk, OnOk, Err, Ok};
ghost use Rattle.tfpg_check.specs.Report.{HasReports};
ghost use Rattle.tfpg_streams.specs.Outputs.{WorksToEnd};
ghost use Rattle.tfpg_streams.specs.Streams.{Streams, streams};
ghost use Rattle.tfpg_run.specs.fleet.FleetEnds.{AnswersStream};
ghost use Rattle.tfpg_run.specs.fleet.FleetWork.{IsFleetOutputWithin};
ghost use Rattle.tfpg_run.specs.inside.fleet.UnderWay.{ComesTo, HasAnswered, IsAnswering, IsWatching, WritesAnswer, answering_at, problem_in};

use super::answering::{answer_line, stray_answer};
use super::counting::write_counts;
use super::opening::opening_of;
use super::watch::{Vehicles, Watch};
use std::alloc::Global;
use std::sync::ledger::Ledger;
use tfpg_base::{Failed, Line, Lines, Sink, Source, Steps};
use tfpg_streams::{StreamFault, write_all};

/// Whether the answer to one more line is written, or the input has ended.
#[derive(Clone, Copy)]
pub(super) enum NextAnswer {
    Written,
    Ended,
}

/// Answers the lines of the input by a new fleet, and writes at the end how many vehicles have which failure mode.
pub(super) fn answer_stream<S: Source, K: Sink, L: Ledger>(
    alloc: Global,
    vehicles: &Vehicles<'_>,
    watch: &mut Watch,
    input: &mut S,
    out: &mut K,
    work: &mut Steps<L>,
) -> Result<(), StreamFault>
    requires new { HasAnswered (problem_in vehicles.now) [] [] watch.old }
    requires has_reports { HasReports vehicles.now.graph.now vehicles.now.terms }
    ensures done { OnOk result (AnswersStream (problem_in vehicles.now) (streams (S.state input.old) (K.state out.old))
        (streams (S.state input.new) (K.state out.new)) (Ok tt)) }
    ensures stopped { IfErr result (λ fault. AnswersStream (problem_in vehicles.now) (streams (S.state input.old) (K.state out.old))
        (streams (S.state input.new) (K.state out.new)) (Err fault)) }
    ensures work { OnOk result (WorksToEnd (IsFleetOutputWithin (problem_in vehicles.now) work.old work.new)
        (streams (S.state input.old) (K.state out.old)) (streams (S.state input.new) (K.state out.new))) }
{
    let mut lines = Lines::new(alloc)?;
    let opening = opening_of(alloc, vehicles)?;
    write_all(out, &opening)?;
    loop {
        match write_next_answer(alloc, vehicles, watch, &mut lines, input, out, work)? {
            NextAnswer::Written => {}
            NextAnswer::Ended => {
                return Ok(write_counts(alloc, vehicles.graph, &watch.ranked, out)?);
            }
        }
    }
}

/// Takes the next line, and writes its answer.
fn write_next_answer<S: Source, K: Sink, L: Ledger>(
    alloc: Global,
    vehicles: &Vehicles<'_>,
    watch: &mut Watch,
    lines: &mut Lines,
    input: &mut S,
    out: &mut K,
    work: &mut Steps<L>,
) -> Result<NextAnswer, StreamFault>
    requires { IsWatching (problem_in vehicles.now) watch.old }
    ensures comes_to { (start : ℕ) (before : Streams) → IsAnswering (problem_in vehicles.now) start before
        (answering_at (streams (S.state input.old) (K.state out.old)) lines.old watch.old work.old)
        → IfOk result (ComesTo (problem_in vehicles.now) start before lines.old.number
        (answering_at (streams (S.state input.new) (K.state out.new)) lines.new watch.new work.new)) }
    ensures stopped { (start : ℕ) (before : Streams) → IsAnswering (problem_in vehicles.now) start before
        (answering_at (streams (S.state input.old) (K.state out.old)) lines.old watch.old work.old)
        → IfErr result (λ fault. AnswersStream (problem_in vehicles.now) before
        (streams (S.state input.new) (K.state out.new)) (Err fault)) }
{
    match lines.next(input)? {
        Line::End => Ok(NextAnswer::Ended),
        Line::TooLong => {
            let answer = stray_answer(alloc, lines.number())?;
            write_answer(out, &answer)
        }
        Line::Text => {
            let answer = answer_line(alloc, vehicles, watch, lines.number(), lines.text(), work)?;
            write_answer(out, &answer)
        }
    }
}

/// Writes the answer to a line whole.
fn write_answer<K: Sink>(out: &mut K, answer: &[u8]) -> Result<NextAnswer, StreamFault>
    ensures { WritesAnswer answer.now (K.state out.old) (K.state out.new) result }
{
    write_all(out, answer)?;
    Ok(NextAnswer::Written)
}
