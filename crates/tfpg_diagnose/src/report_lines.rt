//! Judging the report of an input, line by line.

ghost use Rattle.std.specs.Prelude.{◌≡◌, ◌≤◌, IfErr, IfOk, length};
ghost use Rattle.tfpg_base.specs.declared.limits.TheConstants.{LONGEST_FILE};
ghost use Rattle.tfpg_base.specs.Outside.{SourceState};
ghost use Rattle.tfpg_check.specs.Causes.{DiagnosisProblem};
ghost use Rattle.tfpg_diagnose.specs.JudgedReports.{AcceptsReport, LacksReport, problem_of};
ghost use Rattle.tfpg_diagnose.specs.inside.JudgingUnderWay.{CanTakeNext, ChecksOn, IsChecking, IsNewJudge, IsReadingOn, ReadsOn, checking_at};

use crate::fault::CheckFault;
use std::alloc::Global;
use tfpg_base::{Line, Lines, Source};
use tfpg_check::laws::accepted_lines_are_those_of_a_report;
use tfpg_check::{CheckCause, Judge, LogText};
use tfpg_graph::Graph;

/// Whether one more line is right, or the input has ended.
#[derive(Clone, Copy)]
pub(crate) enum NextReportLine {
    Right,
    Ended,
}

/// Judges the report of the input by the graph and the lines of the log, and returns how many rounds it has.
pub fn judge_report<T: LogText, S: Source>(
    alloc: Global,
    graph: Graph,
    log_text: T,
    input: &mut S,
) -> Result<u32, CheckFault>
    requires { length (T.text log_text) ≤ LONGEST_FILE }
    ensures accepted { IfOk result (AcceptsReport (problem_of graph (T.text log_text)) (S.state input.old)
        (S.state input.new)) }
    ensures stopped { IfErr result (LacksReport (problem_of graph (T.text log_text)) (S.state input.old)
        (S.state input.new)) }
{
    graph.is_always_valid();
    let mut judge = Judge::by(alloc, graph, log_text);
    judge_lines(alloc, &mut judge, input)
}

/// Gives the lines of the input to a new judge, and returns how many rounds the report has.
///
/// # Errors
///
/// `NotAccepted` with the line of the first test that fails, or with the one after the last; `TooMany` at the first line.
fn judge_lines<T: LogText, S: Source>(
    alloc: Global,
    judge: &mut Judge<T>,
    input: &mut S,
) -> Result<u32, CheckFault>
    requires { judge.old.lines ≡ 0 }
    ensures accepted { (problem : DiagnosisProblem) → IsNewJudge problem judge.old →
        IfOk result (AcceptsReport problem (S.state input.old) (S.state input.new)) }
    ensures stopped { (problem : DiagnosisProblem) → IsNewJudge problem judge.old →
        IfErr result (LacksReport problem (S.state input.old) (S.state input.new)) }
{
    // A law: what was accepted to the end is a report.
    accepted_lines_are_those_of_a_report();
    let mut lines = Lines::new(alloc)?;
    loop {
        match judge_next_line(judge, &mut lines, input)? {
            NextReportLine::Right => {}
            NextReportLine::Ended => return Ok(judge.end()?),
        }
    }
}

/// Takes the next line, and gives it to the judge.
fn judge_next_line<T: LogText, S: Source>(
    judge: &mut Judge<T>,
    lines: &mut Lines,
    input: &mut S,
) -> Result<NextReportLine, CheckFault>
    requires { CanTakeNext (checking_at (S.state input.old) lines.old judge.old) }
    ensures reads_on { (before : SourceState) →
        IsReadingOn before (checking_at (S.state input.old) lines.old judge.old) →
        IfOk result (ReadsOn before lines.old.number (checking_at (S.state input.new) lines.new judge.new)) }
    ensures checks_on { (problem : DiagnosisProblem) (before : SourceState) →
        IsChecking problem before (checking_at (S.state input.old) lines.old judge.old) →
        IfOk result (ChecksOn problem before (checking_at (S.state input.new) lines.new judge.new)) }
    ensures stopped { (problem : DiagnosisProblem) (before : SourceState) →
        IsChecking problem before (checking_at (S.state input.old) lines.old judge.old) →
        IfErr result (LacksReport problem before (S.state input.new)) }
{
    // A law: lines that were read are such with one more.
    accepted_lines_are_those_of_a_report();
    match lines.next(input)? {
        Line::End => Ok(NextReportLine::Ended),
        Line::TooLong => Err(no_report_line(lines)),
        Line::Text => {
            judge.take(lines.number(), lines.text())?;
            Ok(NextReportLine::Right)
        }
    }
}

/// The line that was returned last is none of a report.
fn no_report_line(lines: &Lines) -> CheckFault
    ensures { result ≡ CheckFault.NotAccepted lines.now.number CheckCause.BadReport }
{
    CheckFault::NotAccepted {
        line: lines.number(),
        cause: CheckCause::BadReport,
    }
}
