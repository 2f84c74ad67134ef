//! Judging a report, where graph, log and report are texts.

ghost use Rattle.std.specs.Prelude.{◌≡◌, ◌≢◌, ◌≤◌, ◌⊎◌, Err, IfErr, IfOk, IsOkUnless, OnOk, length};
ghost use Rattle.tfpg_base.specs.Lines.{lines_of};
ghost use Rattle.tfpg_base.specs.declared.limits.TheConstants.{LONGEST_FILE, MAX_BYTES};
ghost use Rattle.tfpg_check.specs.Causes.{AreAcceptedLines};
ghost use Rattle.tfpg_diagnose.specs.JudgedReports.{problem_of};
ghost use Rattle.tfpg_diagnose.specs.declared.texts.fault.CheckTextsFault.{CheckTextsFault as WhyNotAccepted};
ghost use Rattle.tfpg_diagnose.specs.inside.texts.Faults.{check_texts_fault_of_check};
ghost use Rattle.tfpg_diagnose.specs.inside.texts.Judged.{LacksRounds};
ghost use Rattle.tfpg_diagnose.specs.texts.Checks.{AreShort, CanAccept, CanRefuseText, IsAcceptedText, IsCheckTextsFault, checked_texts};

use super::fault::CheckTextsFault;
use crate::fault::CheckFault;
use crate::report_lines::judge_report;
use std::alloc::Global;
use tfpg_base::{LONGEST_FILE, LineFault, SteadySource};
use tfpg_check::laws::lines_have_at_most_one_cause;
use tfpg_graph::laws::a_text_has_at_most_one_first_fault;
use tfpg_graph::{Graph, read};
use tfpg_hyp::laws::the_table_is_one;
use tfpg_report::laws::a_report_line_says_one_thing;

/// Judges the report by the graph that the text spells and the lines of the log, and returns how many rounds it has.
///
/// # Errors
///
/// The line and the cause of the first test of the report that fails, or why it is not judged.
pub fn check_texts(
    alloc: Global,
    graph_text: &[u8],
    log_text: &[u8],
    report_text: &[u8],
) -> Result<u32, CheckTextsFault>
    ensures accepted { IfOk result (IsAcceptedText (checked_texts graph_text.now log_text.now report_text.now)) }
    ensures short { OnOk result (AreShort (checked_texts graph_text.now log_text.now report_text.now)) }
    ensures fault { IfErr result (IsCheckTextsFault (checked_texts graph_text.now log_text.now report_text.now)) }
    // A right report is accepted, whoever wrote it, or memory runs out.
    ensures accepts { CanAccept (checked_texts graph_text.now log_text.now report_text.now) →
        IsOkUnless result CheckTextsFault.NoMemory }
    // A report that has a cause for which it is not accepted is refused for it, or memory runs out. So it is with each other fault.
    ensures refuses { (fault : WhyNotAccepted) →
        CanRefuseText (checked_texts graph_text.now log_text.now report_text.now) fault →
        (result ≡ Err fault) ⊎ (result ≡ Err CheckTextsFault.NoMemory) }
{
    a_text_has_at_most_one_first_fault();
    the_table_is_one();
    lines_have_at_most_one_cause();
    a_report_line_says_one_thing();
    judge_texts(alloc, graph_text, log_text, report_text)
}

/// The same, with what its result says alone.
fn judge_texts(
    alloc: Global,
    graph_text: &[u8],
    log_text: &[u8],
    report_text: &[u8],
) -> Result<u32, CheckTextsFault>
    ensures accepted { IfOk result (IsAcceptedText (checked_texts graph_text.now log_text.now report_text.now)) }
    ensures short { OnOk result (AreShort (checked_texts graph_text.now log_text.now report_text.now)) }
    ensures fault { IfErr result (IsCheckTextsFault (checked_texts graph_text.now log_text.now report_text.now)) }
{
    if log_text.len() > LONGEST_FILE {
        return Err(CheckTextsFault::TooMuchInput);
    }
    let graph = read(alloc, graph_text)?;
    rounds_in(alloc, graph, log_text, report_text)
}

/// Judges the report by the graph and the lines of the log, and returns how many rounds it has.
fn rounds_in(
    alloc: Global,
    graph: Graph,
    log_text: &[u8],
    report_text: &[u8],
) -> Result<u32, CheckTextsFault>
    requires { length log_text.now ≤ LONGEST_FILE }
    ensures accepted { IfOk result (AreAcceptedLines (problem_of graph log_text.now) (lines_of report_text.now)) }
    ensures few { OnOk result (length report_text.now ≤ MAX_BYTES) }
    ensures fault { IfErr result (LacksRounds (problem_of graph log_text.now) report_text.now) }
{
    let mut report = SteadySource::new(report_text);
    match judge_report(alloc, graph, log_text, &mut report) {
        Ok(rounds) => Ok(rounds),
        Err(fault) => Err(fault_in_memory(fault)),
    }
}

/// Why a report is not accepted whose input never fails.
fn fault_in_memory(fault: CheckFault) -> CheckTextsFault
    requires { fault ≢ CheckFault.Lines LineFault.ReadFault }
    ensures { result ≡ check_texts_fault_of_check fault }
{
    match fault {
        CheckFault::NotAccepted { line, cause } => CheckTextsFault::NotAccepted { line, cause },
        CheckFault::TooMany { count } => CheckTextsFault::TooManyHypotheses { count },
        CheckFault::Lines(LineFault::TooMuchInput) => CheckTextsFault::TooMuchInput,
        CheckFault::Lines(LineFault::ReadFault) => unreachable!(),
        CheckFault::NoMemory => CheckTextsFault::NoMemory,
    }
}
