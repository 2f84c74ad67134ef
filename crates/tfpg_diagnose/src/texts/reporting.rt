//! The report of a log, where graph and log are texts.

ghost use Rattle.std.specs.Prelude.{◌≡◌, ◌⊎◌, ◌≢◌, ◌<◌, ◌≤◌, [], Err, IfErr, IfOk, IsOkUnless, OnOk, length};
ghost use Rattle.tfpg_base.specs.Lines.{lines_of};
ghost use Rattle.tfpg_graph.specs.Valid.{IsValid};
ghost use Rattle.tfpg_log.specs.LogOfLines.{new_log};
ghost use Rattle.tfpg_engine.specs.EngineState.{EngineRepresents};
ghost use Rattle.tfpg_panel.specs.Desk.{new_desk, seen_by};
ghost use Rattle.tfpg_check.specs.Report.{HasReports};
ghost use Rattle.tfpg_base.specs.declared.limits.TheConstants.{MAX_BYTES};
ghost use Rattle.tfpg_diagnose.specs.declared.texts.fault.ReportFault.{ReportFault as WhyNoReport};
ghost use Rattle.tfpg_diagnose.specs.inside.texts.Faults.{IsWritingFault, report_fault_of_stream};
ghost use Rattle.tfpg_diagnose.specs.texts.Reports.{CanReport, IsPlainReport, IsReportFault, IsReportOfTexts};

use super::fault::ReportFault;
use super::opening::open_engine;
use crate::report::write_report;
use std::alloc::Global;
use std::marker::Brand;
use std::sync::ledger::{Blank, Ledger};
use tfpg_base::{MemorySink, NoMemory, SteadySource, Steps, Terms};
use tfpg_engine::Engine;
use tfpg_graph::laws::a_text_has_at_most_one_first_fault;
use tfpg_hyp::laws::the_table_is_one;
use tfpg_panel::{Desk, MemoryPanel, Panel};
use tfpg_streams::StreamFault;

/// The report of the lines of the log, for the graph that the text spells, on these terms.
///
/// Takes memory for the report, besides what a diagnosis takes.
pub fn diagnose_texts(
    alloc: Global,
    graph_text: &[u8],
    log_text: &[u8],
    terms: Terms,
) -> Result<Vec<u8>, ReportFault>
    ensures report { IfOk result (λ report. IsReportOfTexts graph_text.now terms log_text.now report.items) }
    ensures fault { IfErr result (IsReportFault graph_text.now terms log_text.now) }
    // Where the texts and the terms are right, there is a report, or memory ran out.
    ensures completes { CanReport graph_text.now terms log_text.now → IsOkUnless result ReportFault.NoMemory }
    // Where a fault stands in the way, it is the fault, or memory ran out.
    ensures refuses { (fault : WhyNoReport) → fault ≢ ReportFault.NoMemory → IsReportFault graph_text.now terms log_text.now fault →
        (result ≡ Err fault) ⊎ (result ≡ Err ReportFault.NoMemory) }
{
    a_text_has_at_most_one_first_fault();
    the_table_is_one();
    report_of_texts(alloc, graph_text, log_text, terms)
}

/// The same, with what its result says alone.
fn report_of_texts(
    alloc: Global,
    graph_text: &[u8],
    log_text: &[u8],
    terms: Terms,
) -> Result<Vec<u8>, ReportFault>
    ensures report { IfOk result (λ report. IsReportOfTexts graph_text.now terms log_text.now report.items) }
    ensures can { OnOk result (CanReport graph_text.now terms log_text.now) }
    ensures fault { IfErr result (IsReportFault graph_text.now terms log_text.now) }
{
    let mut engine = open_engine(alloc, graph_text, terms)?;
    report_by(alloc, &mut engine, log_text)
}

/// The report of the lines of the log by a new engine.
fn report_by(alloc: Global, engine: &mut Engine, log_text: &[u8]) -> Result<Vec<u8>, ReportFault>
    requires valid { IsValid engine.old.graph }
    requires unread { engine.old.log ≡ new_log }
    requires new { EngineRepresents engine.old [] }
    requires has_reports { HasReports engine.old.graph engine.old.terms }
    ensures report { IfOk result (λ report. IsPlainReport engine.old.graph engine.old.terms (lines_of log_text.now) report.items) }
    ensures few { OnOk result (length log_text.now ≤ MAX_BYTES) }
    ensures fault { IfErr result (IsWritingFault log_text.now) }
{
    report_counted::<Brand>(alloc, engine, log_text, Blank::new(1))
}

/// The same with a new counter of steps, which costs nothing.
fn report_counted<L: Ledger>(
    alloc: Global,
    engine: &mut Engine,
    log_text: &[u8],
    blank: Blank,
) -> Result<Vec<u8>, ReportFault>
    requires name { blank.name ≡ L.name }
    requires parts { blank.parts ≡ L.parts }
    requires some { 0 < blank.parts }
    requires valid { IsValid engine.old.graph }
    requires unread { engine.old.log ≡ new_log }
    requires new { EngineRepresents engine.old [] }
    requires has_reports { HasReports engine.old.graph engine.old.terms }
    ensures report { IfOk result (λ report. IsPlainReport engine.old.graph engine.old.terms (lines_of log_text.now) report.items) }
    ensures few { OnOk result (length log_text.now ≤ MAX_BYTES) }
    ensures fault { IfErr result (IsWritingFault log_text.now) }
{
    let mut work = Steps::<L>::new(blank);
    let mut out = MemorySink::new(alloc, usize::MAX, &[]);
    let mut desk = empty_desk(alloc)?;
    write_to_memory(alloc, engine, log_text, &mut out, &mut desk, &mut work)?;
    Ok(out.into_bytes())
}

/// A desk with no panel.
fn empty_desk(alloc: Global) -> Result<Desk<MemoryPanel>, NoMemory>
    ensures { IfOk result (λ desk. seen_by ⟦<MemoryPanel as Panel>⟧.state desk ≡ new_desk []) }
{
    Desk::of(alloc, Vec::new(alloc))
}

/// Writes the report of the lines of the log by a new engine to an empty sink, and tells no panel.
fn write_to_memory<L: Ledger>(
    alloc: Global,
    engine: &mut Engine,
    log_text: &[u8],
    out: &mut MemorySink<'_>,
    desk: &mut Desk<MemoryPanel>,
    work: &mut Steps<L>,
) -> Result<(), ReportFault>
    requires valid { IsValid engine.old.graph }
    requires unread { engine.old.log ≡ new_log }
    requires new { EngineRepresents engine.old [] }
    requires has_reports { HasReports engine.old.graph engine.old.terms }
    requires empty { out.old.holds ≡ [] }
    requires no_panel { seen_by ⟦<MemoryPanel as Panel>⟧.state desk.old ≡ new_desk [] }
    ensures done { OnOk result (IsPlainReport engine.old.graph engine.old.terms (lines_of log_text.now) out.new.holds) }
    ensures few { OnOk result (length log_text.now ≤ MAX_BYTES) }
    ensures fault { IfErr result (IsWritingFault log_text.now) }
{
    let mut input = SteadySource::new(log_text);
    match write_report(alloc, engine, &mut input, out, desk, work) {
        Ok(()) => Ok(()),
        Err(fault) => Err(fault_in_memory(fault)),
    }
}

/// Why a report was not written whose input never fails, and whose output fails only where memory runs out.
fn fault_in_memory(fault: StreamFault) -> ReportFault
    requires { fault ≢ StreamFault.ReadFault }
    ensures { result ≡ report_fault_of_stream fault }
{
    match fault {
        StreamFault::ReadFault => unreachable!(),
        StreamFault::TooMuchInput => ReportFault::TooMuchInput,
        StreamFault::WriteFault | StreamFault::NoMemory => ReportFault::NoMemory,
    }
}
