//! The command `diagnose`: from the name of a graph file and the terms to the report of the input.

ghost use Rattle.std.specs.Prelude.{◌≡◌, OnOk, IfErr};
ghost use Rattle.tfpg_base.specs.Terms.{AreReportTerms};
ghost use Rattle.tfpg_panel.specs.Desk.{seen_by};
ghost use Rattle.tfpg_run.specs.World.{world};
ghost use Rattle.tfpg_run.specs.EndsOf.{end_of_result};
ghost use Rattle.tfpg_run.specs.diagnose.Diagnosing.{DiagnoseEnds};
ghost use Rattle.tfpg_run.specs.Work.{WorksByLines};
ghost use Rattle.tfpg_diagnose.specs.Work.{IsReportWithin};

use crate::end::End;
use crate::fetching::fetch_graph;
use std::alloc::Global;
use std::sync::ledger::Ledger;
use tfpg_base::{Shelf, Sink, Source, Steps, Terms};
use tfpg_diagnose::write_report;
use tfpg_engine::Engine;
use tfpg_panel::laws::a_desk_is_told_round_by_round;
use tfpg_panel::{Desk, Panel};

/// What is to be diagnosed: the graph of the file of this name, on these terms.
#[derive(Clone, Copy)]
pub(crate) struct DiagnosisSubject<'a> {
    pub(crate) name: &'a str,
    pub(crate) terms: Terms,
}

/// Fetches the graph, diagnoses the lines of the input, writes the report, and tells the desk each round whose text is written.
pub(crate) fn diagnose_file<F: Shelf, S: Source, K: Sink, P: Panel, L: Ledger>(
    alloc: Global,
    subject: &DiagnosisSubject<'_>,
    shelf: &mut F,
    input: &mut S,
    out: &mut K,
    desk: &mut Desk<P>,
    work: &mut Steps<L>,
) -> Result<(), End>
    requires { AreReportTerms subject.now.terms }
    ensures done { OnOk result (DiagnoseEnds subject.now.terms subject.now.name.now
        (world (F.state shelf.old) (S.state input.old) (K.state out.old) (seen_by P.state desk.old))
        (world (F.state shelf.new) (S.state input.new) (K.state out.new) (seen_by P.state desk.new)) End.Done) }
    ensures stopped { IfErr result (DiagnoseEnds subject.now.terms subject.now.name.now
        (world (F.state shelf.old) (S.state input.old) (K.state out.old) (seen_by P.state desk.old))
        (world (F.state shelf.new) (S.state input.new) (K.state out.new) (seen_by P.state desk.new))) }
    ensures work { end_of_result (λ end. end) result ≡ End.Done →
        WorksByLines (λ graph. IsReportWithin graph subject.now.terms work.old work.new) subject.now.name.now
        (world (F.state shelf.old) (S.state input.old) (K.state out.old) (seen_by P.state desk.old))
        (world (F.state shelf.new) (S.state input.new) (K.state out.new) (seen_by P.state desk.new)) }
{
    desk.always_keeps_its_panels();
    a_desk_is_told_round_by_round();
    let graph = fetch_graph(alloc, shelf, subject.name)?;
    let Terms { k, doubt, budget } = subject.terms;
    let mut engine = Engine::new(alloc, graph, k, doubt, budget)?;
    Ok(write_report(alloc, &mut engine, input, out, desk, work)?)
}
