//! What a round finds of one hypothesis.

ghost use Rattle.std.specs.Prelude.{◌≡◌, ◌+◌, ◌<◌, ◌^◌, List, [], length, map, false, IfOk};
ghost use Rattle.tfpg_evidence.specs.declared.finding.Finding.{Finding};
ghost use Rattle.tfpg_evidence.specs.Findings.{hypothesis_of};
ghost use Rattle.tfpg_hyp.specs.Ranking.{cost_of, robustness_of};
ghost use Rattle.tfpg_hyp.specs.Rounds.{HasRankedPart, IsLeastPart};
ghost use Rattle.tfpg_engine.specs.inside.Inquiries.{IsInquiry, IsRowOfGraph, case_of_row, row_of, inquiry_of};
ghost use Rattle.tfpg_engine.specs.inside.Slots.{CanGoOn};
ghost use Rattle.tfpg_engine.specs.inside.NewFindings.{IsNewFinding, PartsStandFirst, status_by};
ghost use Rattle.tfpg_engine.specs.inside.SlotWork.{IsSlotWithin};
ghost use Rattle.tfpg_engine.specs.EngineState.{calls_of_slot, is_rejected_slot};

use crate::covering::covering;
use crate::inquiry::LentInquiry;
use crate::listed::Listed;
use crate::slot::Slot;
use crate::tree_laws::tree_laws;
use std::alloc::Global;
use std::mem;
use std::sync::ledger::Ledger;
use tfpg_base::{NoMemory, Steps};
use tfpg_evidence::{Finding, Status, StepList};
use tfpg_graph::Graph;
use tfpg_hyp::{cost, robust};
use tfpg_log::Log;
use tfpg_search::laws::a_round_has_one_work_limit;
use tfpg_search::{Found, Search};

/// The finding on a hypothesis, after those on the ones before it, by the log that ignores its monitors. A rejected one is
/// passed over. So is one with a ranked proper part. For every other one the search continues.
pub(crate) fn new_finding<L: Ledger>(
    alloc: Global,
    inquiry: &LentInquiry<'_>,
    log: &Log,
    listed: &Listed<'_>,
    findings: &[Finding],
    slot: &mut Slot,
    work: &mut Steps<L>,
) -> Result<Finding, NoMemory>
    requires inquiry { IsInquiry (inquiry_of inquiry.now log.now) }
    requires ignores { log.now.ignored ≡ listed.now.hypothesis.doubts }
    requires row { IsRowOfGraph inquiry.now.graph.now (row_of listed.now) }
    requires few { length findings.now < 2 ^ 32 }
    requires parts_first { PartsStandFirst (map hypothesis_of findings.now) listed.now.hypothesis }
    requires goes_on { CanGoOn (case_of_row (inquiry_of inquiry.now log.now) (row_of listed.now))
        listed.now.hypothesis slot.old }
    ensures found { IfOk result (IsNewFinding (inquiry_of inquiry.now log.now) (row_of listed.now)
        findings.now slot.old slot.new) }
    ensures work { IfOk result (IsSlotWithin (case_of_row (inquiry_of inquiry.now log.now) (row_of listed.now))
        slot.old work.old work.new) }
    ensures counted { calls_of_slot slot.new + work.old ≡ calls_of_slot slot.old + work.new }
{
    tree_laws();
    // The times of a log never fall.
    log.is_always_ordered();
    if slot.is_rejected() {
        return Ok(passed_over(alloc, listed, Status::Rejected));
    }
    match covering(findings, listed.hypothesis) {
        Some(by) => Ok(passed_over(alloc, listed, Status::Covered { by })),
        None => search_on(alloc, inquiry, log, listed, slot, work),
    }
}

/// The finding on a hypothesis that is not searched in this round.
fn passed_over(alloc: Global, listed: &Listed<'_>, status: Status) -> Finding
    ensures { result ≡ record {
      number = listed.now.number;
      set = listed.now.hypothesis.set;
      doubts = listed.now.hypothesis.doubts;
      steps = [];
      status = status;
    } }
{
    finding_on(listed, StepList::new(alloc), status)
}

/// The finding on a hypothesis with these steps and this status.
fn finding_on(listed: &Listed<'_>, steps: StepList, status: Status) -> Finding
    ensures { result ≡ record {
      number = listed.now.number;
      set = listed.now.hypothesis.set;
      doubts = listed.now.hypothesis.doubts;
      steps = steps;
      status = status;
    } }
{
    Finding {
        number: listed.number,
        set: listed.hypothesis.set,
        doubts: listed.hypothesis.doubts,
        steps,
        status,
    }
}

/// The finding on a hypothesis whose search continues. Where it is rejected now, its search gives its memory back.
/// Where memory runs out, the engine ends, and the slot is not searched again.
fn search_on<L: Ledger>(
    alloc: Global,
    inquiry: &LentInquiry<'_>,
    log: &Log,
    listed: &Listed<'_>,
    slot: &mut Slot,
    work: &mut Steps<L>,
) -> Result<Finding, NoMemory>
    requires inquiry { IsInquiry (inquiry_of inquiry.now log.now) }
    requires ignores { log.now.ignored ≡ listed.now.hypothesis.doubts }
    requires row { IsRowOfGraph inquiry.now.graph.now (row_of listed.now) }
    requires not_rejected { is_rejected_slot slot.old ≡ false }
    requires goes_on { CanGoOn (case_of_row (inquiry_of inquiry.now log.now) (row_of listed.now))
        listed.now.hypothesis slot.old }
    ensures found { IfOk result (λ finding. (findings : List Finding) →
        (HasRankedPart findings listed.now.hypothesis → ⊥) →
        IsNewFinding (inquiry_of inquiry.now log.now) (row_of listed.now) findings slot.old slot.new finding) }
    ensures work { IfOk result (IsSlotWithin (case_of_row (inquiry_of inquiry.now log.now) (row_of listed.now))
        slot.old work.old work.new) }
    ensures counted { calls_of_slot slot.new + work.old ≡ calls_of_slot slot.old + work.new }
{
    // The times of a log never fall.
    log.is_always_ordered();
    a_round_has_one_work_limit();
    let mut search = mem::replace(slot, Slot::Untouched).into_search(alloc, inquiry.graph, listed)?;
    let mut steps = StepList::new(alloc);
    let found = match search.round(inquiry.graph, log, inquiry.terms.budget, &mut steps, work) {
        Ok(found) => found,
        Err(NoMemory) => {
            *slot = Slot::Searched(search);
            return Err(NoMemory);
        }
    };
    *slot = Slot::of(search, &found);
    Ok(finding_on(listed, steps, status(inquiry.graph, log, listed, found)))
}

/// The status of a hypothesis by what its search found.
fn status(graph: &Graph, log: &Log, listed: &Listed<'_>, found: Found) -> Status
    requires { IsRowOfGraph graph.now (row_of listed.now) }
    ensures { result ≡ status_by (cost_of graph.now listed.now.hypothesis)
        (robustness_of graph.now log.now listed.now.reach.now listed.now.hypothesis.doubts) found }
{
    match found {
        Found::Shown(trace) => {
            let robust = robust(graph, log, listed.reach, listed.hypothesis.doubts);
            Status::Ranked {
                trace,
                cost: cost(graph, listed.hypothesis.set, listed.hypothesis.doubts),
                alarmed: robust.alarmed,
                monitored: robust.monitored,
            }
        }
        Found::Closed => Status::Rejected,
        Found::Spent => Status::Open,
    }
}
