//! What a round finds of all hypotheses.

ghost use Rattle.std.specs.Prelude.{◌≡◌, ◌+◌, length, sum_by, IfOk};
ghost use Rattle.tfpg_engine.specs.EngineState.{calls_of_slot};
ghost use Rattle.tfpg_engine.specs.inside.Inquiries.{IsInquiry, inquiry_of};
ghost use Rattle.tfpg_engine.specs.inside.Slots.{AllCanGoOn};
ghost use Rattle.tfpg_engine.specs.inside.NewFindings.{AreNewFindings, IsOfGraph};
ghost use Rattle.tfpg_engine.specs.inside.SlotWork.{AreSlotsWithin};

use crate::finding::new_finding;
use crate::inquiry::LentInquiry;
use crate::listed::Listed;
use crate::slot::Slot;
use std::alloc::Global;
use std::sync::ledger::Ledger;
use tfpg_base::{NoMemory, Steps};
use tfpg_evidence::Finding;
use tfpg_hyp::Table;
use tfpg_log::Log;

/// A finding on each hypothesis of the table, in the order of their numbers, each by the log that ignores its monitors. The log
/// may be left ignoring some. It costs the searches, and for each hypothesis that is not rejected a look at the findings before it, up to
/// the first ranked one with as many failure modes as the hypothesis has members.
pub(crate) fn new_findings<L: Ledger>(
    alloc: Global,
    inquiry: &LentInquiry<'_>,
    log: &mut Log,
    table: &Table,
    slots: &mut [Slot],
    work: &mut Steps<L>,
) -> Result<Vec<Finding>, NoMemory>
    requires inquiry { IsInquiry (inquiry_of inquiry.now log.old) }
    requires table { IsOfGraph inquiry.now.graph.now table.now }
    requires one_each { length slots.old ≡ length table.now.hypotheses }
    requires go_on { AllCanGoOn inquiry.now.graph.now log.old table.now slots.old }
    ensures each { IfOk result (λ findings. (length findings.items ≡ length table.now.hypotheses)
        × AreNewFindings (inquiry_of inquiry.now log.old) table.now slots.old slots.new findings.items) }
    ensures work { IfOk result (λ findings. AreSlotsWithin (inquiry_of inquiry.now log.old) table.now slots.old
        findings.items work.old work.new) }
    ensures counted { sum_by calls_of_slot slots.new + work.old ≡ sum_by calls_of_slot slots.old + work.new }
    ensures one_each { length slots.new ≡ length slots.old }
    ensures events { log.new.events ≡ log.old.events }
{
    let mut findings = Vec::with_capacity(alloc, table.len() as usize)?;
    for number in 0..table.len() {
        let hypothesis = table.hypothesis(number);
        log.ignore(hypothesis.doubts);
        let listed = Listed {
            number,
            hypothesis,
            reach: table.reach(number),
        };
        let slot = &mut slots[number as usize];
        let finding = new_finding(alloc, inquiry, log, &listed, &findings, slot, work)?;
        findings.push(finding)?;
    }
    Ok(findings)
}
