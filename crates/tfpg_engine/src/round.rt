//! The round of an accepted line.

ghost use Rattle.std.specs.Prelude.{◌≡◌, ◌+◌, [], length, sum_by, IfOk};
ghost use Rattle.tfpg_log.specs.Log.{ignoring};
ghost use Rattle.tfpg_engine.specs.EngineState.{calls_of_slot};
ghost use Rattle.tfpg_engine.specs.inside.Inquiries.{IsInquiry, inquiry_of};
ghost use Rattle.tfpg_engine.specs.inside.Slots.{AllCanGoOn};
ghost use Rattle.tfpg_engine.specs.inside.NewFindings.{IsOfGraph, MakesRound};
ghost use Rattle.tfpg_engine.specs.inside.SlotWork.{AreSlotsWithin};

use crate::counts::counts_of;
use crate::findings::new_findings;
use crate::inquiry::LentInquiry;
use crate::order::order;
use crate::slot::Slot;
use std::alloc::Global;
use std::sync::ledger::Ledger;
use tfpg_base::{Doubts, NoMemory, Steps};
use tfpg_evidence::{Findings, Round};
use tfpg_hyp::Table;
use tfpg_log::Log;

/// The round of the log, whose last event is that of this line. The log ignores no monitor afterwards. Where memory runs out,
/// some slots may have no search that represents steps, and the engine ends.
pub(crate) fn make<L: Ledger>(
    alloc: Global,
    inquiry: &LentInquiry<'_>,
    log: &mut Log,
    table: &Table,
    line: u64,
    slots: &mut [Slot],
    work: &mut Steps<L>,
) -> Result<Round, NoMemory>
    requires inquiry { IsInquiry (inquiry_of inquiry.now log.old) }
    requires table { IsOfGraph inquiry.now.graph.now table.now }
    requires one_each { length slots.old ≡ length table.now.hypotheses }
    requires go_on { AllCanGoOn inquiry.now.graph.now log.old table.now slots.old }
    ensures round { IfOk result (MakesRound (inquiry_of inquiry.now log.old) table.now slots.old slots.new line) }
    ensures work { IfOk result (λ round. AreSlotsWithin (inquiry_of inquiry.now log.old) table.now slots.old
        round.findings work.old work.new) }
    ensures counted { sum_by calls_of_slot slots.new + work.old ≡ sum_by calls_of_slot slots.old + work.new }
    ensures one_each { length slots.new ≡ length slots.old }
    ensures log { log.new ≡ ignoring log.old [] }
{
    let round = by_each(alloc, inquiry, log, table, line, slots, work);
    log.ignore(Doubts::empty());
    round
}

/// The same, where the log may be left ignoring some monitors.
fn by_each<L: Ledger>(
    alloc: Global,
    inquiry: &LentInquiry<'_>,
    log: &mut Log,
    table: &Table,
    line: u64,
    slots: &mut [Slot],
    work: &mut Steps<L>,
) -> Result<Round, NoMemory>
    requires inquiry { IsInquiry (inquiry_of inquiry.now log.old) }
    requires table { IsOfGraph inquiry.now.graph.now table.now }
    requires one_each { length slots.old ≡ length table.now.hypotheses }
    requires go_on { AllCanGoOn inquiry.now.graph.now log.old table.now slots.old }
    ensures round { IfOk result (MakesRound (inquiry_of inquiry.now log.old) table.now slots.old slots.new line) }
    ensures work { IfOk result (λ round. AreSlotsWithin (inquiry_of inquiry.now log.old) table.now slots.old
        round.findings work.old work.new) }
    ensures counted { sum_by calls_of_slot slots.new + work.old ≡ sum_by calls_of_slot slots.old + work.new }
    ensures one_each { length slots.new ≡ length slots.old }
    ensures events { log.new.events ≡ log.old.events }
{
    // So many hypotheses that their numbers fit.
    let _few = table.len();
    let findings = new_findings(alloc, inquiry, log, table, slots, work)?;
    let order = order(alloc, &findings)?;
    let counts = counts_of(&findings);
    Ok(Round {
        number: log.len(),
        line,
        now: log.now(),
        findings: Findings::from_vec(findings),
        order,
        counts,
    })
}
