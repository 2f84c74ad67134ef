//! The question of one node.

ghost use Rattle.std.specs.Prelude.{◌≡◌, ◌≤◌, ◌<◌, ◌^◌, ◌+◌, length, count_by, IfOk};
ghost use Rattle.tfpg_base.specs.Set.{Rises};
ghost use Rattle.tfpg_log.specs.EventLines.{IsNextEvent};
ghost use Rattle.tfpg_log.specs.Log.{now_of, time_of_event, with_event};
ghost use Rattle.tfpg_log.specs.declared.limits.TheConstants.{MAX_EVENTS};
ghost use Rattle.tfpg_whatif.specs.Outcomes.{is_out, is_unknown};
ghost use Rattle.tfpg_whatif.specs.Questions.{IsQuestion, CanBeAsked};
ghost use Rattle.tfpg_whatif.specs.Foresight.{IsKnownIfEnough};
ghost use Rattle.tfpg_whatif.specs.inside.Asking.{IsAsking, AreAllFound, AreKnown, asked_by, asked_of_lent};

use crate::asking::{Asking, LastEvent};
use crate::outcome::{Outcome, OutcomeList};
use crate::outcomes::outcomes_at;
use crate::question::Question;
use std::alloc::Global;
use std::sync::ledger::Ledger;
use tfpg_base::{NoMemory, Steps};
use tfpg_log::Event;

/// The question of a node: a silence and an alarm of it at now. What is known before are outcomes at the log as it is.
pub(crate) fn question_of<L: Ledger>(
    alloc: Global,
    asking: &Asking<'_>,
    before: &[Outcome],
    node: u32,
    work: &mut Steps<L>,
) -> Result<Question, NoMemory>
    requires asking { IsAsking asking.now }
    requires before { AreKnown (asked_of_lent asking.now) before.now }
    requires rising { Rises asking.now.among.now }
    requires node { CanBeAsked asking.now.engine.now.graph asking.now.engine.now.log node }
    requires room { length asking.now.engine.now.log.events < MAX_EVENTS }
    ensures question { IfOk result (IsQuestion (asked_of_lent asking.now)) }
    ensures node { IfOk result (λ question. question.node ≡ node) }
    ensures known { IfOk result (IsKnownIfEnough (asked_of_lent asking.now)) }
{
    let _few = asking.engine.table().len();
    let log = asking.engine.log();
    log.is_always_ordered();
    let time = log.now();
    let silent = outcomes_after(alloc, asking, before, Event::Silent { time, node }, work)?;
    let alarm = outcomes_after(alloc, asking, before, Event::Alarm { time, node }, work)?;
    Ok(question(node, silent.as_slice(), alarm.as_slice()))
}

/// The outcomes after an event at now that may come next.
fn outcomes_after<L: Ledger>(
    alloc: Global,
    asking: &Asking<'_>,
    before: &[Outcome],
    event: Event,
    work: &mut Steps<L>,
) -> Result<OutcomeList, NoMemory>
    requires asking { IsAsking asking.now }
    requires before { AreKnown (asked_of_lent asking.now) before.now }
    requires at_now { time_of_event event ≡ now_of asking.now.engine.now.log }
    requires next { IsNextEvent asking.now.engine.now.graph asking.now.engine.now.log event }
    ensures { IfOk result (AreAllFound (asked_by asking.now (with_event asking.now.engine.now.log event))) }
{
    let mut log = asking.engine.log().copy()?;
    log.add(asking.engine.graph(), event)?;
    let last = LastEvent { event, before };
    outcomes_at(alloc, asking, &last, &mut log, work)
}

/// The question of a node with these outcomes.
fn question(node: u32, silent: &[Outcome], alarm: &[Outcome]) -> Question
    requires silent_few { length silent.now < 2 ^ 31 }
    requires alarm_few { length alarm.now < 2 ^ 31 }
    ensures { result ≡ record {
      node = node;
      silent_out = count_by is_out silent.now;
      alarm_out = count_by is_out alarm.now;
      unknown = count_by is_unknown silent.now + count_by is_unknown alarm.now;
    } }
{
    Question {
        node,
        silent_out: count_out(silent),
        alarm_out: count_out(alarm),
        unknown: count_unknown(silent) + count_unknown(alarm),
    }
}

/// How many are out.
fn count_out(outcomes: &[Outcome]) -> u32
    requires { length outcomes.now < 2 ^ 31 }
    ensures count { result ≡ count_by is_out outcomes.now }
    ensures few { result ≤ length outcomes.now }
{
    let mut count = 0;
    for outcome in outcomes {
        if outcome.is_out() {
            count += 1;
        }
    }
    count
}

/// How many are unknown.
fn count_unknown(outcomes: &[Outcome]) -> u32
    requires { length outcomes.now < 2 ^ 31 }
    ensures count { result ≡ count_by is_unknown outcomes.now }
    ensures few { result ≤ length outcomes.now }
{
    let mut count = 0;
    for outcome in outcomes {
        if outcome.is_unknown() {
            count += 1;
        }
    }
    count
}
