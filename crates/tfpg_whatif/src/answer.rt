//! What a further line would show.

ghost use Rattle.std.specs.Prelude.{◌≡◌, ◌≤◌, ◌<◌, length, All, IfOk, Err};
ghost use Rattle.tfpg_log.specs.Log.{Logbook};
ghost use Rattle.tfpg_log.specs.declared.refusal.Refusal.{Refusal};
ghost use Rattle.tfpg_log.specs.Accepted.{reply_to};
ghost use Rattle.tfpg_search.specs.Enough.{IsEnough};
ghost use Rattle.tfpg_whatif.specs.Outcomes.{Lengthens, AreOutcomesAfter, HasNoneUnknown, asked_of, asked_at};
ghost use Rattle.tfpg_whatif.specs.Foresight.{ForeseeRounds, SayWhichKeep};
ghost use Rattle.tfpg_whatif.specs.inside.Asking.{IsAsking, IsAnswer, asked_of_lent};

use crate::ask_fault::AskFault;
use crate::asking::{Asking, LastEvent, is_well_asked};
use crate::laws::outcomes_foresee_rounds;
use crate::outcome::OutcomeList;
use crate::outcomes::outcomes_at;
use std::alloc::Global;
use std::sync::ledger::Ledger;
use tfpg_base::{NumberList, Steps};
use tfpg_engine::Engine;
use tfpg_log::Offered;

/// What the line would show of the hypotheses of these numbers: one outcome for each, in order. The steps of one that is out or
/// unknown have at most `budget` splits. The engine does not change. It costs a copy of the log, and for each hypothesis at most a try
/// by lower bounds, a copy of its search in the engine, which continues to that log, and a new search.
///
/// - `outcomes`: each outcome is shown by its evidence at the lengthened log.
/// - `keeps`, `foresee`: what the outcomes say of that log, of later logs and of the rounds to come.
/// - `refused`: the line is refused only as the log would refuse it. Where there are outcomes, the log would accept it.
/// - `enough`: with a budget that is always enough nothing is unknown.
pub fn ask<L: Ledger>(
    alloc: Global,
    engine: &Engine,
    among: &NumberList,
    line: &[u8],
    budget: u64,
    work: &mut Steps<L>,
) -> Result<OutcomeList, AskFault>
    requires among { All (λ number. number < length engine.now.table.hypotheses) among.now }
    requires budget { 1 ≤ budget }
    ensures outcomes { IfOk result (AreOutcomesAfter (asked_of engine.now among.now budget) line.now) }
    ensures keeps { IfOk result (SayWhichKeep (asked_of engine.now among.now budget) line.now) }
    ensures foresee { (lengthened : Logbook) → Lengthens engine.now.graph engine.now.log line.now lengthened →
        IfOk result (ForeseeRounds (asked_at (asked_of engine.now among.now budget) lengthened)) }
    ensures refused { (refusal : Refusal) → result ≡ Err (AskFault.Refused refusal) →
        reply_to engine.now.graph engine.now.log line.now ≡ Offered.Refused refusal }
    ensures enough { (lengthened : Logbook) → Lengthens engine.now.graph engine.now.log line.now lengthened →
        IsEnough engine.now.graph lengthened budget → IfOk result HasNoneUnknown }
{
    outcomes_foresee_rounds();
    let asking = Asking {
        engine,
        among,
        budget,
    };
    answer(alloc, &asking, line, work)
}

/// The outcomes after the line.
fn answer<L: Ledger>(
    alloc: Global,
    asking: &Asking<'_>,
    line: &[u8],
    work: &mut Steps<L>,
) -> Result<OutcomeList, AskFault>
    requires { IsAsking asking.now }
    ensures answer { IfOk result (IsAnswer (asked_of_lent asking.now) line.now) }
    ensures refused { (refusal : Refusal) → result ≡ Err (AskFault.Refused refusal) →
        reply_to asking.now.engine.now.graph asking.now.engine.now.log line.now ≡ Offered.Refused refusal }
{
    let mut log = asking.engine.log().copy()?;
    match log.offer(asking.engine.graph(), line)? {
        Offered::Refused(refusal) => Err(AskFault::Refused(refusal)),
        Offered::Accepted(event) => {
            is_well_asked(asking, &log);
            let last = LastEvent::alone(event);
            Ok(outcomes_at(alloc, asking, &last, &mut log, work)?)
        }
    }
}
