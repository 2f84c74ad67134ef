//! The outcomes at a log.

ghost use Rattle.std.specs.Prelude.{◌≡◌, ◌≤◌, ◌<◌, length, IfOk, IfSome, Some, slice_get};
ghost use Rattle.tfpg_log.specs.Explains.{Explains};
ghost use Rattle.tfpg_whatif.specs.inside.Asking.{IsAsking, IsAskedAt, IsLastEvent, IsShown, IsFound, AreAllFound, IsSubject, asked_by, case_asked, outcome_by, trace_found};

use crate::asking::{Asking, LastEvent, Subject};
use crate::at_once::outcome_at_once;
use crate::early::refuted_early;
use crate::outcome::{Outcome, OutcomeList};
use std::alloc::Global;
use std::sync::ledger::Ledger;
use tfpg_base::{NoMemory, Steps, Trace};
use tfpg_evidence::StepList;
use tfpg_log::Log;
use tfpg_search::{Found, Search};

/// How many splits the copy of a search makes at most. What fits needs fewer: of the 66 outcomes of `bench/ask.py` that a copy of one of the
/// ten searches shows to fit, 27 need no split and none more than 295. A copy that finds no trace by then spent its whole budget of
/// 1,000 there, and a new search has to be made all the same.
const MAX_COPY_SPLITS: u64 = 400;

/// The outcomes at the log of the hypotheses that are asked about, in order. The log may be left ignoring some monitors.
pub(crate) fn outcomes_at<L: Ledger>(
    alloc: Global,
    asking: &Asking<'_>,
    last: &LastEvent<'_>,
    log: &mut Log,
    work: &mut Steps<L>,
) -> Result<OutcomeList, NoMemory>
    requires asking { IsAsking asking.now }
    requires log { IsAskedAt asking.now log.old }
    requires last { IsLastEvent asking.now last.now log.old }
    ensures { IfOk result (AreAllFound (asked_by asking.now log.old)) }
{
    let mut outcomes = Vec::new(alloc);
    for number in asking.among.as_slice() {
        let outcome = outcome_of(alloc, asking, last, log, outcomes.len(), *number, work)?;
        outcomes.push(outcome)?;
    }
    Ok(OutcomeList::from_vec(outcomes))
}

/// The outcome at the log of the hypothesis of this number, which is asked about at this index. The log is left ignoring the monitors
/// that it doubts.
fn outcome_of<L: Ledger>(
    alloc: Global,
    asking: &Asking<'_>,
    last: &LastEvent<'_>,
    log: &mut Log,
    index: usize,
    number: u32,
    work: &mut Steps<L>,
) -> Result<Outcome, NoMemory>
    requires number { number < length asking.now.engine.now.table.hypotheses }
    requires at { slice_get asking.now.among.now index ≡ Some number }
    requires budget { 1 ≤ asking.now.budget }
    requires log { IsAskedAt asking.now log.old }
    requires last { IsLastEvent asking.now last.now log.old }
    ensures found { IfOk result (IsFound (asked_by asking.now log.old) number) }
    ensures events { log.new.events ≡ log.old.events }
{
    let table = asking.engine.table();
    let hypothesis = table.hypothesis(number);
    log.ignore(hypothesis.doubts);
    let reach = *table.reach(number);
    let graph = asking.engine.graph();
    match outcome_at_once(alloc, graph, log, &reach, last, index)? {
        Some(outcome) => Ok(outcome),
        None => {
            let subject = Subject {
                graph,
                log,
                hypothesis,
                reach,
                kept: asking.engine.search(number),
                budget: asking.budget,
            };
            find_outcome(alloc, &subject, work)
        }
    }
}

/// The outcome by the log alone: by an alarm that came too early, where the bounds of nodes show one, and else of a search.
fn find_outcome<L: Ledger>(
    alloc: Global,
    subject: &Subject<'_>,
    work: &mut Steps<L>,
) -> Result<Outcome, NoMemory>
    requires { IsSubject subject.now }
    ensures { IfOk result (IsShown (case_asked subject.now) subject.now.hypothesis.set subject.now.budget) }
{
    match refuted_early(alloc, subject)? {
        Some(steps) => Ok(Outcome::Out(steps)),
        None => search(alloc, subject, work),
    }
}

/// The outcome of a search by the log alone: of a copy of the one that is kept, where that continues to a trace, and else of a new one.
fn search<L: Ledger>(
    alloc: Global,
    subject: &Subject<'_>,
    work: &mut Steps<L>,
) -> Result<Outcome, NoMemory>
    requires { IsSubject subject.now }
    ensures { IfOk result (IsShown (case_asked subject.now) subject.now.hypothesis.set subject.now.budget) }
{
    match continued(alloc, subject, work)? {
        Some(trace) => Ok(Outcome::Fits(trace)),
        None => search_anew(alloc, subject, work),
    }
}

/// The trace to which a copy of the search that is kept continues, where there is one.
fn continued<L: Ledger>(
    alloc: Global,
    subject: &Subject<'_>,
    work: &mut Steps<L>,
) -> Result<Option<Trace>, NoMemory>
    requires { IsSubject subject.now }
    ensures { IfOk result (λ found. IfSome found (λ trace.
        Explains subject.now.graph.now subject.now.log.now subject.now.hypothesis.set trace)) }
{
    let Some(search) = subject.kept else {
        return Ok(None);
    };
    let mut copy = search.copy()?;
    // The steps of the rounds before are not at hand, so these alone are no evidence.
    let mut steps = StepList::new(alloc);
    let found = copy.round(
        subject.graph,
        subject.log,
        copy_budget(subject.budget),
        &mut steps,
        work,
    )?;
    Ok(trace_found(found))
}

/// The budget of a copy, where this is that of a new search.
fn copy_budget(budget: u64) -> u64
    requires { 1 ≤ budget }
    ensures some { 1 ≤ result }
    ensures within { result ≤ budget }
{
    budget.min(MAX_COPY_SPLITS)
}

/// The trace that was found, where one was.
fn trace_found(found: Found) -> Option<Trace>
    ensures { result ≡ trace_found found }
{
    match found {
        Found::Shown(trace) => Some(trace),
        Found::Closed => None,
        Found::Spent => None,
    }
}

/// The outcome of a new search by the log alone.
fn search_anew<L: Ledger>(
    alloc: Global,
    subject: &Subject<'_>,
    work: &mut Steps<L>,
) -> Result<Outcome, NoMemory>
    requires { IsSubject subject.now }
    ensures { IfOk result (IsShown (case_asked subject.now) subject.now.hypothesis.set subject.now.budget) }
{
    let set = subject.set();
    let mut search = Search::new(alloc, subject.graph, set, subject.reach)?;
    let mut steps = StepList::new(alloc);
    let found = search.round(subject.graph, subject.log, subject.budget, &mut steps, work)?;
    Ok(outcome(found, steps))
}

/// The outcome of a search that found this with these steps.
fn outcome(found: Found, steps: StepList) -> Outcome
    ensures { result ≡ outcome_by found steps }
{
    match found {
        Found::Shown(trace) => Outcome::Fits(trace),
        Found::Closed => Outcome::Out(steps),
        Found::Spent => Outcome::Unknown(steps),
    }
}
