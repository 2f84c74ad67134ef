//! The call `ask` of `tfpg_whatif`: what a further line shows of two hypotheses after a worked log, or why it is refused. Also the searches
//! that an engine lends for it.

ghost use Rattle.std.specs.Prelude.{◌≡◌, ◌<◌, ◌≤◌, length, All, IfOk};

use crate::given::{ONE, TWO};
use std::alloc::Global;
use std::marker::Brand;
use std::sync::ledger::{Blank, Ledger};
use std::test::Fail;
use tfpg_base::{NumberList, Steps};
use tfpg_clause::split_count;
use tfpg_engine::{Engine, Told};
use tfpg_graph::read;
use tfpg_log::Refusal;
use tfpg_whatif::{AskFault, Outcome, OutcomeList, ask};

/// An ample budget.
const AMPLE: u64 = 1_000;

/// What a line shows of a hypothesis.
enum Expected {
    Fits,
    Out,
    /// That the budget is spent, on so many splits.
    Unknown(u64),
}

/// What is returned.
enum Answer {
    Outcomes(Expected, Expected),
    Refused(Refusal),
}

/// What is returned for a line after a log of one line, about the hypotheses of two numbers.
struct Row {
    name: &'static str,
    graph: &'static [u8],
    before: &'static [u8],
    first: u32,
    second: u32,
    line: &'static [u8],
    budget: u64,
    result: Answer,
}

/// The hypotheses 0, 1 and 2 of `TWO` are the empty set, F1 and F2. Those of `ONE` are the empty set and F.
///
/// A budget of one split tells the ways to an outcome apart. By hand: of F1, an alarm of C at 30 takes a new search a split on when A
/// arrives at C, one on when B does, and one each on what makes A and B active. A copy of a search that has these splits needs no more
/// at 31. Of F, alarms of A and of E at 2 take a new search a split on A and then one on E, in the order of the nodes. The one on E alone
/// closes: E becomes active 9 after F, so not before 9. That is the one split of the refutation by lower bounds, whichever alarm comes last.
/// With a silence of A at 10 they take two for an alarm of E at 10: one on E, and one on A, which would be due by 4.
const ROWS: [Row; 10] = [
    Row {
        name: "an alarm of C, which F2 does not reach",
        graph: TWO,
        before: b"30 alarm A",
        first: 1,
        second: 2,
        line: b"30 alarm C",
        budget: 1_000,
        result: Answer::Outcomes(Expected::Fits, Expected::Out),
    },
    Row {
        name: "a silence of C, which may come later",
        graph: TWO,
        before: b"30 alarm A",
        first: 1,
        second: 2,
        line: b"30 silent C",
        budget: 1_000,
        result: Answer::Outcomes(Expected::Fits, Expected::Fits),
    },
    Row {
        name: "a line that comes too late",
        graph: TWO,
        before: b"30 alarm A",
        first: 1,
        second: 2,
        line: b"29 tick",
        budget: 1_000,
        result: Answer::Refused(Refusal::TimeBack { last: 30 }),
    },
    Row {
        name: "an alarm of A, which must have come by 4",
        graph: ONE,
        before: b"10 alarm E",
        first: 0,
        second: 1,
        line: b"10 alarm A",
        budget: 1_000,
        result: Answer::Outcomes(Expected::Out, Expected::Out),
    },
    Row {
        name: "an alarm of E, after a silence of A",
        graph: ONE,
        before: b"10 silent A",
        first: 0,
        second: 1,
        line: b"10 alarm E",
        budget: 1_000,
        result: Answer::Outcomes(Expected::Out, Expected::Out),
    },
    Row {
        name: "the same, where one split is not enough",
        graph: ONE,
        before: b"10 silent A",
        first: 0,
        second: 1,
        line: b"10 alarm E",
        budget: 1,
        result: Answer::Outcomes(Expected::Out, Expected::Unknown(1)),
    },
    Row {
        name: "an alarm of C, where a new search spends its split",
        graph: TWO,
        before: b"30 tick",
        first: 1,
        second: 2,
        line: b"30 alarm C",
        budget: 1,
        result: Answer::Outcomes(Expected::Unknown(1), Expected::Out),
    },
    Row {
        name: "a tick after it, where a copy of the search of F1 has the trace",
        graph: TWO,
        before: b"30 alarm C",
        first: 1,
        second: 2,
        line: b"31 tick",
        budget: 1,
        result: Answer::Outcomes(Expected::Fits, Expected::Out),
    },
    Row {
        name: "an alarm of A after one of E that came too early",
        graph: ONE,
        before: b"2 alarm E",
        first: 0,
        second: 1,
        line: b"2 alarm A",
        budget: 1,
        result: Answer::Outcomes(Expected::Out, Expected::Out),
    },
    Row {
        name: "an alarm of E that comes too early",
        graph: ONE,
        before: b"2 alarm A",
        first: 0,
        second: 1,
        line: b"2 alarm E",
        budget: 1,
        result: Answer::Outcomes(Expected::Out, Expected::Out),
    },
];

/// Makes the engine accept the line.
fn accept_line<L: Ledger>(
    engine: &mut Engine,
    line: &[u8],
    work: &mut Steps<L>,
) -> Result<(), Fail> {
    match engine.event(1, line, work)? {
        Told::Round(_) => Ok(()),
        Told::Refused(_) => Err(Fail::from("a line is refused")),
    }
}

/// The list of the numbers of two hypotheses.
fn pair_of(alloc: Global, engine: &Engine, first: u32, second: u32) -> Result<NumberList, Fail>
    ensures { IfOk result (All (λ number. number < length engine.now.table.hypotheses)) }
{
    let count = engine.table().len();
    if first >= count || second >= count {
        return Err(Fail::from("no such hypothesis"));
    }
    let mut among = NumberList::new(alloc);
    among.push(first)?;
    among.push(second)?;
    Ok(among)
}

/// Whether the outcome is as expected.
fn is_outcome(expected: &Expected, outcome: &Outcome) -> bool {
    match (expected, outcome) {
        (Expected::Fits, Outcome::Fits(_)) => true,
        (Expected::Out, Outcome::Out(_)) => true,
        (Expected::Unknown(splits), Outcome::Unknown(steps)) => {
            split_count(steps.as_slice()) == *splits
        }
        _ => false,
    }
}

/// Whether there are two outcomes, which are as expected.
fn are_outcomes(first: &Expected, second: &Expected, outcomes: &[Outcome]) -> bool {
    match outcomes {
        [one, other] => is_outcome(first, one) && is_outcome(second, other),
        _ => false,
    }
}

/// Whether this was returned as expected.
fn is_as_expected(expected: &Answer, returned: &Result<OutcomeList, AskFault>) -> bool {
    match (expected, returned) {
        (Answer::Outcomes(first, second), Ok(outcomes)) => {
            are_outcomes(first, second, outcomes.as_slice())
        }
        (Answer::Refused(refusal), Err(AskFault::Refused(cause))) => refusal == cause,
        _ => false,
    }
}

/// Whether the engine is asked for what is expected.
fn is_answered<L: Ledger>(
    alloc: Global,
    engine: &Engine,
    row: &Row,
    work: &mut Steps<L>,
) -> Result<bool, Fail> {
    if row.budget == 0 {
        return Ok(false);
    }
    let among = pair_of(alloc, engine, row.first, row.second)?;
    let returned = ask(alloc, engine, &among, row.line, row.budget, work);
    Ok(is_as_expected(&row.result, &returned))
}

/// Whether an engine that has accepted the first line returns what is expected for the other.
fn is_right<L: Ledger>(alloc: Global, row: &Row, work: &mut Steps<L>) -> Result<bool, Fail> {
    let graph = read(alloc, row.graph)?;
    let mut engine = Engine::new(alloc, graph, 1, 0, AMPLE)?;
    accept_line(&mut engine, row.before, work)?;
    is_answered(alloc, &engine, row, work)
}

/// The first row for which something else is returned.
fn first_wrong<L: Ledger>(
    alloc: Global,
    blank: Blank,
    rows: &[Row],
) -> Result<Option<&'static str>, Fail>
    requires name { blank.name ≡ L.name }
    requires parts { blank.parts ≡ L.parts }
    requires some { 0 < blank.parts }
{
    let mut work = Steps::<L>::new(blank);
    for row in rows {
        if !is_right(alloc, row, &mut work)? {
            return Ok(Some(row.name));
        }
    }
    Ok(None)
}

#[test]
fn a_line_shows_what_was_worked_out(rt: HostRuntime) -> Result<(), Fail> {
    let wrong = first_wrong::<Brand>(rt.alloc(), Blank::new(1), &ROWS)?;
    assert_eq!(rt; wrong, None);
    Ok(())
}

/// Of which of the hypotheses 0, 1 and 2 the engine lends the search.
fn lent(engine: &Engine) -> [bool; 3] {
    [
        engine.search(0).is_some(),
        engine.search(1).is_some(),
        engine.search(2).is_some(),
    ]
}

/// Of which hypotheses of `TWO` an engine lends the search, before a line and after it.
fn lent_around<L: Ledger>(
    alloc: Global,
    blank: Blank,
    line: &[u8],
) -> Result<([bool; 3], [bool; 3]), Fail>
    requires name { blank.name ≡ L.name }
    requires parts { blank.parts ≡ L.parts }
    requires some { 0 < blank.parts }
{
    let mut work = Steps::<L>::new(blank);
    let graph = read(alloc, TWO)?;
    let mut engine = Engine::new(alloc, graph, 1, 0, AMPLE)?;
    let before = lent(&engine);
    accept_line(&mut engine, line, &mut work)?;
    Ok((before, lent(&engine)))
}

#[test]
fn an_engine_lends_the_search_of_each_hypothesis_that_is_not_rejected(
    rt: HostRuntime,
) -> Result<(), Fail> {
    let (before, after) = lent_around::<Brand>(rt.alloc(), Blank::new(1), b"30 alarm C")?;
    assert_eq!(rt; before, [false, false, false]);
    assert_eq!(rt; after, [false, true, false]);
    Ok(())
}
