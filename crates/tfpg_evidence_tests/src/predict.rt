//! The public calls of `tfpg_predict`: when a node becomes active at the earliest after worked logs. The checker of `tfpg_kernel`
//! closes the refutations that `forecast` returns, at the log that `probed` returns.

ghost use Rattle.std.specs.Prelude.{◌≡◌, ◌<◌, IsTrue};
ghost use Rattle.tfpg_log.specs.Log.{IsLogOf};
ghost use Rattle.tfpg_predict.specs.LeastTime.{lookahead_of};
ghost use Rattle.tfpg_predict.specs.Probed.{IsProbeable};

use crate::given::{TWO, log_of, set_of};
use std::alloc::Global;
use std::marker::Brand;
use std::sync::ledger::{Blank, Ledger};
use std::test::Fail;
use tfpg_base::{Doubts, MAX_TIME, Steps};
use tfpg_evidence::Step;
use tfpg_graph::{Graph, MAX_EDGES, MAX_NODES, read};
use tfpg_kernel::{Checker, Taken};
use tfpg_log::Log;
use tfpg_predict::{Outlook, ProbedLog, forecast, probed};

/// When a node of the graph `TWO` becomes active at the earliest, in milliseconds, or that it does not: after a log of one line,
/// continued to a time, by the failure mode of this position alone, or by none.
struct Row {
    name: &'static str,
    line: &'static [u8],
    to: u64,
    member: Option<u32>,
    node: u32,
    earliest: Option<u64>,
}

/// F1 leads to B at once, and to A within 10 to 20. F2 leads to A alone. C needs A and B.
const ROWS: [Row; 5] = [
    Row {
        name: "B, 20 before A at the earliest",
        line: b"30 alarm A",
        to: 50,
        member: Some(0),
        node: 3,
        earliest: Some(10),
    },
    Row {
        name: "B is out of reach",
        line: b"30 alarm A",
        to: 50,
        member: Some(1),
        node: 3,
        earliest: None,
    },
    Row {
        name: "C, together with A",
        line: b"30 alarm A",
        to: 50,
        member: Some(0),
        node: 4,
        earliest: Some(30),
    },
    Row {
        name: "C is out of reach, since B is",
        line: b"30 alarm A",
        to: 50,
        member: Some(1),
        node: 4,
        earliest: None,
    },
    Row {
        name: "A without a cause",
        line: b"5 tick",
        to: 25,
        member: None,
        node: 2,
        earliest: None,
    },
];

/// Whether the node takes a probe.
fn takes_probe(graph: &Graph, log: &Log, node: u32, to: u64) -> bool
    requires { IsLogOf graph.now log.now }
    ensures { IsTrue result → IsProbeable (lookahead_of graph.now log.now node to) }
{
    node < graph.node_count()
        && graph.node_count() < MAX_NODES
        && graph.edge_count() < MAX_EDGES
        && log.now() <= to
        && to <= MAX_TIME
}

/// What the checker returns for a step, with room for it.
fn take_step(checker: &mut Checker, graph: &Graph, log: &Log, step: &Step) -> Result<Taken, Fail>
    requires { IsLogOf graph.now log.now }
{
    checker.reserve()?;
    Ok(checker.take(graph, log, step))
}

/// Whether the checker takes each of the steps, and its tree is closed then.
fn closes(checker: &mut Checker, graph: &Graph, log: &Log, steps: &[Step]) -> Result<bool, Fail>
    requires { IsLogOf graph.now log.now }
{
    for step in steps {
        if let Taken::Bad(_) = take_step(checker, graph, log, step)? {
            return Ok(false);
        }
    }
    Ok(checker.is_closed())
}

/// Whether the steps refute the row at the probed log.
fn refutes_at(alloc: Global, probed: &ProbedLog, row: &Row, steps: &[Step]) -> Result<bool, Fail>
    requires { IsLogOf probed.now.graph probed.now.log }
{
    let set = set_of(&probed.graph, row.member).ok_or("no such failure mode")?;
    let mut checker = Checker::new(alloc, probed.graph.reach(set));
    closes(&mut checker, &probed.graph, &probed.log, steps)
}

/// Whether the steps refute that the node became active by the bound.
fn refutes(
    alloc: Global,
    graph: &Graph,
    log: &Log,
    row: &Row,
    bound: u64,
    steps: &[Step],
) -> Result<bool, Fail>
    requires { IsProbeable (lookahead_of graph.now log.now row.now.node row.now.to) }
{
    if bound > row.to {
        return Ok(false);
    }
    let probed = probed(alloc, graph, log, row.node, row.to, bound)?;
    refutes_at(alloc, &probed, row, steps)
}

/// Whether the outlook is as expected, and its steps are a refutation.
fn is_right(
    alloc: Global,
    graph: &Graph,
    log: &Log,
    row: &Row,
    outlook: &Outlook,
) -> Result<bool, Fail>
    requires { IsProbeable (lookahead_of graph.now log.now row.now.node row.now.to) }
{
    match (outlook, row.earliest) {
        (Outlook::Earliest { time, earlier, .. }, Some(expected)) if *time == expected => {
            refutes(
                alloc,
                graph,
                log,
                row,
                expected.saturating_sub(1),
                earlier.as_slice(),
            )
        }
        (Outlook::Never { steps }, None) => {
            refutes(alloc, graph, log, row, row.to, steps.as_slice())
        }
        _ => Ok(false),
    }
}

/// Whether the forecast after the log is right.
fn forecasts<L: Ledger>(
    alloc: Global,
    graph: &Graph,
    log: &Log,
    row: &Row,
    work: &mut Steps<L>,
) -> Result<bool, Fail>
    requires { IsLogOf graph.now log.now }
{
    if !takes_probe(graph, log, row.node, row.to) {
        return Ok(false);
    }
    let set = set_of(graph, row.member).ok_or("no such failure mode")?;
    let doubts = Doubts::empty();
    let outlook = forecast(
        alloc, graph, log, set, doubts, row.node, row.to, 1_000, work,
    )?;
    is_right(alloc, graph, log, row, &outlook)
}

/// Whether the forecast after the line of the row is right.
fn is_forecast<L: Ledger>(
    alloc: Global,
    graph: &Graph,
    row: &Row,
    work: &mut Steps<L>,
) -> Result<bool, Fail> {
    let log = log_of(alloc, graph, &[row.line])?;
    forecasts(alloc, graph, &log, row, work)
}

/// The first row whose forecast is not right.
fn first_wrong<L: Ledger>(
    alloc: Global,
    blank: Blank,
    rows: &[Row],
) -> Result<Option<&'static str>, Fail>
    requires name { blank.name ≡ L.name }
    requires parts { blank.parts ≡ L.parts }
    requires some { 0 < blank.parts }
{
    let mut work = Steps::<L>::new(blank);
    for row in rows {
        let graph = read(alloc, TWO)?;
        if !is_forecast(alloc, &graph, row, &mut work)? {
            return Ok(Some(row.name));
        }
    }
    Ok(None)
}

#[test]
fn the_checker_closes_what_a_forecast_refutes(rt: HostRuntime) -> Result<(), Fail> {
    let wrong = first_wrong::<Brand>(rt.alloc(), Blank::new(1), &ROWS)?;
    assert_eq!(rt; wrong, None);
    Ok(())
}
