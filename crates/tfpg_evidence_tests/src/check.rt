//! The public calls of `tfpg_check`: the judge of a report, line by line.

ghost use Rattle.std.specs.Prelude.{◌≡◌, IfOk, None};

use crate::given::ONE;
use std::alloc::Global;
use std::test::Fail;
use tfpg_check::{CheckCause, Judge, JudgeFault};
use tfpg_graph::read;

/// A report of a log of two lines, of which the second is refused.
const REPORT: [&[u8]; 5] = [
    b"report 2 k 1 doubt 0 budget 10",
    b"round 1 1 5",
    b"ranked 0 cost 0 robust 1/1 set -",
    b"counts ranked 1 covered 1 rejected 0 open 0",
    b"refused 2 BadLine",
];

/// What the judge says of the report whose lines these are: how many rounds it has, or the fault.
fn judged(judge: &mut Judge, lines: &[&[u8]]) -> Result<u32, JudgeFault>
    requires running { judge.old.fault ≡ None }
    requires first { judge.old.lines ≡ 0 }
{
    for (index, line) in lines.iter().enumerate() {
        judge.take(index as u64 + 1, *line)?;
    }
    judge.end()
}

/// The judge of a report of that log.
fn judge_of_log(alloc: Global) -> Result<Judge, Fail>
    ensures { IfOk result (λ judge. (judge.fault ≡ None) × (judge.lines ≡ 0)) }
{
    let graph = read(alloc, ONE)?;
    let mut log = Vec::new(alloc);
    log.extend_from_slice(b"5 tick\n6 tock\n")?;
    Ok(Judge::new(alloc, graph, log))
}

#[test]
fn a_report_is_accepted_and_one_cut_short_ends_early(rt: HostRuntime) -> Result<(), Fail> {
    let mut judge = judge_of_log(rt.alloc())?;
    assert!(rt; judged(&mut judge, &REPORT) == Ok(1));
    let early = JudgeFault::NotAccepted {
        line: 5,
        cause: CheckCause::EndsEarly,
    };
    let mut other = judge_of_log(rt.alloc())?;
    assert!(rt; judged(&mut other, &REPORT[..4]) == Err(early));
    Ok(())
}
