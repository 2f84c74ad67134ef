//! The public calls of `tfpg_diff`: worked systems, and a table of small ones whose latest solutions a script found by
//! trying all times.

ghost use Rattle.std.specs.Prelude.{◌≡◌, ◌<◌, ◌≤◌, length, IfOk};

use std::alloc::Global;
use std::marker::Brand;
use std::process::Abort;
use std::sync::ledger::{Blank, Ledger};
use std::test::Fail;
use tfpg_base::{Constraint, NoMemory, Steps};
use tfpg_diff::{Conflict, System, Why};

/// Two variables, of which the second is at least 4 after the first: that fits only if the second may be 9.
fn second_after_first<L: Ledger>(
    rt: &impl Abort,
    alloc: Global,
    blank: Blank,
    bound: u64,
) -> Result<bool, Fail>
    requires name { blank.name ≡ L.name }
    requires parts { blank.parts ≡ L.parts }
    requires some { 0 < blank.parts }
    requires late { 4 ≤ bound }
{
    let mut work = Steps::<L>::new(blank);
    let mut system = System::new(alloc, 2)?;
    system.reserve(1)?;
    assert!(rt;
        system.raise(0, 5, u64::MAX, &mut work).is_ok(),
        "up to {bound}"
    );
    assert!(rt;
        system.lower(1, bound, 0x1_0000_0000, &mut work).is_ok(),
        "up to {bound}"
    );
    assert_eq!(rt;
        system.solution(),
        [1_000_000_000_001, bound].as_slice(),
        "up to {bound}"
    );
    let constraint = Constraint {
        left: 1,
        right: 2,
        most: -4,
    };
    let pushed = system.push(constraint, 45, &mut work);
    if pushed == Err(Conflict) {
        assert_eq!(rt; system.cycle().len(), 3, "up to {bound}");
        assert!(rt;
            system.cycle().contains(&Why::Given(u64::MAX)),
            "up to {bound}"
        );
        assert!(rt;
            system.cycle().contains(&Why::Given(0x1_0000_0000)),
            "up to {bound}"
        );
        assert!(rt; system.cycle().contains(&Why::Given(45)), "up to {bound}");
        assert_eq!(rt;
            system.solution(),
            [1_000_000_000_001, bound].as_slice(),
            "up to {bound}"
        );
    } else {
        assert_eq!(rt;
            system.solution(),
            [bound - 4, bound].as_slice(),
            "up to {bound}"
        );
    }
    system.pop_to(0);
    assert_eq!(rt;
        system.solution(),
        [1_000_000_000_001, bound].as_slice(),
        "up to {bound}"
    );
    Ok(pushed.is_ok())
}

#[test]
fn a_cycle_of_three_exactly_where_the_second_may_not_be_9(rt: HostRuntime) -> Result<(), Fail> {
    let at_7 = second_after_first::<Brand>(&rt, rt.alloc(), Blank::new(1), 7)?;
    let at_8 = second_after_first::<Brand>(&rt, rt.alloc(), Blank::new(1), 8)?;
    let at_9 = second_after_first::<Brand>(&rt, rt.alloc(), Blank::new(1), 9)?;
    assert_eq!(rt; [at_7, at_8, at_9], [false, false, true]);
    Ok(())
}

/// Two pushes that contradict each other by one millisecond, over values near 10^12.
fn off_by_one<L: Ledger>(alloc: Global, blank: Blank) -> Result<bool, Fail>
    requires name { blank.name ≡ L.name }
    requires parts { blank.parts ≡ L.parts }
    requires some { 0 < blank.parts }
{
    let mut work = Steps::<L>::new(blank);
    let mut system = System::new(alloc, 2)?;
    system.reserve(1)?;
    let before = Constraint {
        left: 1,
        right: 2,
        most: -1,
    };
    let _ = system.push(before, 1, &mut work);
    system.reserve(1)?;
    let not_before = Constraint {
        left: 2,
        right: 1,
        most: 0,
    };
    Ok(system.push(not_before, 2, &mut work).is_ok())
}

#[test]
fn a_contradiction_by_one_near_the_greatest_time(rt: HostRuntime) -> Result<(), Fail> {
    assert!(rt; !off_by_one::<Brand>(rt.alloc(), Blank::new(1))?);
    Ok(())
}

/// A system of two variables, of which the second is at most 9 and at least 4 after the first. It lends the tags of a conflict.
fn first_in_5<L: Ledger>(alloc: Global, work: &mut Steps<L>) -> Result<System, NoMemory>
    ensures { IfOk result (λ system. length system.demands.bounds ≡ 2) }
{
    let mut system = System::new(alloc, 2)?;
    let _ = system.lower(1, 9, 1, work);
    system.reserve(1)?;
    let constraint = Constraint {
        left: 1,
        right: 2,
        most: -4,
    };
    let _ = system.push(constraint, 2, work);
    let _ = system.raise(0, 6, 3, work);
    Ok(system)
}

/// Makes the first variable at most 3, by a pick.
fn push_3<L: Ledger>(system: &mut System, work: &mut Steps<L>) -> Result<(), NoMemory>
    requires { length system.old.demands.bounds ≡ 2 }
{
    system.reserve(1)?;
    let constraint = Constraint {
        left: 1,
        right: 0,
        most: 3,
    };
    let _ = system.push(constraint, 4, work);
    Ok(())
}

/// Of a copy whether it has the solution of its system, whether it lends no tags, whether it goes on by itself and takes that
/// back, and whether the system stays as it was.
fn copied<L: Ledger>(alloc: Global, blank: Blank) -> Result<[bool; 5], NoMemory>
    requires name { blank.name ≡ L.name }
    requires parts { blank.parts ≡ L.parts }
    requires some { 0 < blank.parts }
{
    let mut work = Steps::<L>::new(blank);
    let system = first_in_5(alloc, &mut work)?;
    let mut copy = system.copy()?;
    let has_the_solution = copy.solution() == [5, 9].as_slice();
    let lends_no_tags = copy.cycle().is_empty();
    push_3(&mut copy, &mut work)?;
    let goes_on = copy.solution() == [3, 9].as_slice();
    copy.pop_to(0);
    let takes_back = copy.solution() == [1_000_000_000_001, 9].as_slice();
    let stays = system.cycle().len() == 3 && system.solution() == [5, 9].as_slice();
    Ok([has_the_solution, lends_no_tags, goes_on, takes_back, stays])
}

#[test]
fn a_copy_has_the_solution_and_goes_on_by_itself(rt: HostRuntime) -> Result<(), Fail> {
    let shown = copied::<Brand>(rt.alloc(), Blank::new(1))?;
    assert_eq!(rt; shown, [true, true, true, true, true]);
    Ok(())
}

/// Variables from 0 to 7, lower bounds of some, and picks. The latest solution, or None where the last pick
/// leaves none.
struct Case {
    name: &'static str,
    count: u32,
    floors: &'static [(u32, u64)],
    picks: &'static [(u32, u32, i64)],
    latest: Option<&'static [u64]>,
}

static CASES: [Case; 14] = [
    Case {
        name: "a chain of lower bounds",
        count: 3,
        floors: &[(1, 0), (2, 4)],
        picks: &[(2, 3, -4), (1, 0, -3)],
        latest: None,
    },
    Case {
        name: "a pick around a raised variable",
        count: 4,
        floors: &[(1, 4)],
        picks: &[(1, 0, 2), (0, 1, -4)],
        latest: None,
    },
    Case {
        name: "a cycle of sum 0 and a bound",
        count: 2,
        floors: &[],
        picks: &[(1, 2, 3), (2, 1, -3), (0, 1, 3), (2, 0, -4)],
        latest: None,
    },
    Case {
        name: "a chain to zero",
        count: 3,
        floors: &[],
        picks: &[(3, 2, 1), (0, 1, 1), (1, 2, -3), (3, 0, -1)],
        latest: None,
    },
    Case {
        name: "three in a cycle",
        count: 3,
        floors: &[(0, 4)],
        picks: &[(3, 2, 1), (1, 2, -2), (0, 3, -3)],
        latest: Some(&[5, 7, 7]),
    },
    Case {
        name: "two before one",
        count: 3,
        floors: &[],
        picks: &[(0, 1, -1), (2, 3, -1), (2, 1, 2)],
        latest: Some(&[7, 6, 7]),
    },
    Case {
        name: "four in a cycle",
        count: 4,
        floors: &[(1, 4)],
        picks: &[(4, 1, 3), (1, 3, -3), (3, 4, 1), (0, 1, 2)],
        latest: Some(&[4, 7, 7, 7]),
    },
    Case {
        name: "from a lower bound on",
        count: 2,
        floors: &[(0, 2)],
        picks: &[(2, 1, -2), (1, 0, 3), (0, 2, 2)],
        latest: Some(&[3, 1]),
    },
    Case {
        name: "one after another",
        count: 4,
        floors: &[(0, 1), (1, 3)],
        picks: &[(1, 2, 1), (0, 2, -4), (2, 3, 3), (0, 3, 1), (4, 2, -3)],
        latest: Some(&[7, 7, 7, 4]),
    },
    Case {
        name: "bounds of two",
        count: 4,
        floors: &[(0, 3), (1, 3)],
        picks: &[(4, 2, -1), (1, 2, -1), (1, 3, 1), (0, 1, -4), (0, 2, 2)],
        latest: Some(&[6, 7, 7, 6]),
    },
    Case {
        name: "an upper bound by a pick",
        count: 3,
        floors: &[(1, 2)],
        picks: &[(3, 2, -4), (3, 0, 0), (2, 3, -1)],
        latest: None,
    },
    Case {
        name: "a tighter pick",
        count: 2,
        floors: &[],
        picks: &[(2, 1, 1), (2, 1, -2), (1, 0, -4)],
        latest: None,
    },
    Case {
        name: "two lower bounds",
        count: 3,
        floors: &[(0, 1), (1, 2)],
        picks: &[(0, 1, -4), (3, 1, -3), (1, 2, 3)],
        latest: Some(&[7, 7, 4]),
    },
    Case {
        name: "a chain from a lower bound",
        count: 4,
        floors: &[(0, 4), (3, 1)],
        picks: &[(0, 4, -2), (4, 2, 1), (1, 2, -3)],
        latest: Some(&[4, 7, 7, 7]),
    },
];

/// The latest solution of what the case adds, or None where something conflicts.
fn solved<L: Ledger>(alloc: Global, blank: Blank, case: &Case) -> Result<Option<Vec<u64>>, NoMemory>
    requires name { blank.name ≡ L.name }
    requires parts { blank.parts ≡ L.parts }
    requires some { 0 < blank.parts }
{
    let mut work = Steps::<L>::new(blank);
    let mut system = System::new(alloc, case.count)?;
    for variable in 0..case.count {
        if system.lower(variable, 7, 1, &mut work).is_err() {
            return Ok(None);
        }
    }
    for (variable, least) in case.floors {
        if *variable >= case.count || system.raise(*variable, *least, 2, &mut work).is_err() {
            return Ok(None);
        }
    }
    for (left, right, bound) in case.picks {
        system.reserve(1)?;
        if *left > case.count || *right > case.count {
            return Ok(None);
        }
        let constraint = Constraint {
            left: *left,
            right: *right,
            most: *bound,
        };
        if system.push(constraint, 3, &mut work).is_err() {
            return Ok(None);
        }
    }
    Ok(Some(Vec::from_slice(alloc, system.solution())?))
}

#[test]
fn small_systems_have_the_solutions_that_trying_all_times_gives(
    rt: HostRuntime,
) -> Result<(), Fail> {
    for case in &CASES {
        let found = solved::<Brand>(rt.alloc(), Blank::new(1), case)?;
        assert_eq!(rt; found.is_some(), case.latest.is_some(), "{}", case.name);
        if let (Some(found), Some(latest)) = (&found, case.latest) {
            assert_eq!(rt; found.as_slice(), latest, "{}", case.name);
        }
    }
    Ok(())
}
