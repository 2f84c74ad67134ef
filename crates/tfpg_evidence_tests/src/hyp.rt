//! The public calls of `tfpg_hyp`.

use crate::given::reach_of_first;
use std::test::Fail;
use tfpg_base::{Doubts, Set};
use tfpg_graph::read;
use tfpg_hyp::{Fraction, Place, before, cost, robust};
use tfpg_log::Log;

/// Three failure modes. The first is shown by two monitors, the second by one that also needs the third.
const THREE: &[u8] =
    b"tfpg 1\nmode N\nfailure F 5\nfailure G 7\nfailure H 0\nor A watch 0\nor E watch 0\n\
    and B watch 0\nedge F A 1 3 *\nedge F E 9 9 *\nedge G B 0 1 *\nedge H B 0 1 *\nend\n";

/// Name, the key that comes first, and the other: cost, alarmed and monitored nodes, number.
const RANKED: [(&str, (u64, u32, u32, u32), (u64, u32, u32, u32)); 8] = [
    ("cheaper, though less robust", (1, 0, 9, 8), (2, 9, 9, 0)),
    ("more robust, by more alarms", (1, 2, 3, 8), (1, 1, 3, 0)),
    ("more robust, by fewer monitors", (1, 1, 2, 8), (1, 1, 3, 0)),
    ("more robust, with fewer alarms", (1, 1, 2, 8), (1, 2, 5, 0)),
    (
        "no alarm at all is least robust",
        (1, 1, 99, 8),
        (1, 0, 1, 0),
    ),
    ("lesser number", (1, 1, 2, 0), (1, 1, 2, 1)),
    (
        "lesser number, fraction not reduced",
        (1, 2, 4, 0),
        (1, 1, 2, 1),
    ),
    (
        "greatest counts",
        (1, u32::MAX, u32::MAX, 8),
        (1, u32::MAX - 1, u32::MAX, 0),
    ),
];

#[test]
fn ranks_by_cost_then_robustness_then_number(rt: HostRuntime) {
    for (name, better, worse) in &RANKED {
        let better = key_of(*better);
        let worse = key_of(*worse);
        assert_eq!(rt; comes_before(&better, &worse), Some(true), "{name}");
        assert_eq!(rt;
            comes_before(&worse, &better),
            Some(false),
            "{name}, the other way round"
        );
        assert_eq!(rt;
            comes_before(&better, &better),
            Some(false),
            "{name}, before itself"
        );
    }
}

/// Whether the one key comes before the other, where both have fractions.
fn comes_before(a: &Place, b: &Place) -> Option<bool> {
    if a.robust.monitored == 0 || b.robust.monitored == 0 {
        return None;
    }
    Some(before(a, b))
}

fn key_of(row: (u64, u32, u32, u32)) -> Place {
    Place {
        cost: row.0,
        robust: Fraction {
            alarmed: row.1,
            monitored: row.2,
        },
        number: row.3,
    }
}

#[test]
fn a_doubt_costs_and_leaves_its_monitor_out(rt: HostRuntime) -> Result<(), Fail> {
    let graph = read(rt.alloc(), THREE)?;
    let mut log = Log::new(rt.alloc());
    log.offer(&graph, b"5 alarm A")?;
    let reach = reach_of_first(&graph)?;
    let doubts = Doubts::empty().with(3);
    assert_eq!(rt; cost(&graph, Set::empty(), doubts), 1000);
    assert_eq!(rt;
        robust(&graph, &log, &reach, Doubts::empty()),
        fraction(1, 2)
    );
    assert_eq!(rt; robust(&graph, &log, &reach, doubts), fraction(0, 1));
    Ok(())
}

/// So many nodes with an alarm, of so many.
fn fraction(alarmed: u32, monitored: u32) -> Fraction {
    Fraction { alarmed, monitored }
}
