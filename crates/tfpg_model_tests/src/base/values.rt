//! Lists, sets and traces.

use std::test::Fail;
use tfpg_base::*;

#[test]
fn items_come_back_in_order(rt: HostRuntime) -> Result<(), Fail> {
    let mut list = NumberList::new(rt.alloc());
    list.push(7)?;
    list.push(5)?;
    assert_eq!(rt; list.as_slice(), [7, 5].as_slice());
    let list = NumberList::from_vec(list.into_vec());
    assert_eq!(rt; list.as_slice(), [7, 5].as_slice());
    Ok(())
}

#[test]
fn a_set_holds_its_members(rt: HostRuntime) {
    let set = Set::empty().with(63).with(0).with(63);
    assert_eq!(rt; set.len(), 2);
    for (row, position, is_member) in [
        ("the least member", 0, true),
        ("between the members", 1, false),
        ("the greatest member", 63, true),
        ("past all members", 64, false),
        ("the greatest number", u32::MAX, false),
    ] {
        assert_eq!(rt; set.has(position), is_member, "{row}");
    }
    assert!(rt; Set::empty().is_empty());
    assert!(rt; !set.is_empty());
    assert!(rt; Set::empty().with(63).is_proper_part(set));
    assert!(rt; !set.is_proper_part(set));
    assert!(rt; !Set::empty().with(1).is_proper_part(set));
    assert!(rt; set == Set::empty().with(0).with(63));
}

#[test]
fn doubts_hold_their_nodes(rt: HostRuntime) {
    let doubts = Doubts::empty().with(511).with(0).with(64).with(511);
    assert_eq!(rt; doubts.len(), 3);
    for (row, node, is_member) in [
        ("the least node", 0, true),
        ("between the nodes", 1, false),
        ("the first of a later word", 64, true),
        ("the first of another word", 128, false),
        ("the greatest node", 511, true),
        ("past all nodes", 512, false),
        ("the greatest number", u32::MAX, false),
    ] {
        assert_eq!(rt; doubts.has(node), is_member, "{row}");
    }
    assert_eq!(rt; Doubts::empty().len(), 0);
    assert!(rt; Doubts::empty().with(511).is_subset(doubts));
    assert!(rt; doubts.is_subset(doubts));
    assert!(rt; !doubts.is_subset(Doubts::empty().with(511)));
}

#[test]
fn a_trace_keeps_the_last_time_by_rising_nodes(rt: HostRuntime) -> Result<(), Fail> {
    let mut trace = Trace::new(rt.alloc());
    for (node, time) in [(7, 10), (4, 20), (9, 0), (7, 30)] {
        trace.set(node, time)?;
    }
    let expected = [
        Activation { node: 4, time: 20 },
        Activation { node: 7, time: 30 },
        Activation { node: 9, time: 0 },
    ];
    assert_eq!(rt; trace.as_slice(), expected.as_slice());
    assert_eq!(rt; trace.at(7), Some(30));
    assert_eq!(rt; trace.at(8), None);
    assert_eq!(rt; trace.clone()?.as_slice(), trace.as_slice());
    assert_eq!(rt; trace.copy()?.as_slice(), expected.as_slice());
    Ok(())
}
