//! The public calls of `tfpg_graph`: what look-ups say of no node, and which modes an edge has with another.

use crate::given::on_graph;
use std::test::Fail;
use tfpg_graph::{Edge, Graph};

/// An AND node, an OR node and a failure mode, in this order.
const GRAPH: &[u8] =
    b"tfpg 2\nmode N\nand C hidden\nor A watch 2 7\nfailure F 3\nedge A C 0 inf *\nedge F A 0 0 *\nend\n";

#[test]
fn an_edge_is_active_in_its_modes(rt: HostRuntime) {
    let edge = Edge {
        source: 1,
        target: 0,
        tmin: 2,
        tmax: Some(5),
        modes: 0b011,
    };
    let other = Edge {
        source: 3,
        target: 0,
        tmin: 0,
        tmax: None,
        modes: 0b110,
    };
    assert!(rt; edge.is_active_in(1));
    assert!(rt; !edge.is_active_in(2));
    let both = Edge {
        source: 1,
        target: 0,
        tmin: 2,
        tmax: Some(5),
        modes: 0b010,
    };
    assert_eq!(rt; edge.active_with(&other), both);
}

/// Nodes, whether each is an OR node, whether it is an AND node, and its greatest lag.
const KINDS: [(&str, u32, bool, bool, Option<u64>); 4] = [
    ("an AND node", 0, false, true, None),
    ("an OR node", 1, true, false, Some(7)),
    ("a failure mode", 2, false, false, None),
    ("no node", 3, false, false, None),
];

/// Compares the kinds and lags of the nodes.
fn compare_kinds(graph: &Graph) -> Result<(), Fail> {
    for (row, node, is_or, is_and, lag) in &KINDS {
        if graph.is_or(*node) != *is_or
            || graph.is_and(*node) != *is_and
            || graph.lag(*node).map(|lag| lag.most) != *lag
        {
            return Err(Fail::new(*row));
        }
    }
    Ok(())
}

#[test]
fn no_node_is_of_a_kind(rt: HostRuntime) -> Result<(), Fail> {
    on_graph(rt.alloc(), GRAPH, |graph| compare_kinds(graph))
}
