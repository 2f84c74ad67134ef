//! Two graphs, a log of some lines, a set of one failure mode, and what the first one reaches: what several tests begin with.

ghost use Rattle.std.specs.Prelude.{◌≡◌, ◌<◌, length, All, IfOk, IfSome, OnOk};
ghost use Rattle.tfpg_graph.specs.Graph.{failures};
ghost use Rattle.tfpg_log.specs.declared.event.Event.{Event};
ghost use Rattle.tfpg_log.specs.Log.{IsLogOf, with_event};

use std::alloc::Global;
use std::test::Fail;
use tfpg_base::{MAX_MEMBERS, Set};
use tfpg_graph::{Graph, NodeSet};
use tfpg_log::{Log, Offered};

/// Two failure modes with an edge each to A, of which the second is active in mode N alone. The first also has an edge to B,
/// and C needs A and B. The nodes are F1, F2, A, B, C with the numbers 0 to 4.
pub(crate) const TWO: &[u8] =
    b"tfpg 1\nmode N\nmode D\nfailure F1 3\nfailure F2 5\nor A watch 0\nor B hidden\nand C watch 0\nedge F1 A 10 20 N,D\nedge F2 A 5 5 N\nedge F1 B 0 inf *\nedge A C 0 10 *\nedge B C 0 10 *\nend\n";

/// A failure mode F with an edge to A, which is due after 3 at most, and an edge to E, which takes 9. Their numbers are 0 to 2.
pub(crate) const ONE: &[u8] =
    b"tfpg 1\nmode N\nfailure F 1\nor A watch 0\nor E watch 0\nedge F A 1 3 *\nedge F E 9 9 *\nend\n";

/// The log of the lines, all of which are to be accepted.
pub(crate) fn log_of(alloc: Global, graph: &Graph, lines: &[&[u8]]) -> Result<Log, Fail>
    ensures { IfOk result (IsLogOf graph.now) }
{
    let mut log = Log::new(alloc);
    for line in lines {
        accept(&mut log, graph, *line)?;
    }
    Ok(log)
}

/// Offers a line to the log, which has to accept it.
pub(crate) fn accept(log: &mut Log, graph: &Graph, line: &[u8]) -> Result<(), Fail>
    requires { IsLogOf graph.now log.old }
    ensures of { IsLogOf graph.now log.new }
    ensures longer { OnOk result ((event : Event) × (log.new ≡ with_event log.old event)) }
{
    match log.offer(graph, line)? {
        Offered::Accepted(_) => Ok(()),
        Offered::Refused(_) => Err(Fail::from("a line is refused")),
    }
}

/// The set of one failure mode of the graph, or of none.
pub(crate) fn set_of(graph: &Graph, member: Option<u32>) -> Option<Set>
    ensures { IfSome result (All (λ position. position < length (failures graph.now))) }
{
    match member {
        None => Some(Set::empty()),
        Some(position) if position < MAX_MEMBERS && position < graph.failure_count() => {
            Some(Set::empty().with(position))
        }
        Some(_) => None,
    }
}

/// The nodes that the first failure mode of the graph reaches.
pub(crate) fn reach_of_first(graph: &Graph) -> Result<NodeSet, Fail> {
    if graph.failure_count() == 0 {
        return Err(Fail::from("no failure mode"));
    }
    Ok(graph.reach(Set::empty().with(0)))
}
