//! The public call of `tfpg_trace`, for what no command can ask.

ghost use Rattle.std.specs.Prelude.{◌<◌, length, All, IsTrue};
ghost use Rattle.tfpg_log.specs.Log.{IsLogOf};

use crate::given::on_log;
use std::alloc::Global;
use std::test::Fail;
use tfpg_base::{NoMemory, Set, Trace};
use tfpg_graph::Graph;
use tfpg_log::Log;
use tfpg_trace::{Verdict, explains};

/// An AND node with two failure modes.
const GRAPH: &[u8] =
    b"tfpg 1\nmode N\nmode D\nfailure F 1\nfailure G 1\nand C watch 0\nedge F C 0 inf *\nedge G C 0 inf *\nend\n";

/// Whether the nodes of the trace are nodes of the graph.
fn is_of(graph: &Graph, trace: &Trace) -> bool
    ensures { IsTrue result → All (λ activation. activation.node < length graph.now.nodes) trace.now }
{
    let activations = trace.as_slice();
    for activation in activations {
        if activation.node >= graph.node_count() {
            return false;
        }
    }
    true
}

/// What is said of a set with a position of no failure mode, and a trace with an activation of G at 10.
fn verdict(alloc: Global, graph: &Graph, log: &Log) -> Result<Option<Verdict>, NoMemory>
    requires { IsLogOf graph.now log.now }
{
    let mut trace = Trace::new(alloc);
    trace.set(0, 0)?;
    trace.set(1, 10)?;
    trace.set(2, 5)?;
    if !is_of(graph, &trace) {
        return Ok(None);
    }
    let set = Set::empty().with(0).with(63);
    Ok(Some(explains(graph, log, set, &trace)))
}

#[test]
fn a_set_may_have_positions_of_no_failure_mode(rt: HostRuntime) -> Result<(), Fail> {
    let alloc = rt.alloc();
    on_log(alloc, GRAPH, &[b"20 alarm C"], |graph, log| {
        if verdict(alloc, graph, log)? != Some(Verdict::Stranger { node: 1, time: 10 }) {
            return Err(Fail::new("the failure mode that is not of the set"));
        }
        Ok(())
    })
}
