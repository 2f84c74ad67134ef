//! A trace with a table of its times by node. The judge looks up the time of a node for each edge, and a table makes that
//! constant time.

ghost use Rattle.std.specs.Prelude.{◌≡◌, ◌<◌, All};
ghost use Rattle.tfpg_base.specs.Trace.{IsRisingByNode, time_of};
ghost use Rattle.tfpg_graph.specs.declared.limits.TheConstants.{MAX_NODES};
ghost use Rattle.tfpg_trace.specs.inside.TimesByNode.{HasTimes};

use std::marker::Model;
use tfpg_base::{Activation, Trace};
use tfpg_graph::MAX_NODES;

/// A trace with its times by node. Contracts see it as the trace. Takes no memory, and 8 KB of the stack.
#[derive(Drop)]
pub(crate) struct TraceTable<'a> {
    trace: &'a Trace,
    /// A node without a time has None.
    by_node: [Option<u64>; MAX_NODES as usize],
}

impl<'a> Model for TraceTable<'a> {
    ghost use Rattle.std.specs.Prelude.{List};
    ghost use Rattle.tfpg_base.specs.declared.activation.Activation.{Activation};
    ghost use Rattle.tfpg_trace.specs.inside.TimesByNode.{HasTimes};

    ghost Value = { List Activation };

    ghost view = { λ table. table.trace.now };

    ghost invariant = { λ table. HasTimes table.by_node table.trace.now };
}

impl<'a> TraceTable<'a> {
    /// The table of the trace. Goes through the trace once.
    pub(crate) fn of(trace: &'a Trace) -> TraceTable<'a>
        requires { All (λ activation. activation.node < MAX_NODES) trace.now }
        ensures { result ≡ trace.now }
    {
        let by_node = times_by_node(trace.as_slice());
        TraceTable { trace, by_node }
    }

    /// The time of the node, in milliseconds, if it became active. The node may be any number.
    pub(crate) fn at(&self, node: u32) -> Option<u64>
        ensures { result ≡ time_of self.now node }
    {
        match self.by_node.get(node as usize) {
            Some(time) => *time,
            None => None,
        }
    }

    /// The activations, by rising nodes.
    pub(crate) fn as_slice(&self) -> &[Activation]
        ensures { result.now ≡ self.now }
    {
        self.trace.as_slice()
    }

    /// Does nothing: brings into a proof that the activations stand by rising nodes.
    pub(crate) fn is_always_rising(&self)
        ensures { IsRisingByNode self.now }
    {
        self.trace.is_always_rising();
    }
}

/// The times of the activations, by node.
fn times_by_node(trace: &[Activation]) -> [Option<u64>; MAX_NODES as usize]
    requires rising { IsRisingByNode trace.now }
    requires nodes { All (λ activation. activation.node < MAX_NODES) trace.now }
    ensures { HasTimes result trace.now }
{
    let mut by_node: [Option<u64>; MAX_NODES as usize] = [None; MAX_NODES as usize];
    for activation in trace {
        by_node[activation.node as usize] = Some(activation.time);
    }
    by_node
}
