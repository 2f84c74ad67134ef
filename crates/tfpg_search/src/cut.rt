//! Times as a trace.

ghost use Rattle.std.specs.Prelude.{◌≡◌, ◌<◌, ◌^◌, length, IfOk, OnOk, nat_le, if◌then◌else◌};
ghost use Rattle.tfpg_base.specs.Trace.{with_time};
ghost use Rattle.tfpg_clause.specs.Cut.{cut};

use std::alloc::Global;
use tfpg_base::{NoMemory, Trace};

/// The trace of the times of the nodes, in milliseconds, cut at an instant: a node whose time is later is not active.
pub(crate) fn cut(alloc: Global, instant: u64, times: &[u64]) -> Result<Trace, NoMemory>
    requires { length times.now < 2 ^ 32 }
    ensures { IfOk result (λ trace. trace ≡ cut instant times.now) }
{
    let mut trace = Trace::new(alloc);
    for node in 0..times.len() {
        activate(&mut trace, instant, node as u32, times[node])?;
    }
    Ok(trace)
}

/// Activates the node, where its time is at most the instant.
fn activate(trace: &mut Trace, instant: u64, node: u32, time: u64) -> Result<(), NoMemory>
    ensures { OnOk result (trace.new
        ≡ (if nat_le time instant then with_time node time trace.old else trace.old)) }
{
    if time <= instant {
        trace.set(node, time)?;
    }
    Ok(())
}
