//! A trace without the probe.

ghost use Rattle.std.specs.Prelude.{◌≡◌, ◌==◌, if◌then◌else◌, IfOk, OnOk};
ghost use Rattle.tfpg_base.specs.Trace.{with_time};
ghost use Rattle.tfpg_predict.specs.Probed.{without_probe};

use std::alloc::Global;
use tfpg_base::{Activation, NoMemory, Trace};

/// The trace without the probe, which is the node of this number. Takes time linear in the trace.
pub(crate) fn without_probe(alloc: Global, trace: &Trace, probe: u32) -> Result<Trace, NoMemory>
    ensures { IfOk result (λ rest. rest ≡ without_probe probe trace.now) }
{
    trace.is_always_rising();
    let mut rest = Trace::new(alloc);
    for activation in trace.as_slice() {
        activate_other(&mut rest, probe, *activation)?;
    }
    Ok(rest)
}

/// Takes the activation, unless it is that of the probe.
fn activate_other(rest: &mut Trace, probe: u32, activation: Activation) -> Result<(), NoMemory>
    ensures { OnOk result (rest.new ≡ (if activation.node == probe then rest.old
        else with_time activation.node activation.time rest.old)) }
{
    if activation.node != probe {
        rest.set(activation.node, activation.time)?;
    }
    Ok(())
}
