//! The name of a probe.

ghost use Rattle.std.specs.Prelude.{◌≡◌, IfOk, OnOk};
ghost use Rattle.tfpg_predict.specs.Probed.{probe_word};
ghost use Rattle.tfpg_predict.specs.inside.ProbeNames.{IsProbeName};

use itoa::Buffer;
use std::alloc::Global;
use tfpg_base::NoMemory;
use tfpg_graph::Graph;

/// The name of a probe of this graph: `probe.` and the least number that makes it new. Takes as many look-ups by name as that
/// number says, and once more.
pub(crate) fn probe_name(alloc: Global, graph: &Graph) -> Result<Vec<u8>, NoMemory>
    ensures { IfOk result (λ name. IsProbeName graph.now name.items) }
{
    graph.is_always_valid();
    let mut number = 0;
    let mut name = Vec::new(alloc);
    write_name(number, &mut name)?;
    while graph.find(&name).is_some() {
        number += 1;
        write_name(number, &mut name)?;
    }
    Ok(name)
}

/// Writes the name of this number in place of the other.
fn write_name(number: u32, name: &mut Vec<u8>) -> Result<(), NoMemory>
    ensures { OnOk result (name.new.items ≡ probe_word number) }
{
    let mut digits = Buffer::new();
    name.clear();
    name.extend_from_slice(b"probe.")?;
    name.extend_from_slice(digits.format(number).as_bytes())?;
    Ok(())
}
