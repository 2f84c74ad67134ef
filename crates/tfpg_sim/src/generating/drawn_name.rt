//! The names of the nodes of a generated graph.

ghost use Rattle.std.specs.Prelude.{◌≡◌, ◌∷◌, ◌<◌, ◌^◌, decimal, IfOk};
ghost use Rattle.tfpg_sim.specs.Generated.{drawn_name};

use crate::limits::FAILURE_COUNT;
use itoa::Buffer;
use std::alloc::Global;
use tfpg_base::NoMemory;

/// The name of the node of this number.
pub(crate) fn drawn_name(alloc: Global, node: u32) -> Result<Vec<u8>, NoMemory>
    ensures { IfOk result (λ name. name.items ≡ drawn_name node) }
{
    if node < FAILURE_COUNT {
        lettered(alloc, b'F', node)
    } else {
        lettered(alloc, b'D', node - FAILURE_COUNT)
    }
}

/// A letter and the number.
fn lettered(alloc: Global, letter: u8, number: u32) -> Result<Vec<u8>, NoMemory>
    ensures { IfOk result (λ name. name.items ≡ letter ∷ decimal number) }
{
    let mut digits = Buffer::new();
    let mut name = Vec::new(alloc);
    name.push(letter)?;
    name.extend_from_slice(digits.format(number).as_bytes())?;
    Ok(name)
}
