//! Why a demand was not added.

use std::alloc::AllocFailed;
use tfpg_base::NoMemory;
use tfpg_evidence::Reasons;

/// Why a demand was not added to the system of a leaf.
#[derive(Drop)]
pub(crate) enum AddFault {
    /// No times would meet all demands: these reasons chain into a cycle whose sum is negative.
    Conflict(Reasons),
    /// Out of memory.
    NoMemory,
}

impl From<NoMemory> for AddFault {
    ghost use Rattle.std.specs.Prelude.{◌≡◌};
    ghost use Rattle.tfpg_search.specs.declared.add_fault.AddFault.TheVariants as fault;

    ghost from_gives = { λ _ e. e ≡ fault.NoMemory };

    fn from(_e: NoMemory) -> AddFault {
        AddFault::NoMemory
    }
}

impl<T: Drop> From<AllocFailed<T>> for AddFault {
    ghost use Rattle.std.specs.Prelude.{◌≡◌};
    ghost use Rattle.tfpg_search.specs.declared.add_fault.AddFault.TheVariants as fault;

    ghost from_gives = { λ _ e. e ≡ fault.NoMemory };

    fn from(_e: AllocFailed<T>) -> AddFault {
        AddFault::NoMemory
    }
}
