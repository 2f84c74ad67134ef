//! Why a script is not simulated.

use std::alloc::{AllocError, AllocFailed};
use tfpg_base::NoMemory;

/// Why a script is not simulated.
#[derive(Clone, Copy, PartialEq, Eq)]
pub enum SimFault {
    /// This line of the script is the first at fault. Lines are numbered from 1.
    BadScript { line: u64 },
    /// Out of memory.
    NoMemory,
}

impl From<NoMemory> for SimFault {
    ghost use Rattle.std.specs.Prelude.{◌≡◌};
    ghost use Rattle.tfpg_sim.specs.declared.fault.SimFault.TheVariants as fault;

    ghost from_gives = { λ _ f. f ≡ fault.NoMemory };

    fn from(_e: NoMemory) -> SimFault {
        SimFault::NoMemory
    }
}

impl<T: Drop> From<AllocFailed<T>> for SimFault {
    ghost use Rattle.std.specs.Prelude.{◌≡◌};
    ghost use Rattle.tfpg_sim.specs.declared.fault.SimFault.TheVariants as fault;

    ghost from_gives = { λ _ f. f ≡ fault.NoMemory };

    fn from(_e: AllocFailed<T>) -> SimFault {
        SimFault::NoMemory
    }
}
