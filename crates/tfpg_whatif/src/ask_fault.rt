//! Why nothing is answered.

use tfpg_base::NoMemory;
use tfpg_log::Refusal;

/// Why there is no answer.
#[derive(Clone, Copy, PartialEq, Eq)]
pub enum AskFault {
    /// The log would refuse the line.
    Refused(Refusal),
    /// Out of memory.
    NoMemory,
}

impl From<NoMemory> for AskFault {
    ghost use Rattle.std.specs.Prelude.{◌≡◌};
    ghost use Rattle.tfpg_whatif.specs.declared.ask_fault.AskFault.TheVariants as fault;

    ghost from_gives = { λ _ e. e ≡ fault.NoMemory };

    fn from(_e: NoMemory) -> AskFault {
        AskFault::NoMemory
    }
}
