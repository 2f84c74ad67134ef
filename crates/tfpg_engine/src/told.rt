//! What an event brings.

use tfpg_base::NoMemory;
use tfpg_evidence::Round;
use tfpg_log::Refusal;

/// What a line of the log brings.
#[derive(Drop)]
pub enum Told {
    /// The line is refused, and nothing changed.
    Refused(Refusal),
    /// The line is accepted.
    Round(Round),
}

/// Why a line brings nothing.
#[derive(Clone, Copy, Debug, PartialEq, Eq)]
pub enum EventFault {
    /// Out of memory. The engine has ended.
    NoMemory,
    /// The engine ended at an earlier event, when memory ran out.
    Ended,
}

impl From<NoMemory> for EventFault {
    ghost use Rattle.std.specs.Prelude.{◌≡◌};
    ghost use Rattle.tfpg_engine.specs.declared.told.EventFault.TheVariants as fault;

    ghost from_gives = { λ _ e. e ≡ fault.NoMemory };

    fn from(_e: NoMemory) -> EventFault {
        EventFault::NoMemory
    }
}

/// An engine ends only where memory runs out.
impl From<EventFault> for NoMemory {
    fn from(_e: EventFault) -> NoMemory {
        NoMemory
    }
}
