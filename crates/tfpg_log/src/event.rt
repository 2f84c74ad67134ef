//! What a line of the log says.

ghost use Rattle.std.specs.Prelude.{◌≡◌};

use crate::Refusal;

/// An accepted line. Times are in milliseconds, from 0 to [`MAX_TIME`](tfpg_base::MAX_TIME), and never fall from one
/// event to the next.
#[derive(Clone, Copy, PartialEq, Eq)]
pub enum Event {
    /// The monitor of a discrepancy raised its alarm.
    Alarm { time: u64, node: u32 },
    /// The monitor of a discrepancy was asked and is silent.
    Silent { time: u64, node: u32 },
    /// All monitors were asked; those without an alarm so far are silent.
    Sweep { time: u64 },
    /// Time went on.
    Tick { time: u64 },
    /// The system's mode changed. It holds from the next millisecond on.
    Mode { time: u64, mode: u32 },
}

impl Event {
    ghost use Rattle.tfpg_log.specs.Log.{time_of_event};

    /// When it was, in milliseconds.
    pub fn time(self) -> u64
        ensures { result ≡ time_of_event self }
    {
        match self {
            Event::Alarm { time, .. }
            | Event::Silent { time, .. }
            | Event::Sweep { time }
            | Event::Tick { time }
            | Event::Mode { time, .. } => time,
        }
    }
}

/// What became of a line.
#[derive(Clone, Copy, PartialEq, Eq)]
pub enum Offered {
    Accepted(Event),
    Refused(Refusal),
}
