//! What a line of a script says.

ghost use Rattle.std.specs.Prelude.{◌≡◌};
ghost use Rattle.tfpg_sim.specs.Script.{time_so_far};

/// A line of a script. Times are in milliseconds, from 0 to [`MAX_TIME`](tfpg_base::MAX_TIME).
#[derive(Clone, Copy, PartialEq, Eq)]
pub(crate) enum Entry {
    /// The failure mode of this node starts.
    Start { time: u64, node: u32 },
    /// The mode of the system changes. It holds from the next millisecond on.
    Mode { time: u64, mode: u32 },
    /// All monitors are asked.
    Sweep { time: u64 },
    /// Time goes on.
    Tick { time: u64 },
    /// The end of the script.
    Stop { time: u64 },
}

impl Entry {
    ghost use Rattle.tfpg_sim.specs.SimulatedLog.{sweep_time};
    ghost use Rattle.tfpg_sim.specs.Script.{time_of_entry, is_stop, changes_mode, starts};

    /// When it is.
    pub(crate) fn time(self) -> u64
        ensures { result ≡ time_of_entry self }
    {
        match self {
            Entry::Start { time, .. }
            | Entry::Mode { time, .. }
            | Entry::Sweep { time }
            | Entry::Tick { time }
            | Entry::Stop { time } => time,
        }
    }

    /// Whether it is the stop.
    pub(crate) fn is_stop(self) -> bool
        ensures { result ≡ is_stop self }
    {
        matches!(self, Entry::Stop { time: _ })
    }

    /// Whether it changes the mode.
    pub(crate) fn changes_mode(self) -> bool
        ensures { result ≡ changes_mode self }
    {
        matches!(self, Entry::Mode { time: _, mode: _ })
    }

    /// Whether it starts this failure mode.
    pub(crate) fn starts(self, failure: u32) -> bool
        ensures { result ≡ starts failure self }
    {
        match self {
            Entry::Start { node, .. } => node == failure,
            Entry::Mode { .. } | Entry::Sweep { .. } | Entry::Tick { .. } | Entry::Stop { .. } =>
                false,
        }
    }

    /// The time of a sweep.
    pub(crate) fn sweep_time(self) -> Option<u64>
        ensures { result ≡ sweep_time self }
    {
        match self {
            Entry::Sweep { time } => Some(time),
            Entry::Start { .. } | Entry::Mode { .. } | Entry::Tick { .. } | Entry::Stop { .. } =>
                None,
        }
    }
}

/// The time of the last line, and 0 where there is none.
pub(crate) fn time_so_far(entries: &[Entry]) -> u64
    ensures { result ≡ time_so_far entries.now }
{
    match entries.last() {
        Some(entry) => entry.time(),
        None => 0,
    }
}
