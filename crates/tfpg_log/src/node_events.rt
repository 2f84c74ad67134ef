//! What a log keeps of each node beside its events.

/// The numbers of events that bound when a node became active, where there are such events. Numbers begin with 1.
#[derive(Clone, Copy)]
pub(crate) struct NodeEvents {
    /// The node's first alarm.
    pub(crate) first_alarm: Option<u32>,
    /// The node's last alarm.
    pub(crate) last_alarm: Option<u32>,
    /// The node's own last silence.
    pub(crate) silence: Option<u32>,
    /// The last sweep before the node's first alarm, once it has one.
    pub(crate) sweep: Option<u32>,
}

impl NodeEvents {
    ghost use Rattle.std.specs.Prelude.{◌≡◌};
    ghost use Rattle.tfpg_log.specs.inside.NodeEvents.{no_events, with_alarm};

    /// Those of a node without any.
    pub(crate) fn none() -> NodeEvents
        ensures { result ≡ no_events }
    {
        NodeEvents {
            first_alarm: None,
            last_alarm: None,
            silence: None,
            sweep: None,
        }
    }

    /// Those of the node once the event of this number is an alarm of it. The other number is that of the last sweep so
    /// far.
    pub(crate) fn with_alarm(self, alarm: u32, sweep: Option<u32>) -> NodeEvents
        ensures { result ≡ with_alarm self alarm sweep }
    {
        match self.first_alarm {
            Some(_) => NodeEvents {
                first_alarm: self.first_alarm,
                last_alarm: Some(alarm),
                silence: self.silence,
                sweep: self.sweep,
            },
            None => NodeEvents {
                first_alarm: Some(alarm),
                last_alarm: Some(alarm),
                silence: self.silence,
                sweep,
            },
        }
    }
}
