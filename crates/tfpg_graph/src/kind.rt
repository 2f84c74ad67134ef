//! What a node is.

ghost use Rattle.std.specs.Prelude.{◌≡◌, is_some};

/// How late the alarm of a monitored node comes: at least and at most so many milliseconds after the node became
/// active. The greatest goes up to [`MAX_TIME`](tfpg_base::MAX_TIME), and the least up to the greatest.
#[derive(Clone, Copy, PartialEq, Eq)]
pub struct Lag {
    pub least: u64,
    pub most: u64,
}

/// What a node is. A discrepancy with a lag is monitored: an alarm logged at `t` says that it became active within the
/// lag before. One without is hidden.
#[derive(Clone, Copy, PartialEq, Eq)]
pub enum Kind {
    /// A failure mode, with its rarity from 0 to [`MAX_RARITY`](crate::MAX_RARITY): the rarer, the greater.
    Failure { rarity: u64 },
    /// A discrepancy that is activated when the failure reaches it from any source.
    Or { lag: Option<Lag> },
    /// A discrepancy that is activated when the failure reaches it from all its sources.
    And { lag: Option<Lag> },
}

impl Kind {
    ghost use Rattle.tfpg_graph.specs.Graph.{is_failure, is_or, is_and, lag_of, has_zero_least};

    /// Whether it is a failure mode.
    pub fn is_failure(&self) -> bool
        ensures { result ≡ is_failure self.now }
    {
        matches!(self, Kind::Failure { rarity: _ })
    }

    /// Whether it is a discrepancy that is activated from any source.
    pub(crate) fn is_or(&self) -> bool
        ensures { result ≡ is_or self.now }
    {
        matches!(self, Kind::Or { lag: _ })
    }

    /// Whether it is a discrepancy that is activated from all its sources at once.
    pub(crate) fn is_and(&self) -> bool
        ensures { result ≡ is_and self.now }
    {
        matches!(self, Kind::And { lag: _ })
    }

    /// The lag of its alarm, where it is monitored.
    pub fn lag(&self) -> Option<Lag>
        ensures { result ≡ lag_of self.now }
    {
        match self {
            Kind::Failure { rarity: _ } => None,
            Kind::Or { lag } => *lag,
            Kind::And { lag } => *lag,
        }
    }

    /// Whether its least lag is 0, or it has no lag.
    pub(crate) fn has_zero_least(&self) -> bool
        ensures { result ≡ has_zero_least self.now }
    {
        match self.lag() {
            Some(lag) => lag.least == 0,
            None => true,
        }
    }

    /// Whether it is monitored: an alarm says that it has become active.
    pub fn is_monitored(&self) -> bool
        ensures { result ≡ is_some (lag_of self.now) }
    {
        self.lag().is_some()
    }
}
