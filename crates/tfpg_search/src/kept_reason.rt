//! What is kept of the reasons of bounds: without what the bound and its node say anyway.

ghost use Rattle.std.specs.Prelude.{◌≡◌};
ghost use Rattle.tfpg_search.specs.inside.KeptReasons.{low_reason, high_reason};

use tfpg_evidence::Reason;

/// Why the lower bound of a node is what it is. The node and the bound say the rest.
#[derive(Clone, Copy)]
pub(crate) enum LowReason {
    /// No time is before 0.
    Zero,
    /// The set does not reach the node, so the node is not active before the bound.
    Unreached,
    /// The alarm of this event.
    From(u32),
    /// This event, a silence or a sweep.
    Quiet(u32),
}

/// Why the upper bound of a node is what it is. The node says the rest.
#[derive(Clone, Copy)]
pub(crate) enum HighReason {
    /// No time is after `10^12 + 1`.
    Top,
    /// The alarm of this event.
    Upto(u32),
}

// There is one of each for every node of each search that is kept.
const _: () = prove!(size_of::<LowReason>() == 8);

const _: () = prove!(size_of::<HighReason>() == 8);

impl LowReason {
    /// The reason of this lower bound of the node.
    pub(crate) fn of(self, node: u32, bound: u64) -> Reason
        ensures { result ≡ low_reason node bound self }
    {
        match self {
            LowReason::Zero => Reason::Zero { node },
            LowReason::Unreached => Reason::Unreached {
                node,
                horizon: bound.saturating_sub(1),
            },
            LowReason::From(event) => Reason::From { event },
            LowReason::Quiet(event) => Reason::Quiet { event, node },
        }
    }
}

impl HighReason {
    /// The reason of the upper bound of the node.
    pub(crate) fn of(self, node: u32) -> Reason
        ensures { result ≡ high_reason node self }
    {
        match self {
            HighReason::Top => Reason::Top { node },
            HighReason::Upto(event) => Reason::Upto { event },
        }
    }
}
