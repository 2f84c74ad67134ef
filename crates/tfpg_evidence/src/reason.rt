//! The reasons of a cycle.

use tfpg_base::Items;

/// A constraint that holds at a leaf: a fact of the log and the set of failure modes, or a pick of an alternative on the
/// path. Events are numbered from 1.
#[derive(Clone, Copy, PartialEq, Eq)]
pub enum Reason {
    /// No time is before 0.
    Zero { node: u32 },
    /// No time is after 10^12 + 1, the time of a node that is never active.
    Top { node: u32 },
    /// The set does not reach the node, so the node is not active by the horizon.
    Unreached { node: u32, horizon: u64 },
    /// The alarm of this event says that its node became active at most the node's greatest lag before the alarm.
    From { event: u32 },
    /// The alarm of this event says that its node became active at least the node's least lag before the alarm.
    Upto { event: u32 },
    /// This event, a silence or a sweep, says that the node was not active its least lag before.
    Quiet { event: u32, node: u32 },
    /// The constraint at this place in the alternative taken at this split of the path. Both are numbered from 1.
    Pick { split: u64, place: u32 },
}

/// The reasons of a cycle, in order.
pub type Reasons = Items<Reason>;
