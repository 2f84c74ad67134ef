//! How a failure propagates from one node to another.

ghost use Rattle.std.specs.Prelude.{◌≡◌, ◌<◌, ◌≤◌, ◌-◌, ◌^◌, ◌&&◌, ℕ};

use crate::limits::MAX_MODES;

/// A propagation from one node to another.
#[derive(Clone, Copy, Debug, PartialEq, Eq)]
pub struct Edge {
    /// The number of the node that it leaves.
    pub source: u32,
    /// The number of the discrepancy that it enters.
    pub target: u32,
    /// The least delay in milliseconds, from 0 to [`MAX_TIME`](tfpg_base::MAX_TIME).
    pub tmin: u64,
    /// The greatest delay in milliseconds, from `tmin` to [`MAX_TIME`](tfpg_base::MAX_TIME). With none the edge may carry
    /// the failure, and is never forced to.
    pub tmax: Option<u64>,
    /// The system modes in which it is active: bit `m` is that of mode `m`.
    pub modes: u64,
}

impl Edge {
    ghost use Rattle.tfpg_graph.specs.Graph.{is_active_in};

    /// Whether it is active in the mode of this number. It is active in none from [`MAX_MODES`](crate::MAX_MODES) on.
    pub fn is_active_in(&self, mode: u32) -> bool
        ensures { result ≡ is_active_in self.now mode }
    {
        let modes = self.modes;
        mode < u64::BITS && modes >> mode & 1 == 1
    }

    /// The edge, active only in the modes in which the other is active too, and else the same.
    pub fn active_with(&self, other: &Edge) -> Edge
        ensures active { (mode : ℕ) → is_active_in result mode ≡
            (is_active_in self.now mode && is_active_in other.now mode) }
        ensures ends { (result.source ≡ self.now.source) × (result.target ≡ self.now.target) }
        ensures delays { (result.tmin ≡ self.now.tmin) × (result.tmax ≡ self.now.tmax) }
    {
        Edge {
            modes: self.modes & other.modes,
            ..*self
        }
    }
}

/// The bits of all modes, of which there are `count`.
pub(crate) fn all_modes(count: u32) -> u64
    requires some { 0 < count }
    requires few { count ≤ MAX_MODES }
    ensures { result ≡ 2 ^ count - 1 }
{
    u64::MAX >> (64 - count)
}
