//! Constraints on the times of nodes.

ghost use Rattle.std.specs.Prelude.{◌≡◌, ◌<◌, ◌^◌, pos, ◌-ℤ◌};
ghost use Rattle.tfpg_graph.specs.declared.limits.TheConstants.{MAX_NODES};
ghost use Rattle.tfpg_base.specs.Bounds.{at_least, at_most, at_least_after, at_most_after};

use tfpg_base::Constraint;

/// The time of the node is at least this.
pub(crate) fn at_least(node: u32, least: u64) -> Constraint
    requires node { node < MAX_NODES }
    requires least { least < 2 ^ 63 }
    ensures { result ≡ at_least node least }
{
    Constraint {
        left: 0,
        right: node + 1,
        most: -(least as i64),
    }
}

/// The time of the node is at most this.
pub(crate) fn at_most(node: u32, bound: u64) -> Constraint
    requires node { node < MAX_NODES }
    requires bound { bound < 2 ^ 63 }
    ensures { result ≡ at_most node (pos bound) }
{
    Constraint {
        left: node + 1,
        right: 0,
        most: bound as i64,
    }
}

/// The one node's time is at most so much after the other's.
pub(crate) fn at_most_after(node: u32, source: u32, bound: u64) -> Constraint
    requires node { node < MAX_NODES }
    requires source { source < MAX_NODES }
    requires bound { bound < 2 ^ 63 }
    ensures { result ≡ at_most_after node source bound }
{
    Constraint {
        left: node + 1,
        right: source + 1,
        most: bound as i64,
    }
}

/// The one node's time is at least so much after the other's.
pub(crate) fn at_least_after(node: u32, source: u32, least: u64) -> Constraint
    requires node { node < MAX_NODES }
    requires source { source < MAX_NODES }
    requires least { least < 2 ^ 63 }
    ensures { result ≡ at_least_after node source least }
{
    Constraint {
        left: source + 1,
        right: node + 1,
        most: -(least as i64),
    }
}

/// The node's time is before this.
pub(crate) fn at_most_before(node: u32, time: u64) -> Constraint
    requires node { node < MAX_NODES }
    requires time { time < 2 ^ 63 }
    ensures { result ≡ at_most node (pos time -ℤ pos 1) }
{
    Constraint {
        left: node + 1,
        right: 0,
        most: time as i64 - 1,
    }
}
