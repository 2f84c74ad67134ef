//! What a system demands, in the one form that bounds and picks share.

ghost use Rattle.std.specs.Prelude.{◌≡◌, ◌-◌, ◌^◌, ◌<◌, ◌≤◌};
ghost use Rattle.tfpg_base.specs.declared.limits.TheConstants.{NEVER};
ghost use Rattle.tfpg_diff.specs.Demands.{ceiling_of, demand_of_pick};

use crate::bounds::Bounds;
use crate::pick::Pick;
use crate::why::Why;
use tfpg_base::Constraint;

/// A constraint, with the tag that a cycle names it by. Number 0 is the constant zero, and the variable `v` is number
/// `v + 1`.
#[derive(Clone, Copy, PartialEq, Eq)]
pub struct Demand {
    pub constraint: Constraint,
    pub why: Why,
}

/// The upper bound of a variable as a constraint. The bound is below 2^63.
pub(crate) fn ceiling_of(variable: u32, bounds: Bounds) -> Demand
    requires variable { variable < 2 ^ 32 - 1 }
    requires small { bounds.ceiling ≤ NEVER }
    ensures { result ≡ ceiling_of variable bounds }
{
    Demand {
        constraint: Constraint {
            left: variable + 1,
            right: 0,
            most: bounds.ceiling() as i64,
        },
        why: bounds.ceiling_why(),
    }
}

/// The pick in the form that it shares with bounds.
pub(crate) fn demand_of_pick(pick: &Pick) -> Demand
    ensures { result ≡ demand_of_pick pick.now }
{
    Demand {
        constraint: pick.constraint,
        why: Why::Given(pick.tag),
    }
}
