//! Whether times meet constraints.

ghost use Rattle.std.specs.Prelude.{◌≡◌, ◌≤◌, ◌↔◌, pos, All, IsTrue, slice_index};
ghost use Rattle.tfpg_base.specs.declared.limits.TheConstants.{NEVER};
ghost use Rattle.tfpg_base.specs.Constraint.{Meets, value_of};
ghost use Rattle.tfpg_clause.specs.inside.Alternatives.{constraints_in};

use crate::alternative::Alternative;
use tfpg_base::Constraint;

/// Whether the times meet each constraint of the alternative.
pub(crate) fn meets(times: &[u64], alternative: Alternative) -> bool
    requires { All (λ time. time ≤ NEVER) times.now }
    ensures { IsTrue result ↔ All (Meets times.now) (constraints_in alternative) }
{
    match alternative {
        Alternative::One(constraint) => meets_each(times, &[constraint]),
        Alternative::Arrival(constraints) => meets_each(times, &constraints),
    }
}

/// Whether the times meet each of the constraints.
fn meets_each(times: &[u64], constraints: &[Constraint]) -> bool
    requires { All (λ time. time ≤ NEVER) times.now }
    ensures { IsTrue result ↔ All (Meets times.now) constraints.now }
{
    for constraint in constraints {
        if !meets_one(times, *constraint) {
            return false;
        }
    }
    true
}

/// Whether the times meet the constraint.
fn meets_one(times: &[u64], constraint: Constraint) -> bool
    requires { All (λ time. time ≤ NEVER) times.now }
    ensures { IsTrue result ↔ Meets times.now constraint }
{
    let left = value_of(times, constraint.left);
    let right = value_of(times, constraint.right);
    left as i64 - right as i64 <= constraint.most
}

/// The value of a number of a constraint: 0 for number 0, and the time of the node before for any other.
fn value_of(times: &[u64], number: u32) -> u64
    requires { All (λ time. time ≤ NEVER) times.now }
    ensures value { value_of times.now number ≡ pos result }
    ensures in_range { result ≤ NEVER }
{
    match number.checked_sub(1) {
        Some(node) => time_of(times, node),
        None => 0,
    }
}

/// The time of the node.
pub(crate) fn time_of(times: &[u64], node: u32) -> u64
    requires { All (λ time. time ≤ NEVER) times.now }
    ensures time { result ≡ slice_index times.now node }
    ensures in_range { result ≤ NEVER }
{
    times.get(node as usize).copied().unwrap_or(0)
}
