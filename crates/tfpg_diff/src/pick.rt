//! One constraint on the stack of a system.

use tfpg_base::Constraint;

/// A constraint that was pushed, with its tag.
#[derive(Clone, Copy, PartialEq, Eq)]
pub struct Pick {
    pub constraint: Constraint,
    pub tag: u64,
}
