//! The constraints of a cycle, as far as its reasons were looked at.

ghost use Rattle.std.specs.Prelude.{◌≡◌, ℕ, ◌+◌, ◌-◌, ◌*◌, ◌^◌};
ghost use Rattle.tfpg_kernel.specs.inside.Chains.{HasMagnitudeUpTo, with_constraint, closing_fault};

use crate::taken::BadStep;
use tfpg_base::Constraint;

/// Where constraints begin and end, whether each begins where the one before it ends, and the sum of their bounds.
///
/// A slice has less than 2^64 reasons and a bound is a number of 64 bits with a sign. So the sum of any list of reasons
/// stays below 2^127 either way, and 128 bits hold it exactly.
#[derive(Clone, Copy)]
pub(crate) struct Chain {
    pub(crate) ends: Option<ChainEnds>,
    pub(crate) unbroken: bool,
    pub(crate) sum: i128,
}

/// The left side of the first constraint, and the right side of the last.
#[derive(Clone, Copy)]
pub(crate) struct ChainEnds {
    pub(crate) first: u32,
    pub(crate) last: u32,
}

/// What the constraints of a cycle can be at fault for, in this order.
#[derive(Clone, Copy)]
pub(crate) enum ClosingFault {
    /// They do not chain into a cycle, or there are none.
    Unchained,
    /// The sum of their bounds is 0 or more.
    NotNegative,
}

impl From<ClosingFault> for BadStep {
    ghost use Rattle.std.specs.Prelude.{◌≡◌};
    ghost use Rattle.tfpg_kernel.specs.inside.Chains.{bad_of};

    ghost from_gives = { λ fault bad. bad ≡ bad_of fault };

    fn from(fault: ClosingFault) -> BadStep {
        match fault {
            ClosingFault::Unchained => BadStep::Unchained,
            ClosingFault::NotNegative => BadStep::NotNegative,
        }
    }
}

impl Chain {
    /// The chain without a constraint.
    pub(crate) const EMPTY: Chain = Chain {
        ends: None,
        unbroken: true,
        sum: 0,
    };

    /// The chain with one more constraint at its end.
    pub(crate) fn with(self, constraint: Constraint) -> Chain
        requires { HasMagnitudeUpTo (2 ^ 127 - 2 ^ 63) self.sum }
        ensures chain { result ≡ with_constraint self constraint }
        ensures small { (count : ℕ) →
            HasMagnitudeUpTo (count * 2 ^ 63) self.sum → HasMagnitudeUpTo ((count + 1) * 2 ^ 63) result.sum }
    {
        let sum = self.sum + i128::from(constraint.most);
        match self.ends {
            None => Chain {
                ends: Some(ChainEnds {
                    first: constraint.left,
                    last: constraint.right,
                }),
                unbroken: self.unbroken,
                sum,
            },
            Some(ends) => Chain {
                ends: Some(ChainEnds {
                    first: ends.first,
                    last: constraint.right,
                }),
                unbroken: self.unbroken && ends.last == constraint.left,
                sum,
            },
        }
    }

    /// The first fault of the whole cycle, where it has one.
    pub(crate) fn fault(self) -> Option<ClosingFault>
        ensures { result ≡ closing_fault self }
    {
        match self.ends {
            Some(ends) if self.unbroken && ends.first == ends.last => {
                if self.sum < 0 {
                    None
                } else {
                    Some(ClosingFault::NotNegative)
                }
            }
            _ => Some(ClosingFault::Unchained),
        }
    }
}
