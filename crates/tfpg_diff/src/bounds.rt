//! The bounds of one variable.

ghost use Rattle.std.specs.Prelude.{◌≡◌, ◌<◌, IfOk};
ghost use Rattle.tfpg_base.specs.declared.limits.TheConstants.{NEVER};
ghost use Rattle.tfpg_diff.specs.declared.why.Why.TheVariants.{Given};
ghost use Rattle.tfpg_diff.specs.SystemState.{widest, unbounded_from};

use crate::why::Why;
use std::alloc::{AllocError, Global};
use std::marker::Model;
use tfpg_base::NEVER;

/// The greatest lower bound and the least upper bound of a variable so far, in milliseconds, each with the tag of the
/// call that set it.
///
/// A bound that no call tightened is known by its value, so its variable stands in place of a tag. There is one of these for every
/// node of each search that is kept.
#[derive(Clone, Copy)]
pub struct Bounds {
    floor: u64,
    floor_number: u64,
    ceiling: u64,
    ceiling_number: u64,
}

const _: () = prove!(size_of::<Bounds>() == 32);

impl Model for Bounds {
    ghost use Rattle.std.specs.Prelude.{◌≡◌, ◌<◌, ◌^◌};
    ghost use Rattle.tfpg_base.specs.declared.limits.TheConstants.{NEVER};
    ghost use Rattle.tfpg_diff.specs.VariableBounds.{VariableBounds};
    ghost use Rattle.tfpg_diff.specs.inside.KeptBounds.{floor_named, ceiling_named, number_of, number_of-floor, number_of-ceiling};

    ghost Value = { VariableBounds };

    ghost view = { λ bounds. record {
      floor = bounds.floor;
      floor_why = floor_named bounds.floor bounds.floor_number;
      ceiling = bounds.ceiling;
      ceiling_why = ceiling_named bounds.ceiling bounds.ceiling_number;
    } };

    ghost invariant = { λ bounds.
        (bounds.floor ≡ 0 → bounds.floor_number < 2 ^ 32) × (bounds.ceiling ≡ NEVER → bounds.ceiling_number < 2 ^ 32) };

    ghost inverse = { λ bounds. record {
      floor = bounds.floor;
      floor_number = number_of bounds.floor_why;
      ceiling = bounds.ceiling;
      ceiling_number = number_of bounds.ceiling_why;
    } };

    ghost inverse_ok = { λ bounds small i. record {
      floor = bounds.floor;
      floor_number = number_of-floor bounds.floor bounds.floor_number i;
      ceiling = bounds.ceiling;
      ceiling_number = number_of-ceiling bounds.ceiling bounds.ceiling_number i;
    } };
}

impl Bounds {
    /// The greatest lower bound.
    pub fn floor(self) -> u64
        ensures { result ≡ self.floor }
    {
        self.floor
    }

    /// The least upper bound.
    pub fn ceiling(self) -> u64
        ensures { result ≡ self.ceiling }
    {
        self.ceiling
    }

    /// The tag of the lower bound.
    pub fn floor_why(self) -> Why
        ensures { result ≡ self.floor_why }
    {
        if self.floor == 0 {
            Why::Floor(self.floor_number as u32)
        } else {
            Why::Given(self.floor_number)
        }
    }

    /// The tag of the upper bound.
    pub fn ceiling_why(self) -> Why
        ensures { result ≡ self.ceiling_why }
    {
        if self.ceiling == NEVER {
            Why::Ceiling(self.ceiling_number as u32)
        } else {
            Why::Given(self.ceiling_number)
        }
    }

    /// The bounds with this lower bound, which is above 0.
    pub(crate) fn with_floor(self, least: u64, tag: u64) -> Bounds
        requires { 0 < least }
        ensures { result ≡ record self { floor = least; floor_why = Given tag } }
    {
        Bounds {
            floor: least,
            floor_number: tag,
            ..self
        }
    }

    /// The bounds with this upper bound, which is in the range of milliseconds.
    pub(crate) fn with_ceiling(self, most: u64, tag: u64) -> Bounds
        requires { most < NEVER }
        ensures { result ≡ record self { ceiling = most; ceiling_why = Given tag } }
    {
        Bounds {
            ceiling: most,
            ceiling_number: tag,
            ..self
        }
    }
}

/// The bounds of a variable of which nothing is known.
fn widest_bounds(variable: u32) -> Bounds
    ensures { result ≡ widest variable }
{
    Bounds {
        floor: 0,
        floor_number: u64::from(variable),
        ceiling: NEVER,
        ceiling_number: u64::from(variable),
    }
}

/// The bounds of so many variables of which nothing is known.
pub(crate) fn unbounded(alloc: Global, count: u32) -> Result<Vec<Bounds>, AllocError>
    ensures { IfOk result (λ bounds. bounds.items ≡ unbounded_from 0 count) }
{
    let mut bounds = Vec::with_capacity(alloc, count as usize)?;
    for variable in 0..count {
        bounds.push(widest_bounds(variable))?;
    }
    Ok(bounds)
}
