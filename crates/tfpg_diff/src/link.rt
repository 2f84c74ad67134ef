//! What the value of a number comes from.

ghost use Rattle.std.specs.Prelude.{◌≡◌, ◌<◌, ◌≤◌, length};
ghost use Rattle.tfpg_diff.specs.Demands.{demands_of};
ghost use Rattle.tfpg_diff.specs.inside.Kept.{IsSound};
ghost use Rattle.tfpg_diff.specs.inside.Linked.{demand_of_link, IsLinkInto};

use crate::bounds::Bounds;
use crate::demand::{Demand, ceiling_of, demand_of_pick};
use crate::pick::Pick;

/// The demand that the value of a variable comes from. The demand itself is looked up among the bounds and the picks.
#[derive(Clone, Copy, PartialEq, Eq)]
pub(crate) enum Link {
    /// Its upper bound.
    Ceiling,
    /// The pick at this index of the stack.
    Picked(u32),
}

/// The demand that the link of a variable stands for. The number is that of the variable.
pub(crate) fn demand_of_link(bounds: &[Bounds], picks: &[Pick], number: u32, link: Link) -> Demand
    requires sound { IsSound (demands_of bounds.now picks.now) }
    requires variable { 0 < number }
    requires inside { number ≤ length bounds.now }
    requires picked { IsLinkInto picks.now link }
    ensures { result ≡ demand_of_link (demands_of bounds.now picks.now) number link }
{
    match link {
        Link::Ceiling => ceiling_of(number - 1, bounds[number as usize - 1]),
        Link::Picked(index) => demand_of_pick(&picks[index as usize]),
    }
}
