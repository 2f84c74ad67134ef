//! One alternative of a clause.

ghost use Rattle.std.specs.Prelude.{◌≡◌};
ghost use Rattle.tfpg_base.specs.Choice.{item_at};
ghost use Rattle.tfpg_clause.specs.inside.Alternatives.{constraints_in};

use tfpg_base::Constraint;

/// The constraints of an alternative, in order.
#[derive(Clone, Copy)]
pub(crate) enum Alternative {
    /// A bound of one node, or of the distance of two.
    One(Constraint),
    /// The failure arrives by an edge: the least delay after its source, and within the span.
    Arrival([Constraint; 3]),
}

/// The constraint with this number in the alternative, numbered from 1, where there is one.
pub(crate) fn constraint_in(alternative: Alternative, number: u32) -> Option<Constraint>
    ensures { result ≡ item_at (constraints_in alternative) number }
{
    let index = number.checked_sub(1)? as usize;
    match alternative {
        Alternative::One(constraint) => [constraint].get(index).copied(),
        Alternative::Arrival(constraints) => constraints.get(index).copied(),
    }
}
