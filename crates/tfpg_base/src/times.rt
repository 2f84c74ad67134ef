//! The earlier of two times.

ghost use Rattle.std.specs.Prelude.{◌≡◌};
ghost use Rattle.tfpg_base.specs.Choice.{earlier};

/// The earlier of two times in milliseconds, where both are there, and else the one that is.
pub fn earlier(one: Option<u64>, other: Option<u64>) -> Option<u64>
    ensures { result ≡ earlier one other }
{
    match (one, other) {
        (Some(first), Some(second)) => Some(first.min(second)),
        (Some(first), None) => Some(first),
        (None, _) => other,
    }
}
