//! The options whose values are numbers.

ghost use Rattle.std.specs.Prelude.{◌≡◌, ◌≤◌, IfOk};
ghost use Rattle.tfpg_base.specs.Words.{number_of};
ghost use Rattle.tfpg_words.specs.Meaning.{both, winning_cause, within};
ghost use Rattle.tfpg_words.specs.inside.Given.{first_value, number_given};
ghost use Rattle.tfpg_words.specs.inside.Parts.{rows_in};
ghost use Rattle.tfpg_words.specs.inside.Numbers.{option_in};

use crate::parts::Parts;
use crate::usage_cause::UsageCause;
use tfpg_base::{Number, read_number};

/// An option whose value is a number: its name without hyphens, its limits, and what it is where it is not used.
#[derive(Clone, Copy)]
pub(crate) struct NumberOption {
    pub(crate) name: &'static str,
    pub(crate) least: u64,
    pub(crate) limit: u64,
    pub(crate) default: u64,
}

impl NumberOption {
    /// The number that the option has in these parts.
    pub(crate) fn number_in(&self, parts: &Parts) -> Result<u64, UsageCause>
        ensures { result ≡ number_given (option_in self.now)
            (first_value self.now.name.now (rows_in parts.now)) }
    {
        match parts.value_of(self.name) {
            Some(value) => within(self.least, self.limit, value),
            None => Ok(self.default),
        }
    }
}

/// The number of the word, where it is from `least` to `limit`.
fn within(least: u64, limit: u64, word: &str) -> Result<u64, UsageCause>
    ensures { result ≡ within least limit (number_of word.now) }
{
    match read_number(word.as_bytes(), limit) {
        Number::NotANumber => Err(UsageCause::BadNumber),
        Number::Value(number) if number >= least => Ok(number),
        _ => Err(UsageCause::OutOfRange),
    }
}

/// Two values, or the first cause by which one of them is refused.
pub(crate) fn both<A: Copy, B: Copy>(
    first: Result<A, UsageCause>,
    second: Result<B, UsageCause>,
) -> Result<(A, B), UsageCause>
    ensures { result ≡ both first second }
{
    match (first, second) {
        (Ok(first), Ok(second)) => Ok((first, second)),
        (Ok(_), Err(cause)) => Err(cause),
        (Err(cause), Ok(_)) => Err(cause),
        (Err(cause), Err(other)) => Err(winning_cause(cause, other)),
    }
}

fn winning_cause(cause: UsageCause, other: UsageCause) -> UsageCause
    ensures { result ≡ winning_cause cause other }
{
    match cause {
        UsageCause::BadNumber => cause,
        _ => other,
    }
}
