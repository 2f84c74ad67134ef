//! The two forms of words that every text format uses.

ghost use Rattle.std.specs.Prelude.{◌≡◌, ◌<◌, ◌+◌, ◌*◌, ◌^◌, true};
ghost use Rattle.std.specs.Option.{SomeIff};
ghost use Rattle.std.specs.List.{list_all};
ghost use Rattle.std.specs.Char.{is_ascii_digit, digit_value, IsAsciiDigit};
ghost use Rattle.std.specs.Str.Parse.{digits_value};
ghost use Rattle.tfpg_base.specs.Words.{is_letter, is_name_byte, is_name, is_number, number_of, number_up_to};

use crate::LONGEST_NAME;

/// What a word says in the place of a number.
#[derive(Clone, Copy, PartialEq, Eq)]
pub enum Number {
    /// The number.
    Value(u64),
    /// The word is a number above the greatest that is asked for.
    TooLarge,
    /// The word is not of the form: `0`, or a digit from 1 to 9 and then digits.
    NotANumber,
}

/// Whether the word is a name: 1 to [`LONGEST_NAME`] letters, digits, underscores, dots and hyphens, of which the first is a
/// letter. Takes time linear in the length of the word, and no more than for
/// [`LONGEST_NAME`](crate::LONGEST_NAME) bytes.
pub fn read_name(word: &[u8]) -> bool
    ensures { result ≡ is_name word.now }
{
    match word {
        [] => false,
        [first, others @ ..] => {
            first.is_ascii_alphabetic() && others.len() < LONGEST_NAME && are_name_bytes(others)
        }
    }
}

fn are_name_bytes(bytes: &[u8]) -> bool
    ensures { result ≡ list_all is_name_byte bytes.now }
{
    bytes.iter().all(|byte| byte.is_ascii_alphanumeric() || matches!(byte, b'_' | b'.' | b'-'))
}

/// The number that the word spells, where it is of the form of a number and at most `most`. Takes time linear
/// in the length of the word, which may have any length.
pub fn read_number(word: &[u8], most: u64) -> Number
    ensures { result ≡ number_up_to most (number_of word.now) }
{
    if !is_number(word) {
        return Number::NotANumber;
    }
    match digits_value(word) {
        Some(value) if value <= most => Number::Value(value),
        _ => Number::TooLarge,
    }
}

fn is_number(word: &[u8]) -> bool
    ensures { result ≡ is_number word.now }
{
    match word {
        [] => false,
        [digit] => digit.is_ascii_digit(),
        [first, others @ ..] => *first != b'0' && first.is_ascii_digit() && are_digits(others),
    }
}

fn are_digits(bytes: &[u8]) -> bool
    ensures { result ≡ list_all is_ascii_digit bytes.now }
{
    bytes.iter().all(|byte| byte.is_ascii_digit())
}

/// The value of the digits, where a `u64` holds it.
fn digits_value(digits: &[u8]) -> Option<u64>
    requires { is_number digits.now ≡ true }
    ensures { SomeIff result (digits_value 10 digits.now < 2 ^ 64) (digits_value 10 digits.now) }
{
    let mut value: u64 = 0;
    for digit in digits {
        value = with_digit(value, *digit)?;
    }
    Some(value)
}

/// The value of digits with one more after them, where a `u64` holds it.
fn with_digit(value: u64, digit: u8) -> Option<u64>
    requires { IsAsciiDigit digit }
    ensures { SomeIff result (value * 10 + digit_value digit < 2 ^ 64) (value * 10 + digit_value digit) }
{
    value.checked_mul(10)?.checked_add(u64::from(digit - b'0'))
}
