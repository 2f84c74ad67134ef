//! How a line spells bytes, and how numbers and words stand in it.

ghost use Rattle.std.specs.Prelude.{◌<◌};

use itoa::Buffer;
use std::alloc::Global;
use tfpg_base::{NoMemory, Number, read_number};

/// Appends the bytes that the text spells, and says whether a line end stands after them.
///
/// `\xNN` spells the byte of this number in base 16, and `\#` the number of the line among its repetitions. A backslash at the end
/// says that there is no line end.
pub(crate) fn append_spelled(
    text: &[u8],
    number: u64,
    into: &mut Vec<u8>,
) -> Result<bool, NoMemory> {
    let mut is_line = true;
    let mut is_first = true;
    for part in text.split(|byte| *byte == b'\\') {
        if is_first {
            into.extend_from_slice(part)?;
        } else {
            is_line = append_after_backslash(part, number, into)?;
        }
        is_first = false;
    }
    Ok(is_line)
}

/// Appends what stands after a backslash, and says whether a line end stands after it.
fn append_after_backslash(part: &[u8], number: u64, into: &mut Vec<u8>) -> Result<bool, NoMemory> {
    match part {
        [] => Ok(false),
        [b'#', others @ ..] => {
            append_number(number, into)?;
            into.extend_from_slice(others)?;
            Ok(true)
        }
        [b'x', high, low, others @ ..] => {
            into.push(digit_value(*high) * 16 + digit_value(*low))?;
            into.extend_from_slice(others)?;
            Ok(true)
        }
        others => {
            into.push(b'\\')?;
            into.extend_from_slice(others)?;
            Ok(true)
        }
    }
}

/// The value of a digit of base 16: 0 where it is none.
fn digit_value(digit: u8) -> u8
    ensures { result < 16 }
{
    match digit {
        b'0'..=b'9' => digit - b'0',
        b'a'..=b'f' => digit - b'a' + 10,
        _ => 0,
    }
}

/// The words of a line.
pub(crate) fn words_of<'a>(alloc: Global, line: &'a [u8]) -> Result<Vec<&'a [u8]>, NoMemory> {
    let mut words = Vec::new(alloc);
    for word in line.split(|byte| *byte == b' ') {
        words.push(word)?;
    }
    Ok(words)
}

/// The text that a word spells, where it spells one.
pub(crate) fn text_of(alloc: Global, word: &[u8]) -> Result<Option<String>, NoMemory> {
    let mut bytes = Vec::new(alloc);
    append_spelled(word, 1, &mut bytes)?;
    match str::from_utf8(&bytes) {
        Ok(text) => Ok(Some(String::from_str(alloc, text)?)),
        Err(_) => Ok(None),
    }
}

/// The texts that the words spell. A word that spells none is left out.
pub(crate) fn texts_of(alloc: Global, words: &[&[u8]]) -> Result<Vec<String>, NoMemory> {
    let mut texts = Vec::new(alloc);
    for word in words {
        if let Some(text) = text_of(alloc, word)? {
            texts.push(text)?;
        }
    }
    Ok(texts)
}

/// The number that a word is: 0 where it is none.
pub(crate) fn number_of(word: &[u8]) -> u64 {
    match read_number(word, u64::MAX) {
        Number::Value(number) => number,
        Number::TooLarge | Number::NotANumber => 0,
    }
}

/// The numbers that the words are.
pub(crate) fn numbers_of(alloc: Global, words: &[&[u8]]) -> Result<Vec<u64>, NoMemory> {
    let mut numbers = Vec::new(alloc);
    for word in words {
        numbers.push(number_of(word))?;
    }
    Ok(numbers)
}

/// Appends a number.
pub(crate) fn append_number(number: u64, into: &mut Vec<u8>) -> Result<(), NoMemory> {
    let mut digits = Buffer::new();
    into.extend_from_slice(digits.format(number).as_bytes())?;
    Ok(())
}
