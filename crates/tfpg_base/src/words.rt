//! The words of a line.

ghost use Rattle.std.specs.Prelude.{◌≡◌, ◌<◌, ◌⊎◌, ◌==◌, false, length, map, IfOk, IsTrue, MatchOption};
ghost use Rattle.std.specs.List.{list_any};
ghost use Rattle.tfpg_base.specs.declared.limits.TheConstants.{MAX_WORDS};
ghost use Rattle.tfpg_base.specs.Words.{comma_parts, has_empty_word, words_of};

use crate::{MAX_WORDS, NoMemory};
use std::alloc::Global;
use std::marker::Model;

/// The words of a line that has at most [`MAX_WORDS`]. Contracts see them as the list of their bytes.
#[derive(Drop)]
pub struct Words<'a> {
    items: [&'a [u8]; MAX_WORDS],
    count: usize,
}

impl<'a> Model for Words<'a> {
    ghost use Rattle.std.specs.Prelude.{◌≤◌, ℕ, List, map, take};
    ghost use Rattle.tfpg_base.specs.declared.limits.TheConstants.{MAX_WORDS};

    ghost Value = { List (List ℕ) };

    ghost view = { λ words. map (λ word. word.now) (take words.count words.items) };

    ghost invariant = { λ words. words.count ≤ MAX_WORDS };
}

impl<'a> Words<'a> {
    /// The words of the line, or None where it has more than [`MAX_WORDS`]. Takes no memory, and time linear in
    /// the length of the line.
    pub fn of(line: &'a [u8]) -> Option<Words<'a>>
        ensures { MatchOption result (MAX_WORDS < length (words_of line.now))
            (λ words. words ≡ words_of line.now) }
    {
        let mut items: [&[u8]; MAX_WORDS] = [&[]; MAX_WORDS];
        let mut count = 0;
        for word in line.split(|byte| *byte == b' ') {
            if count == MAX_WORDS {
                return None;
            }
            items[count] = word;
            count += 1;
        }
        Some(Words { items, count })
    }

    /// The words of the line, or None where one of them is empty, or where it has more than [`MAX_WORDS`]. Takes no
    /// memory, and time linear in the length of the line.
    pub fn filled(line: &'a [u8]) -> Option<Words<'a>>
        ensures { MatchOption result
            (IsTrue (has_empty_word (words_of line.now)) ⊎ (MAX_WORDS < length (words_of line.now)))
            (λ words. (words ≡ words_of line.now) × (has_empty_word (words_of line.now) ≡ false)) }
    {
        let words = Words::of(line)?;
        if has_empty_word(words.as_slice()) {
            return None;
        }
        Some(words)
    }

    /// The words, of which a line has at least one.
    pub fn as_slice(&self) -> &[&'a [u8]]
        ensures { map (λ word. word.now) result.now ≡ self.now }
    {
        &self.items[..self.count]
    }
}

/// Whether one of the words is empty, as one is where a line has a space at an end, or two in a row.
fn has_empty_word(words: &[&[u8]]) -> bool
    ensures { result ≡ has_empty_word (map (λ word. word.now) words.now) }
{
    any_is_empty(words)
}

fn any_is_empty(words: &[&[u8]]) -> bool
    ensures { result ≡ list_any (λ word. length word.now == 0) words.now }
{
    words.iter().any(|word| word.is_empty())
}

/// The parts of a word round its commas. Takes memory for them, and time linear in the length of the word.
pub fn parts_at_commas<'a>(alloc: Global, word: &'a [u8]) -> Result<Vec<&'a [u8]>, NoMemory>
    ensures { IfOk result (λ parts. map (λ part. part.now) parts.items ≡ comma_parts word.now) }
{
    let mut parts = Vec::new(alloc);
    for part in word.split(|byte| *byte == b',') {
        parts.push(part)?;
    }
    Ok(parts)
}
