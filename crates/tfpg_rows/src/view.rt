//! Which part of what a run wrote is shown.

use crate::bytes::{number_of, words_of};
use std::alloc::Global;
use tfpg_base::NoMemory;

/// Of lines that begin with this word so many words are shown.
#[derive(Drop)]
struct Cut {
    word: Vec<u8>,
    count: u64,
}

/// Which part of what a run wrote is shown.
#[derive(Drop)]
pub(crate) struct View {
    cuts: Vec<Cut>,
    last: Option<u64>,
}

impl View {
    /// All is shown.
    pub(crate) fn new(alloc: Global) -> View {
        View {
            cuts: Vec::new(alloc),
            last: None,
        }
    }

    /// Of lines that begin with one of these words only so many words are shown: the number comes first.
    pub(crate) fn cut(&mut self, alloc: Global, words: &[&[u8]]) -> Result<(), NoMemory> {
        if let Some((count, words)) = words.split_first() {
            for word in words {
                self.cuts.push(Cut {
                    word: Vec::from_slice(alloc, word)?,
                    count: number_of(count),
                })?;
            }
        }
        Ok(())
    }

    /// Only so many of the last lines are shown.
    pub(crate) fn keep_last(&mut self, count: u64) {
        self.last = Some(count);
    }

    /// What is shown of what was written.
    pub(crate) fn shown(&self, alloc: Global, written: &[u8]) -> Result<Vec<u8>, NoMemory> {
        let mut shown = Vec::new(alloc);
        for line in written.split_inclusive(|byte| *byte == b'\n') {
            match self.cut_of(line) {
                None => shown.extend_from_slice(line)?,
                Some(count) => append_front(alloc, line, count, &mut shown)?,
            }
        }
        Ok(shown)
    }

    /// How many of so many lines are left out.
    pub(crate) fn left_out(&self, lines: u64) -> u64 {
        match self.last {
            None => 0,
            Some(count) => lines.saturating_sub(count),
        }
    }

    /// How many words are shown of this line, where not all are.
    fn cut_of(&self, line: &[u8]) -> Option<u64> {
        for cut in &self.cuts {
            if begins_with(line, &cut.word) {
                return Some(cut.count);
            }
        }
        None
    }
}

/// Whether this is the first word of the line.
fn begins_with(line: &[u8], word: &[u8]) -> bool {
    match line.strip_prefix(word) {
        None => false,
        Some(others) => others.starts_with(b" ") || others.starts_with(b"\n"),
    }
}

/// Appends the first so many words of the line, and two dots for the others.
fn append_front(
    alloc: Global,
    line: &[u8],
    count: u64,
    into: &mut Vec<u8>,
) -> Result<(), NoMemory> {
    if count == 0 {
        return Ok(());
    }
    let mut left = count;
    for word in &words_of(alloc, line)? {
        if left == 0 {
            break;
        }
        into.extend_from_slice(word)?;
        into.push(b' ')?;
        left -= 1;
    }
    into.extend_from_slice(b"..\n")?;
    Ok(())
}
