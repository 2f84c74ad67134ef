//! Bytes as lines.
//!
//! [`Lines`] keeps the bytes that it took in one buffer, and lends each line as a part of it. The bytes after the
//! last line returned wait in the buffer. A line that is too long for the buffer is passed in pieces.

ghost use Rattle.std.specs.Prelude.{◌≡◌, ◌<◌, ◌≤◌, ◌+◌, [], ℕ, List, take, drop, length, slice_range, IfOk, IfNone, IfSome};
ghost use Rattle.tfpg_base.specs.Lines.{Reading, new_reading, LinesRepresent, Continues, HasNoLineEnd};
ghost use Rattle.tfpg_base.specs.inside.LineSearch.{IsAtLineEnd, returned_line, lent_of};

mod refill;
mod search;

use crate::{BUFFER_SIZE, LONGEST_LINE, Line, LineFault, NoMemory, Source};
use std::alloc::Global;
use std::marker::Model;

/// A part of the buffer, from the one index up to before the other.
#[derive(Clone, Copy)]
struct BufferRange {
    start: usize,
    end: usize,
}

impl BufferRange {
    /// A part with no byte.
    const NONE: BufferRange = BufferRange { start: 0, end: 0 };
}

/// Cuts the bytes of one source into lines.
///
/// It keeps a buffer of [`BUFFER_SIZE`](crate::BUFFER_SIZE) bytes. The cost of all calls together is linear in the bytes.
#[derive(Drop)]
pub struct Lines {
    buffer: Vec<u8>,
    waiting: BufferRange,
    text: BufferRange,
    number: u64,
    taken: u64,
    ended: Option<Result<Line, LineFault>>,
}

impl Model for Lines {
    ghost use Rattle.tfpg_base.specs.Lines.{LinesState};

    ghost Value = { LinesState };

    ghost use Rattle.tfpg_base.specs.inside.Buffer.{lines_state_of, IsInPlace};

    ghost view = { lines_state_of };

    ghost invariant = { IsInPlace };
}

impl Lines {
    /// A reader that has taken nothing. It takes its whole buffer now, and no memory later.
    pub fn new(alloc: Global) -> Result<Lines, NoMemory>
        ensures unread { IfOk result (λ lines. LinesRepresent lines new_reading) }
        ensures empty { IfOk result (λ lines. lines.text ≡ []) }
    {
        Ok(Lines {
            buffer: vec![in alloc; 0; BUFFER_SIZE]?,
            waiting: BufferRange::NONE,
            text: BufferRange::NONE,
            number: 0,
            taken: 0,
            ended: None,
        })
    }

    /// Moves to the next line. The lines are those of all the bytes that the calls of one reader take, in order.
    ///
    /// Bytes are taken only where no whole line is left in the buffer, and no piece more than the line needs. After the
    /// end, and after a fault, each later call returns the same and leaves the source alone. A last line without a line end
    /// is returned once the source has ended, and then the source is not asked again.
    ///
    /// # Errors
    ///
    /// `ReadFault` where the source failed, `TooMuchInput` where [`MAX_BYTES`](crate::MAX_BYTES) bytes were taken, no
    /// line is left that ends in them, and the source gives one more byte.
    pub fn next<S: Source>(&mut self, source: &mut S) -> Result<Line, LineFault>
        ensures { (reading : Reading) → LinesRepresent self.old reading
            → Continues reading reading.ended (S.state source.old) (S.state source.new) result self.new }
    {
        if let Some(ending) = self.ended {
            self.text = BufferRange::NONE;
            return ending;
        }
        match line_end(self.waiting()) {
            Some(count) => Ok(self.give_whole(count)),
            None => self.read_line(source),
        }
    }

    /// The line, without its line end; empty where the last call of `next` did not return `Text`.
    pub fn text(&self) -> &[u8]
        ensures { result.now ≡ self.now.text }
    {
        &self.buffer[self.text.start..self.text.end]
    }

    /// The number of the last line, from 1; 0 before the first.
    pub fn number(&self) -> u64
        ensures { result ≡ self.now.number }
    {
        self.number
    }

    /// The bytes after the lines that were returned.
    fn waiting(&self) -> &[u8]
        ensures { result.now ≡ self.now.waiting }
    {
        &self.buffer[self.waiting.start..self.waiting.end]
    }

    /// Returns so many of the bytes that wait as a line, and passes the line end after them.
    fn give_whole(&mut self, count: usize) -> Line
        requires { count < length self.old.waiting }
        ensures kind { result ≡ returned_line (take count self.old.waiting) }
        ensures waiting { self.new.waiting ≡ drop (count + 1) self.old.waiting }
        ensures text { self.new.text ≡ lent_of (take count self.old.waiting) }
        ensures number { self.new.number ≡ self.old.number + 1 }
        ensures taken { self.new.taken ≡ self.old.taken }
        ensures ended { self.new.ended ≡ self.old.ended }
    {
        self.text = lent(self.waiting.start, count);
        self.waiting.start += count + 1;
        self.number += 1;
        line_of_length(count)
    }
}

/// Where the first byte that ends a line stands.
fn line_end(bytes: &[u8]) -> Option<usize>
    ensures none { IfNone result (HasNoLineEnd bytes.now) }
    ensures some { IfSome result (IsAtLineEnd bytes.now) }
{
    bytes.iter().position(|byte| *byte == b'\n')
}

/// What is returned at a line of so many bytes.
fn line_of_length(count: usize) -> Line
    ensures { (line : List ℕ) → length line ≡ count → result ≡ returned_line line }
{
    if count <= LONGEST_LINE {
        Line::Text
    } else {
        Line::TooLong
    }
}

/// Where the text of a line of so many bytes stands: nowhere for one that is too long.
fn lent(start: usize, count: usize) -> BufferRange
    requires { start + count ≤ BUFFER_SIZE }
    ensures index { result.start ≤ result.end }
    ensures within { result.end ≤ start + count }
    ensures text { (bytes : List ℕ) → start + count ≤ length bytes
        → slice_range bytes result.start result.end ≡ lent_of (slice_range bytes start (start + count)) }
{
    let end = if count <= LONGEST_LINE {
        start + count
    } else {
        start
    };
    BufferRange { start, end }
}
