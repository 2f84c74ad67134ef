//! The search for the end of a line that has not come whole.

ghost use Rattle.std.specs.Prelude.{◌≡◌, ◌<◌, ◌≤◌, ◌+◌, [], drop, length, None, Some, Ok};
ghost use Rattle.tfpg_base.specs.Lines.{HasNoLineEnd, CountsReadFault};
ghost use Rattle.tfpg_base.specs.declared.limits.TheConstants.{LONGEST_LINE, MAX_BYTES};
ghost use Rattle.tfpg_base.specs.inside.LineSearch.{GivesLast, Searched};

use super::{BufferRange, Lines, line_end};
use crate::{LONGEST_LINE, Line, LineFault, Source};

impl Lines {
    /// Takes bytes until the line that waits is whole, or there are no more.
    pub(super) fn read_line<S: Source>(&mut self, source: &mut S) -> Result<Line, LineFault>
        requires goes_on { self.old.ended ≡ None }
        requires part { HasNoLineEnd self.old.waiting }
        requires few { self.old.taken ≤ MAX_BYTES }
        ensures searched { Searched self.old (S.state source.old) (S.state source.new) result self.new }
        ensures counted { CountsReadFault result (S.state source.old) (S.state source.new) }
    {
        loop {
            let seen = self.waiting().len();
            if seen > LONGEST_LINE {
                return self.skip_line(source);
            }
            if self.refill(source)? == 0 {
                if self.give_last() {
                    return Ok(Line::Text);
                }
                return Ok(Line::End);
            }
            if let Some(more) = line_end(&self.waiting()[seen..]) {
                return Ok(self.give_whole(seen + more));
            }
        }
    }

    /// Takes bytes until the line that waits, and is too long to be kept, is passed.
    fn skip_line<S: Source>(&mut self, source: &mut S) -> Result<Line, LineFault>
        requires goes_on { self.old.ended ≡ None }
        requires part { HasNoLineEnd self.old.waiting }
        requires long { LONGEST_LINE < length self.old.waiting }
        requires few { self.old.taken ≤ MAX_BYTES }
        ensures searched { Searched self.old (S.state source.old) (S.state source.new) result self.new }
        ensures counted { CountsReadFault result (S.state source.old) (S.state source.new) }
    {
        loop {
            self.drop_waiting();
            if self.refill(source)? == 0 {
                self.pass_last();
                return Ok(Line::TooLong);
            }
            if let Some(count) = line_end(self.waiting()) {
                self.pass(count);
                return Ok(Line::TooLong);
            }
        }
    }

    /// Gives the bytes that wait as the last line, and returns whether there were some. From then on the end is returned.
    fn give_last(&mut self) -> bool
        requires { length self.old.waiting ≤ LONGEST_LINE }
        ensures given { GivesLast self.old result self.new }
        ensures taken { self.new.taken ≡ self.old.taken }
        ensures ended { self.new.ended ≡ Some (Ok Line.End) }
    {
        self.ended = Some(Ok(Line::End));
        self.text = self.waiting;
        self.waiting.start = self.waiting.end;
        if self.text.start == self.text.end {
            return false;
        }
        self.number += 1;
        true
    }

    /// Drops the bytes that wait: they are part of a line that is too long.
    fn drop_waiting(&mut self)
        ensures waiting { self.new.waiting ≡ [] }
        ensures number { self.new.number ≡ self.old.number }
        ensures taken { self.new.taken ≡ self.old.taken }
        ensures ended { self.new.ended ≡ self.old.ended }
        ensures lines { self.old.number + length self.old.waiting ≤ self.old.taken }
    {
        self.waiting = BufferRange::NONE;
    }

    /// Passes so many of the bytes that wait and the line end after them, as the rest of a line that is too long.
    fn pass(&mut self, count: usize)
        requires { count < length self.old.waiting }
        ensures waiting { self.new.waiting ≡ drop (count + 1) self.old.waiting }
        ensures text { self.new.text ≡ [] }
        ensures number { self.new.number ≡ self.old.number + 1 }
        ensures taken { self.new.taken ≡ self.old.taken }
        ensures ended { self.new.ended ≡ self.old.ended }
    {
        self.text = BufferRange::NONE;
        self.waiting.start += count + 1;
        self.number += 1;
    }

    /// Counts a last line that is too long. From then on the end is returned.
    fn pass_last(&mut self)
        requires { self.old.number < self.old.taken }
        ensures text { self.new.text ≡ [] }
        ensures number { self.new.number ≡ self.old.number + 1 }
        ensures taken { self.new.taken ≡ self.old.taken }
        ensures ended { self.new.ended ≡ Some (Ok Line.End) }
    {
        self.ended = Some(Ok(Line::End));
        self.text = BufferRange::NONE;
        self.waiting = BufferRange::NONE;
        self.number += 1;
    }
}
