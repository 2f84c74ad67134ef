//! Taking bytes from the source into the buffer.

ghost use Rattle.std.specs.Prelude.{◌≡◌, ◌<◌, ◌≤◌, ◌+◌, ◌-◌, take, length, slice_range, vec_len, IfOk, OnErr, Ok};
ghost use Rattle.tfpg_base.specs.Outside.{Rose, Takes, IsAtEnd};
ghost use Rattle.tfpg_base.specs.Lines.{CountsReadFault};
ghost use Rattle.tfpg_base.specs.declared.limits.TheConstants.{LONGEST_LINE, MAX_BYTES};
ghost use Rattle.tfpg_base.specs.inside.LineSearch.{Refilled};

use super::{BufferRange, Lines};
use crate::{BUFFER_SIZE, Failed, LineFault, MAX_BYTES, Source};

impl Lines {
    /// Takes further bytes, and returns how many: none where the source has ended. A fault ends the reader.
    pub(super) fn refill<S: Source>(&mut self, source: &mut S) -> Result<usize, LineFault>
        requires short { length self.old.waiting ≤ LONGEST_LINE }
        requires few { self.old.taken ≤ MAX_BYTES }
        ensures refilled { Refilled self.old (S.state source.old) (S.state source.new) result self.new }
        ensures counted { CountsReadFault result (S.state source.old) (S.state source.new) }
    {
        self.text = BufferRange::NONE;
        self.waiting = with_room(&mut self.buffer, self.waiting);
        let from = self.waiting.end;
        let to = from + wanted(self.taken, BUFFER_SIZE - from);
        match take_into(source, &mut self.buffer, from, to) {
            Err(Failed) => {
                self.ended = Some(Err(LineFault::ReadFault));
                Err(LineFault::ReadFault)
            }
            Ok(count) => {
                self.waiting.end += count;
                self.taken += count as u64;
                if self.taken > MAX_BYTES {
                    self.ended = Some(Err(LineFault::TooMuchInput));
                    return Err(LineFault::TooMuchInput);
                }
                Ok(count)
            }
        }
    }
}

/// The part with the bytes that wait, once there is a free byte after them. They are moved to the front of the buffer
/// where there was none, and where no byte waits.
fn with_room(buffer: &mut Vec<u8>, waiting: BufferRange) -> BufferRange
    requires room { vec_len buffer.old ≡ BUFFER_SIZE }
    requires order { waiting.start ≤ waiting.end }
    requires within { waiting.end ≤ BUFFER_SIZE }
    requires short { waiting.end < waiting.start + BUFFER_SIZE }
    ensures room { vec_len buffer.new ≡ vec_len buffer.old }
    ensures order { result.start ≤ result.end }
    ensures within { result.end < BUFFER_SIZE }
    ensures same { slice_range buffer.new.items result.start result.end ≡
        slice_range buffer.old.items waiting.start waiting.end }
{
    if waiting.start < waiting.end && waiting.end < BUFFER_SIZE {
        return waiting;
    }
    buffer.copy_within(waiting.start..waiting.end, 0);
    BufferRange {
        start: 0,
        end: waiting.end - waiting.start,
    }
}

/// How many bytes to take at most: one where no more may be taken, to see whether there are more.
fn wanted(taken: u64, free: usize) -> usize
    requires few { taken ≤ MAX_BYTES }
    requires some { 0 < free }
    ensures some { 0 < result }
    ensures within { result ≤ free }
    ensures few { taken < MAX_BYTES → taken + result ≤ MAX_BYTES }
    ensures one { taken ≡ MAX_BYTES → result ≡ 1 }
    ensures all { taken + free ≤ MAX_BYTES → result ≡ free }
{
    let left = MAX_BYTES - taken;
    if left < free as u64 {
        (left as usize).max(1)
    } else {
        free
    }
}

/// Takes bytes into the buffer from the one index up to before the other, and returns how many.
fn take_into<S: Source>(
    source: &mut S,
    buffer: &mut Vec<u8>,
    from: usize,
    to: usize,
) -> Result<usize, Failed>
    requires some { from < to }
    requires within { to ≤ vec_len buffer.old }
    ensures room { vec_len buffer.new ≡ vec_len buffer.old }
    ensures front { take from buffer.new.items ≡ take from buffer.old.items }
    ensures within { IfOk result (λ count. count ≤ to - from) }
    ensures taken { IfOk result (λ count.
        Takes (S.state source.old) (S.state source.new) (slice_range buffer.new.items from (from + count))) }
    ensures no_fault { IfOk result (λ count. (S.state source.new).faults ≡ (S.state source.old).faults) }
    ensures end { result ≡ Ok 0 → IsAtEnd (S.state source.new) }
    ensures failed { OnErr result (Rose (S.state source.old).faults (S.state source.new).faults) }
    ensures nothing_taken { OnErr result ((S.state source.new).left ≡ (S.state source.old).left) }
{
    source.take(&mut buffer[from..to])
}
