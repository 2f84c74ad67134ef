//! A source that fails at chosen calls.

ghost use Rattle.std.specs.Prelude.{◌≡◌, ◌<◌, ◌↔◌, [], false, length, IsErr, IfOk, OnErr, Ok};
ghost use Rattle.tfpg_base.specs.Outside.{Rose};
ghost use Rattle.tfpg_base.specs.Memory.{FailsNext, count_given, after_take, filled};

use super::bytes_left::BytesLeft;
use super::failing_calls::FailingCalls;
use crate::{Failed, Source};
use std::marker::Model;

/// Bytes at hand as a source that gives a limited number of them in a call, and fails at chosen calls.
#[derive(Drop)]
pub struct MemorySource<'a> {
    bytes: BytesLeft<'a>,
    limit: usize,
    calls: FailingCalls<'a>,
}

impl<'a> Model for MemorySource<'a> {
    ghost use Rattle.std.specs.Prelude.{◌<◌};
    ghost use Rattle.tfpg_base.specs.Memory.{MemorySourceState};

    ghost Value = { MemorySourceState };

    ghost view = { λ source. record {
      left = source.bytes.left.now;
      limit = source.limit;
      failing = source.calls.failing.now;
      calls = source.calls.calls;
      faults = source.calls.faults.count;
      ended = source.bytes.ended;
    } };

    ghost invariant = { λ source. 0 < source.limit };
}

impl<'a> MemorySource<'a> {
    /// A source of these bytes, which gives at most `limit` of them in a call, and fails at the calls with these
    /// numbers. Takes no memory.
    pub fn new(bytes: &'a [u8], limit: usize, failing: &'a [u64]) -> MemorySource<'a>
        requires { 0 < limit }
        ensures { result ≡ record {
          left = bytes.now;
          limit = limit;
          failing = failing.now;
          calls = 0;
          faults = 0;
          ended = false;
        } }
    {
        MemorySource {
            bytes: BytesLeft::new(bytes),
            limit,
            calls: FailingCalls::new(failing),
        }
    }

    /// The bytes that are left.
    pub fn left(&self) -> &[u8]
        ensures { result.now ≡ self.now.left }
    {
        self.bytes.left
    }

    /// How often taking has failed.
    pub fn faults(&self) -> u64
        ensures { result ≡ self.now.faults }
    {
        self.calls.faults.count
    }

    /// Writes the next bytes to the front of the buffer, and returns how many, as [`Source::take`] does. It fails
    /// exactly at the chosen calls.
    pub fn take(&mut self, room: &mut [u8]) -> Result<usize, Failed>
        ensures fails { IsErr result ↔ FailsNext self.old.failing self.old.calls }
        ensures given { IfOk result (λ count. count ≡ count_given self.old (length room.old)) }
        ensures now { self.new ≡ after_take self.old (length room.old) result }
        ensures room { room.new ≡ filled self.old.left room.old result }
        ensures end { result ≡ Ok 0 → 0 < length room.old → self.old.left ≡ [] }
        ensures rises { OnErr result (Rose self.old.faults self.new.faults) }
    {
        if self.calls.next_fails() {
            self.calls.raise();
            return Err(Failed);
        }
        Ok(self.bytes.give(room, self.limit))
    }
}

impl<'a> Source for MemorySource<'a> {
    ghost use Rattle.std.specs.Prelude.{Some};

    ghost state = { λ source. record {
      left = Some source.left;
      ended = source.ended;
      faults = source.faults;
    } };

    fn take(&mut self, room: &mut [u8]) -> Result<usize, Failed> {
        MemorySource::take(self, room)
    }
}
