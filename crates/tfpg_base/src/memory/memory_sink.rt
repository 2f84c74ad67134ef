//! A sink that keeps its bytes, and fails at chosen calls.

ghost use Rattle.std.specs.Prelude.{◌≡◌, ◌<◌, ◌↔◌, [], min, length, IsErr, IfOk, OnErr};
ghost use Rattle.tfpg_base.specs.Outside.{Rose};
ghost use Rattle.tfpg_base.specs.Memory.{FailsNext, after_put};

use super::failing_calls::FailingCalls;
use crate::{Failed, Sink};
use std::alloc::Global;
use std::marker::Model;

/// A sink that keeps its bytes, takes a limited number of them in a call, and fails at chosen calls and where it runs out
/// of memory.
#[derive(Drop)]
pub struct MemorySink<'a> {
    bytes: Vec<u8>,
    limit: usize,
    calls: FailingCalls<'a>,
}

impl<'a> Model for MemorySink<'a> {
    ghost use Rattle.std.specs.Prelude.{◌<◌};
    ghost use Rattle.tfpg_base.specs.Memory.{MemorySinkState};

    ghost Value = { MemorySinkState };

    ghost view = { λ sink. record {
      holds = sink.bytes.items;
      limit = sink.limit;
      failing = sink.calls.failing.now;
      calls = sink.calls.calls;
      faults = sink.calls.faults.count;
    } };

    ghost invariant = { λ sink. 0 < sink.limit };
}

impl<'a> MemorySink<'a> {
    /// A sink that holds nothing yet, takes at most `limit` bytes in a call, and fails at the calls with these
    /// numbers, and where it runs out of memory. Takes no memory.
    pub fn new(alloc: Global, limit: usize, failing: &'a [u64]) -> MemorySink<'a>
        requires { 0 < limit }
        ensures { result ≡ record {
          holds = [];
          limit = limit;
          failing = failing.now;
          calls = 0;
          faults = 0;
        } }
    {
        MemorySink {
            bytes: Vec::new(alloc),
            limit,
            calls: FailingCalls::new(failing),
        }
    }

    /// All the bytes so far.
    pub fn bytes(&self) -> &[u8]
        ensures { result.now ≡ self.now.holds }
    {
        &self.bytes
    }

    /// All the bytes so far, which are moved out. Takes no memory.
    pub fn into_bytes(self) -> Vec<u8>
        ensures { result.items ≡ self.entry.holds }
    {
        self.bytes
    }

    /// How often putting has failed.
    pub fn faults(&self) -> u64
        ensures { result ≡ self.now.faults }
    {
        self.calls.faults.count
    }

    /// Appends the first bytes of the piece, and returns how many, as [`Sink::put`] does. It fails at the chosen calls, and
    /// else only where it runs out of memory, which no empty piece does.
    pub fn put(&mut self, piece: &[u8]) -> Result<usize, Failed>
        ensures fails { FailsNext self.old.failing self.old.calls → IsErr result }
        ensures empty { piece.now ≡ [] → (IsErr result ↔ FailsNext self.old.failing self.old.calls) }
        ensures count { IfOk result (λ count. count ≡ min (length piece.now) self.old.limit) }
        ensures now { self.new ≡ after_put self.old piece.now result }
        ensures progress { 0 < length piece.now → IfOk result (λ count. 0 < count) }
        ensures rises { OnErr result (Rose self.old.faults self.new.faults) }
    {
        if self.calls.next_fails() {
            self.calls.raise();
            return Err(Failed);
        }
        let count = piece.len().min(self.limit);
        if self.bytes.extend_from_slice(&piece[..count]).is_err() {
            self.calls.raise();
            return Err(Failed);
        }
        Ok(count)
    }
}

impl<'a> Sink for MemorySink<'a> {
    ghost use Rattle.std.specs.Prelude.{Some};

    ghost state = { λ sink. record { holds = Some sink.holds; faults = sink.faults } };

    fn put(&mut self, piece: &[u8]) -> Result<usize, Failed> {
        MemorySink::put(self, piece)
    }
}
