//! A source that never fails.

ghost use Rattle.std.specs.Prelude.{◌≡◌, false, length, drop, min, Ok};
ghost use Rattle.tfpg_base.specs.Memory.{ended_after, filled};

use super::bytes_left::BytesLeft;
use crate::{Failed, Source};
use std::marker::Model;

/// Bytes at hand as a source that never fails: its count of faults is the constant 0. It gives a call as many
/// bytes as the buffer holds. Contracts see it as the bytes that are left.
#[derive(Drop)]
pub struct SteadySource<'a> {
    bytes: BytesLeft<'a>,
}

impl<'a> Model for SteadySource<'a> {
    ghost use Rattle.tfpg_base.specs.Memory.{SteadySourceState};

    ghost Value = { SteadySourceState };

    ghost view = { λ source. record { left = source.bytes.left.now; ended = source.bytes.ended } };
}

impl<'a> SteadySource<'a> {
    /// A source of these bytes. Takes no memory.
    pub fn new(bytes: &'a [u8]) -> SteadySource<'a>
        ensures { result ≡ record { left = bytes.now; ended = false } }
    {
        SteadySource {
            bytes: BytesLeft::new(bytes),
        }
    }

    /// The bytes that are left.
    pub fn left(&self) -> &[u8]
        ensures { result.now ≡ self.now.left }
    {
        self.bytes.left
    }

    /// Writes the next bytes to the front of the buffer, and returns how many, as [`Source::take`] does: as many as are
    /// left and as the buffer holds.
    pub fn take(&mut self, room: &mut [u8]) -> Result<usize, Failed>
        ensures given { result ≡ Ok (min (length self.old.left) (length room.old)) }
        ensures left { self.new.left ≡ drop (length room.old) self.old.left }
        ensures ended { self.new.ended ≡
            ended_after self.old.ended (length self.old.left) (length room.old) }
        ensures room { room.new ≡ filled self.old.left room.old result }
    {
        Ok(self.bytes.give(room, room.len()))
    }
}

impl<'a> Source for SteadySource<'a> {
    ghost use Rattle.std.specs.Prelude.{Some};

    ghost state = { λ source. record { left = Some source.left; ended = source.ended; faults = 0 } };

    fn take(&mut self, room: &mut [u8]) -> Result<usize, Failed> {
        SteadySource::take(self, room)
    }
}
