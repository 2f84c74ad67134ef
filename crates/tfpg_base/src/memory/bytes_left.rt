//! The bytes that a source in memory has left.

ghost use Rattle.std.specs.Prelude.{◌≡◌, ◌++◌, false, length, take, drop, min};
ghost use Rattle.tfpg_base.specs.Memory.{ended_after};

/// Bytes that are given from their front, and whether their end was returned.
#[derive(Drop)]
pub(crate) struct BytesLeft<'a> {
    pub(crate) left: &'a [u8],
    pub(crate) ended: bool,
}

impl<'a> BytesLeft<'a> {
    /// All of the bytes are left.
    pub(crate) fn new(bytes: &'a [u8]) -> BytesLeft<'a>
        ensures left { result.left.now ≡ bytes.now }
        ensures ended { result.ended ≡ false }
    {
        BytesLeft {
            left: bytes,
            ended: false,
        }
    }

    /// Writes the next bytes to the front of the buffer, at most `limit` of them, and returns how many. A result of 0 for
    /// a buffer of at least one byte is the end.
    pub(crate) fn give(&mut self, room: &mut [u8], limit: usize) -> usize
        ensures count { result ≡ min (min (length self.old.left.now) (length room.old)) limit }
        ensures left { self.new.left.now ≡ drop result self.old.left.now }
        ensures ended { self.new.ended ≡ ended_after self.old.ended result (length room.old) }
        ensures room { room.new ≡ take result self.old.left.now ++ drop result room.old }
    {
        let count = self.left.len().min(room.len()).min(limit);
        let (given, left) = self.left.split_at(count);
        room[..count].copy_from_slice(given);
        self.left = left;
        if count == 0 && !room.is_empty() {
            self.ended = true;
        }
        count
    }
}
