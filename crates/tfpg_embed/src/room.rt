//! A text put into the room of the caller.

ghost use Rattle.std.specs.Prelude.{◌≡◌, ◌++◌, List, ℕ, length, drop};
ghost use Rattle.tfpg_embed.specs.Answers.{answer_of_text};
ghost use Rattle.tfpg_embed.specs.Rooms.{room_after};

use crate::answer::{TfpgAnswer, with_count};
use crate::status::{DONE, ROOM_TOO_SMALL};

/// Writes the text to the front of the room, if it fits. The answer has the number of its bytes.
pub(crate) fn put_text(text: &[u8], room: &mut [u8]) -> TfpgAnswer
    ensures answer { result ≡ answer_of_text text.now (length room.old) }
    ensures room { room.new ≡ room_after text.now room.old }
{
    let count = text.len();
    if count <= room.len() {
        room[..count].copy_from_slice(text);
        with_count(DONE, count as u64)
    } else {
        with_count(ROOM_TOO_SMALL, count as u64)
    }
}
