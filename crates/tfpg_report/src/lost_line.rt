//! The line of a panel that was lost.

ghost use Rattle.std.specs.Prelude.{◌≡◌, codes, if◌then◌else◌};
ghost use Rattle.tfpg_base.specs.Append.{Appends};
ghost use Rattle.tfpg_report.specs.Blocks.{lost_text};

use itoa::Buffer;
use tfpg_base::{NoMemory, append_line};

/// Appends the line of a panel that was lost at the round before, or for which memory ran out. Panels are counted from 1.
/// Where memory runs out, a part of the line may stand after the old bytes.
pub fn lost(panel: u64, memory: bool, into: &mut Vec<u8>) -> Result<(), NoMemory>
    ensures { Appends result into.old.items into.new.items
        (lost_text (record { panel = panel; memory = memory })) }
{
    let mut digits = Buffer::new();
    append_line(
        into,
        &[b"panel", digits.format(panel).as_bytes(), why_lost(memory)],
    )
}

/// The word for why a panel was lost.
fn why_lost(memory: bool) -> &'static [u8]
    ensures { result.now ≡ (if memory then codes "memory" else codes "lost") }
{
    if memory { b"memory" } else { b"lost" }
}
