//! The first line of a report.

ghost use Rattle.tfpg_base.specs.Append.{Appends};
ghost use Rattle.tfpg_report.specs.Blocks.{head_text};

use itoa::Buffer;
use tfpg_base::{NoMemory, append_line};

/// Appends the first line of a report on hypotheses of at most `k` members, of which at most `doubt` are monitors, with
/// this budget. Where memory runs out, a part of the line may stand after the old bytes.
pub fn head(k: u32, doubt: u32, budget: u64, into: &mut Vec<u8>) -> Result<(), NoMemory>
    ensures { Appends result into.old.items into.new.items
        (head_text (record { k = k; doubt = doubt; budget = budget })) }
{
    let mut k_digits = Buffer::new();
    let mut doubt_digits = Buffer::new();
    let mut budget_digits = Buffer::new();
    append_line(
        into,
        &[
            b"report",
            b"2",
            b"k",
            k_digits.format(k).as_bytes(),
            b"doubt",
            doubt_digits.format(doubt).as_bytes(),
            b"budget",
            budget_digits.format(budget).as_bytes(),
        ],
    )
}
