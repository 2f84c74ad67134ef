//! The block of a line that was refused.

ghost use Rattle.std.specs.Prelude.{[], ◌∷◌, codes, decimal};
ghost use Rattle.tfpg_base.specs.Append.{Appends};
ghost use Rattle.tfpg_base.specs.TextLine.{text_line};
ghost use Rattle.tfpg_report.specs.Blocks.{refused_text};

use crate::RefusedLine;
use itoa::Buffer;
use tfpg_base::{NoMemory, append_line};
use tfpg_log::Refusal;

/// Appends the block of a line that was refused. Lines are counted from 1. Where memory runs out, a part of the block may
/// stand after the old bytes.
pub fn refused(line: u64, cause: RefusedLine, into: &mut Vec<u8>) -> Result<(), NoMemory>
    ensures { Appends result into.old.items into.new.items (refused_text line cause) }
{
    match cause {
        RefusedLine::TooLong => append_named(line, b"TooLong", into),
        RefusedLine::Offer(refusal) => append_refusal(line, refusal, into),
    }
}

/// Appends the block of a line that the log refused.
fn append_refusal(line: u64, refusal: Refusal, into: &mut Vec<u8>) -> Result<(), NoMemory>
    ensures { Appends result into.old.items into.new.items (refused_text line (RefusedLine.Offer refusal)) }
{
    match refusal {
        Refusal::BadLine => append_named(line, b"BadLine", into),
        Refusal::BadNumber => append_named(line, b"BadNumber", into),
        Refusal::TimeTooLarge => append_named(line, b"TimeTooLarge", into),
        Refusal::TimeBack { last } => append_time_back(line, last, into),
        Refusal::UnknownName => append_named(line, b"UnknownName", into),
        Refusal::NotMonitored => append_named(line, b"NotMonitored", into),
        Refusal::NotAMode => append_named(line, b"NotAMode", into),
        Refusal::LogFull => append_named(line, b"LogFull", into),
        Refusal::ModesFull => append_named(line, b"ModesFull", into),
    }
}

/// Appends the block of a line whose cause one word names.
fn append_named(line: u64, name: &[u8], into: &mut Vec<u8>) -> Result<(), NoMemory>
    ensures { Appends result into.old.items into.new.items
        (text_line (codes "refused" ∷ decimal line ∷ name.now ∷ [])) }
{
    let mut digits = Buffer::new();
    append_line(into, &[b"refused", digits.format(line).as_bytes(), name])
}

/// Appends the block of a line whose time is below that of the last event, in milliseconds.
fn append_time_back(line: u64, last: u64, into: &mut Vec<u8>) -> Result<(), NoMemory>
    ensures { Appends result into.old.items into.new.items
        (text_line (codes "refused" ∷ decimal line ∷ codes "TimeBack" ∷ decimal last ∷ [])) }
{
    let mut line_digits = Buffer::new();
    let mut time_digits = Buffer::new();
    let line_word = line_digits.format(line).as_bytes();
    let time_word = time_digits.format(last).as_bytes();
    append_line(into, &[b"refused", line_word, b"TimeBack", time_word])
}
