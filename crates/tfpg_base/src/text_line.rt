//! One line of a text, written word by word.

ghost use Rattle.std.specs.Prelude.{◌≡◌, ◌++◌, map};
ghost use Rattle.tfpg_base.specs.Append.{Appends};
ghost use Rattle.tfpg_base.specs.TextLine.{text_line, separated};
ghost use Rattle.tfpg_base.specs.Words.{line_of};

use crate::no_memory::NoMemory;

/// Appends the words with a space between each two, and a line end. Where it runs out of memory, a part of the
/// line may follow the old bytes.
pub fn append_line(into: &mut Vec<u8>, words: &[&[u8]]) -> Result<(), NoMemory>
    ensures { Appends result into.old.items into.new.items (text_line (map (λ word. word.now) words.now)) }
{
    append_words(into, words)?;
    into.push(b'\n')?;
    Ok(())
}

/// Appends the words with a space between each two.
pub fn append_words(into: &mut Vec<u8>, words: &[&[u8]]) -> Result<(), NoMemory>
    ensures { Appends result into.old.items into.new.items (line_of (map (λ word. word.now) words.now)) }
{
    for (index, word) in words.iter().enumerate() {
        append_part(into, b' ', index == 0, word)?;
    }
    Ok(())
}

/// Appends a part, with the separator before it unless it is the first.
pub fn append_part(
    into: &mut Vec<u8>,
    separator: u8,
    is_first: bool,
    part: &[u8],
) -> Result<(), NoMemory>
    ensures { Appends result into.old.items into.new.items (separated separator is_first part.now) }
{
    if !is_first {
        into.push(separator)?;
    }
    into.extend_from_slice(part)?;
    Ok(())
}
