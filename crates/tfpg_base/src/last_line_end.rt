//! A text without the line end at its end.

ghost use Rattle.std.specs.Prelude.{◌≡◌, ◌<◌, ◌≤◌, length};
ghost use Rattle.tfpg_base.specs.Lines.{parts_of, lines_of};

/// The text before a line end at its end, or the whole text where it ends with none. For a text that is not empty, the
/// parts of the result between line ends are the lines of the text. Takes the same time for every text, and no memory.
pub fn without_last_line_end(text: &[u8]) -> &[u8]
    ensures lines { 0 < length text.now → lines_of text.now ≡ parts_of result.now }
    ensures front { length result.now ≤ length text.now }
{
    match text.strip_suffix(b"\n".as_slice()) {
        Some(front) => front,
        None => text,
    }
}
