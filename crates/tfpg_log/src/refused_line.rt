//! Why a line of input brings no round, and which lines are too long.

ghost use Rattle.std.specs.Prelude.{◌≡◌};
ghost use Rattle.tfpg_base.specs.Lines.{is_too_long};

use crate::refusal::Refusal;
use tfpg_base::LONGEST_LINE;

/// Why a line of input brings no round, but a block of its own.
#[derive(Clone, Copy, PartialEq, Eq)]
pub enum RefusedLine {
    /// It has more than [`LONGEST_LINE`] bytes.
    TooLong,
    /// The log refused it.
    Offer(Refusal),
}

/// Whether a line has more than [`LONGEST_LINE`] bytes, without its line end.
pub fn is_too_long(line: &[u8]) -> bool
    ensures { result ≡ is_too_long line.now }
{
    line.len() > LONGEST_LINE
}
