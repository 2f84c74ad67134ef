//! What a reader of reports says of a line.

use crate::{ReadRound, RefusedLine};

/// What a line of a report completed.
#[derive(Drop)]
pub enum Fed {
    /// Nothing: the lines so far end within the block of a round.
    More,
    /// It is the first line, with these terms.
    Head { k: u32, doubt: u32, budget: u64 },
    /// It is the block of a refused line of the log.
    Refused { line: u64, cause: RefusedLine },
    /// It ends the block of this round.
    Round(ReadRound),
    /// It says that a panel was lost, or that memory ran out for it, at the round before.
    Lost { panel: u64, memory: bool },
}

/// Why a line of a report is not taken.
#[derive(Clone, Copy, PartialEq, Eq)]
pub enum ReadRefusal {
    /// No report begins with the lines up to this one.
    BadReport { line: u64 },
    /// Out of memory.
    NoMemory,
}
