//! Why the words of the command line are refused.

/// Why the words of the command line are refused. Of several that hold, the first in this order wins.
#[derive(Clone, Copy, Debug, PartialEq, Eq)]
pub enum UsageCause {
    /// There is no word.
    NoCommand,
    /// The first word is no command.
    UnknownCommand,
    /// An option is unknown or used twice, a value is missing, or a positional word is missing or too many.
    BadWords,
    /// A value is no number.
    BadNumber,
    /// A number is below the least or above the greatest that its option takes.
    OutOfRange,
    /// A word in the place of a panel is none.
    BadPanel,
    /// The word for a node names no node of the graph. No words are refused for this, since only the graph's file shows it.
    UnknownNode,
    /// The names of vehicles are not 1 to [`MAX_VEHICLES`](tfpg_base::MAX_VEHICLES) words of the form of a name, no two alike.
    BadNames,
}
