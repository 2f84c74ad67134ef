//! Why a line is refused by what judges texts: the judge of reports, the reader of maps and the reader of scripts.

/// Why a line of the input or of the script is refused.
#[derive(Clone, Copy, Debug, PartialEq, Eq)]
pub enum CheckCause {
    /// The name of a split is not allowed.
    NotAClause,
    /// A reason is neither a pick nor a fact of the log.
    NotAFact,
    /// A reason picks from a split that is not on the path, or a constraint that the alternative taken there does not have.
    NotOnPath,
    /// The reasons do not chain into a cycle, or there are none.
    Unchained,
    /// The sum of their bounds is 0 or more.
    NotNegative,
    /// A step of a refutation comes after its tree was closed.
    AfterClosed,
    /// A step uses a subtree again where that is not allowed.
    NotReusable,
    /// No report begins with the lines up to this one.
    BadReport,
    /// A block comes after that of the last line of the log.
    Surplus,
    /// The block is not that of the next line of the log: its kind, a number, its cause or its time is wrong.
    WrongRound,
    /// The steps are of no hypothesis that may have steps there.
    WrongHypothesis,
    /// A hypothesis may not be ranked there, or its set, its cost, its robustness or its place in the order is wrong.
    WrongRanked,
    /// The trace of a ranked hypothesis does not explain the log.
    NotATrace,
    /// A hypothesis may not be open there, or its set or the number of its splits is wrong.
    WrongOpen,
    /// The rejected hypotheses are not those whose trees were closed in this round.
    WrongRejected,
    /// A hypothesis has no status or more than one, or a covered one has steps.
    WrongStatus,
    /// A count is wrong.
    WrongCounts,
    /// The report ends in a block, or before the last line of the log has its block.
    EndsEarly,
    /// No map begins with the lines up to this one.
    BadMap,
    /// Of `simulate`: the first line of the script that is at fault.
    BadScript,
}
