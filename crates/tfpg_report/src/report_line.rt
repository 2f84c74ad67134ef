//! What one line of a report says.

use crate::RefusedLine;
use tfpg_base::{Activation, Hypothesis, Terms};
use tfpg_evidence::{ClauseName, Counts, Reason};

/// What one line of a report says. Times are in milliseconds.
#[derive(Clone, Copy)]
pub enum ReportLine {
    /// The first line.
    Head(Terms),
    /// The first line in its older form, which has no number of doubts.
    OldHead {
        k: u32,
        budget: u64,
    },
    /// A line of the log was refused.
    Refused {
        line: u64,
        cause: RefusedLine,
    },
    /// A round begins, for the event of this number on this line of the log.
    Round {
        number: u32,
        line: u64,
        now: u64,
    },
    /// The steps of a hypothesis begin.
    Hyp {
        number: u32,
    },
    /// A step that splits.
    Split(ClauseName),
    /// A step that closes a leaf. So many reasons follow.
    Cycle {
        count: u32,
    },
    /// One of its reasons.
    Why(Reason),
    /// A step that uses a subtree again.
    Again,
    /// A ranked hypothesis. The activations of its trace follow.
    Ranked {
        number: u32,
        cost: u64,
        alarmed: u32,
        monitored: u32,
        hypothesis: Hypothesis,
    },
    /// An activation of its trace.
    At(Activation),
    /// An open hypothesis.
    Open {
        number: u32,
        hypothesis: Hypothesis,
    },
    /// A hypothesis that the round rejected.
    Rejected {
        number: u32,
        hypothesis: Hypothesis,
    },
    /// How many hypotheses have each status. The round ends.
    Counts(Counts),
    /// A panel was lost, or memory ran out for it, at the round before.
    Panel {
        panel: u64,
        memory: bool,
    },
}
