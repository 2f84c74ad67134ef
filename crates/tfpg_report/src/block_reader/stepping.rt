//! What may come after what in a report.

ghost use Rattle.std.specs.Prelude.{◌≡◌};
ghost use Rattle.tfpg_report.specs.Stands.{may_begin, may_begin_block, may_begin_steps, may_step, may_rank, may_open, may_reject, after_reasons, after_reason, after_activation, after_loss, stand_after};

use crate::{ReportLine, Stand};

/// The stand after one more line, if the line may come.
pub(crate) fn step_after(before: Stand, line: &ReportLine) -> Option<Stand>
    ensures { result ≡ stand_after before line.now }
{
    match line {
        ReportLine::Head(_) => before.may_begin().then_some(Stand::Block),
        ReportLine::OldHead { .. } => before.may_begin().then_some(Stand::Block),
        ReportLine::Refused { .. } => before.may_begin_block().then_some(Stand::Block),
        ReportLine::Round { .. } => before.may_begin_block().then_some(Stand::Round),
        ReportLine::Hyp { .. } => before.may_begin_steps().then_some(Stand::Hyp),
        ReportLine::Split(_) => before.may_step().then_some(Stand::Step),
        ReportLine::Cycle { count } => before.may_step().then_some(Stand::after_reasons(*count)),
        ReportLine::Why(_) => before.after_reason(),
        ReportLine::Again => before.may_step().then_some(Stand::Step),
        ReportLine::Ranked { .. } => before.may_rank().then_some(Stand::Ranked { last: None }),
        ReportLine::At(activation) => before.after_activation(activation.node),
        ReportLine::Open { .. } => before.may_open().then_some(Stand::Open),
        ReportLine::Rejected { .. } => before.may_reject().then_some(Stand::Rejected),
        ReportLine::Counts(_) => before.may_reject().then_some(Stand::Counts { last: None }),
        ReportLine::Panel { panel, .. } => before.after_loss(*panel),
    }
}

impl Stand {
    /// Whether the first line may come.
    fn may_begin(self) -> bool
        ensures { result ≡ may_begin self }
    {
        matches!(self, Stand::Nothing)
    }

    /// Whether a refused line or a round may come.
    pub(crate) fn may_begin_block(self) -> bool
        ensures { result ≡ may_begin_block self }
    {
        match self {
            Stand::Block => true,
            Stand::Counts { .. } => true,
            _ => false,
        }
    }

    /// Whether a hypothesis with steps may come.
    fn may_begin_steps(self) -> bool
        ensures { result ≡ may_begin_steps self }
    {
        match self {
            Stand::Round => true,
            Stand::Step => true,
            _ => false,
        }
    }

    /// Whether a step may come.
    fn may_step(self) -> bool
        ensures { result ≡ may_step self }
    {
        match self {
            Stand::Hyp => true,
            Stand::Step => true,
            _ => false,
        }
    }

    /// Whether a ranked hypothesis may come.
    fn may_rank(self) -> bool
        ensures { result ≡ may_rank self }
    {
        match self {
            Stand::Round => true,
            Stand::Step => true,
            Stand::Ranked { .. } => true,
            _ => false,
        }
    }

    /// Whether an open hypothesis may come.
    fn may_open(self) -> bool
        ensures { result ≡ may_open self }
    {
        match self {
            Stand::Open => true,
            before => before.may_rank(),
        }
    }

    /// Whether a rejected hypothesis, or the counts, may come.
    fn may_reject(self) -> bool
        ensures { result ≡ may_reject self }
    {
        match self {
            Stand::Rejected => true,
            before => before.may_open(),
        }
    }

    /// The stand where so many reasons of a step are still to come.
    fn after_reasons(owed: u32) -> Stand
        ensures { result ≡ after_reasons owed }
    {
        if owed == 0 {
            Stand::Step
        } else {
            Stand::Reasons { owed }
        }
    }

    /// The stand after one more reason, which may come where a step lacks some.
    fn after_reason(self) -> Option<Stand>
        ensures { result ≡ after_reason self }
    {
        match self {
            Stand::Reasons { owed } => Some(Stand::after_reasons(owed.saturating_sub(1))),
            _ => None,
        }
    }

    /// The stand after an activation of this node, which may come after a ranked hypothesis, by rising nodes.
    pub(super) fn after_activation(self, node: u32) -> Option<Stand>
        ensures { result ≡ after_activation self node }
    {
        match self {
            Stand::Ranked { last } => last
                .is_none_or(|before| before < node)
                .then_some(Stand::Ranked { last: Some(node) }),
            _ => None,
        }
    }

    /// The stand after the loss of this panel, which may come after the counts, by rising numbers.
    fn after_loss(self, panel: u64) -> Option<Stand>
        ensures { result ≡ after_loss self panel }
    {
        match self {
            Stand::Counts { last } => last
                .is_none_or(|before| before < panel)
                .then_some(Stand::Counts { last: Some(panel) }),
            _ => None,
        }
    }
}
