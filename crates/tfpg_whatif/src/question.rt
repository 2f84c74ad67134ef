//! A question: a silence or an alarm of a node at now.

use tfpg_base::Items;

/// How many of the hypotheses that are asked about are shown to fall after each answer of a monitored node: a silence, or an alarm.
#[derive(Clone, Copy, PartialEq, Eq)]
pub struct Question {
    /// The node, which is monitored and has no alarm so far.
    pub node: u32,
    /// How many are out after a silence.
    pub silent_out: u32,
    /// How many are out after an alarm.
    pub alarm_out: u32,
    /// How many outcomes of both are unknown.
    pub unknown: u32,
}

/// Questions in their order.
pub type QuestionList = Items<Question>;
