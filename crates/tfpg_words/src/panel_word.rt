//! The panels that the words name.

use tfpg_base::{Items, Text};

/// What a panel writes of each round.
#[derive(Clone, Copy, PartialEq, Eq)]
pub enum PanelKind {
    /// `top`: the best of the ranked sets, and its cost.
    Top,
    /// `count`: how many sets have each status.
    Count,
    /// `json`: the whole round as JSON.
    Json,
}

/// A panel that the words name: what it writes, and the file to which it does.
#[derive(Drop)]
pub struct PanelWord {
    pub kind: PanelKind,
    pub file: Text,
}

/// A list of the panels that the words name.
pub type PanelWordList = Items<PanelWord>;
