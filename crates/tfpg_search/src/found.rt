//! What a search found in a round.

use tfpg_base::Trace;

/// What a search found, for the log so far.
#[derive(Drop)]
pub enum Found {
    /// This trace explains the log from the set.
    Shown(Trace),
    /// No trace does: the steps of all rounds are a refutation.
    Closed,
    /// The budget of this round was spent on splits, and a further one is needed.
    Spent,
}
