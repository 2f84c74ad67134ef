//! The search of one hypothesis, over all rounds.
//!
//! - [`Search`] has one set of failure modes. [`Search::round`] searches on for a log that goes on, and appends its steps.
//! - [`Found`] is what it found: a trace that explains the log, a refutation, or that the budget of the round was spent.
//! - [`laws`] says that there is a budget that is always enough, that a leaf with a solution has one latest solution, which trees
//!   are unsettled, and that a round has one limit of its counted calls.
//!
//! The mathematics stands in `docs/search.md`.
//!
//! ```
//! let mut search = Search::new(alloc, &graph, set, reach)?;
//! let mut steps = StepList::new(alloc);
//! match search.round(&graph, &log, 1_000, &mut steps, &mut work)? {
//!     Found::Shown(trace) => {} // it explains the log from the set
//!     Found::Closed => {} // the steps of all rounds are a refutation
//!     Found::Spent => {} // 1,000 splits were not enough
//! }
//! ```
//!
//! # Proved, and by which clause
//!
//! - A trace, a refutation or a spent budget, over all rounds: `Search::round`, `searched`, `enough`, `seen`.
//! - A copy is equal, but that it has another system: `Search::copy`.
//! - How many calls of its system a round makes: `work`, `counted`. That it keeps its system: `identity`.
//! - One latest solution at a leaf, and which trees are unsettled: its laws.
//!
//! # Not proved
//!
//! - What one call of the system costs, and how often a round goes over the facts of the log.
#![tactic(auto)]

mod add_facts;
mod add_fault;
mod clause_laws;
mod cut;
mod fact_bounds;
mod found;
mod kept_reason;
pub mod laws;
mod leaf_system;
mod raising;
mod search;

pub use found::Found;
pub use search::Search;
