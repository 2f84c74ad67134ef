//! One event, all hypotheses: the engine of a diagnosis.
//!
//! - [`Engine`] has a graph, a log that grows, and all hypotheses on some terms. [`Engine::event`] takes a line.
//! - [`Told`] is what a line brings: a refusal, or a round. [`EventFault`] says why there is neither.
//! - [`Slot`] is what the engine keeps of a hypothesis, as contracts see it.
//!
//! ```
//! let mut engine = Engine::new(alloc, graph, 2, 1, 1_000)?;
//! match engine.event(1, b"30 alarm LowFlow", &mut work)? {
//!     Told::Round(round) => {} // a finding on each hypothesis of at most two members
//!     Told::Refused(refusal) => {} // nothing has changed
//! }
//! ```
//!
//! # Proved, and by which clause
//!
//! - An accepted line brings the round of the whole log: `Engine::event`, `brings`, `refused`, and how many counted
//!   calls that takes: `work`, `counted`.
//! - After its end it stays as it is: `stays`.
//! - `Engine::new`, `too_many`.
//! - Which search is lent, and that it can go on: `Engine::search`.
#![tactic(auto)]

mod counts;
mod covering;
mod engine;
mod finding;
mod findings;
mod inquiry;
mod listed;
mod order;
mod round;
mod slot;
mod told;
mod tree_laws;

pub use engine::Engine;
pub use slot::Slot;
pub use told::{EventFault, Told};
