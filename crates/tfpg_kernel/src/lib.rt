//! The checker of refutations.
//!
//! It stands apart from all that finds evidence, and is small, so that a reviewer can read it whole: what it calls of other
//! crates is `PathSplit::on_clause`, `stated`, `cite`, `backtrack`, `is_reusable`, `reuse`, `Items::as_slice`, and calls that do
//! nothing: laws, and two that bring an invariant into a proof (`Graph::is_always_valid` and `Log::is_always_ordered`).
//!
//! - [`Checker`] takes the steps of a refutation one by one. It keeps the path to the present leaf and no step.
//! - [`Taken`] is what it returns: the tree is partial, the tree is closed, or the step is bad, with the first cause,
//!   [`BadStep`].
//! - [`PathSplit`] is what contracts see of a split on the path.
//!
//! What a closed tree is worth is a clause of [`Checker::take`]: no trace explains the log, nor one that goes on from it.
//!
//! ```
//! let mut checker = Checker::new(alloc, reach);
//! for step in &steps {
//!     checker.reserve()?;
//!     match checker.take(&graph, &log, step) {
//!         Taken::Open => {}
//!         Taken::Closed => {} // the steps are a refutation
//!         Taken::Bad(cause) => {} // the checker is unchanged
//!     }
//! }
//! ```
//!
//! # Proved, and by which clause
//!
//! - Closed, partial or bad, exactly: `Checker::take`, `closed`, `partial`, `bad`, `no_trace`.
//! - Unchanged where memory ran out: `Checker::reserve`, `err`, `full`.
#![tactic(auto)]

mod chain;
mod checker;
mod cycle;
mod step_results;
mod taken;

pub use checker::Checker;
pub use taken::{BadStep, Taken};
pub use tfpg_clause::PathSplit;
