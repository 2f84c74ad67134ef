//! Facts, clauses and refutations: the language of the evidence.
//!
//! - [`fact`] is the constraint that a reason states, where it is a fact of the log and of a set with this reach.
//! - [`NotAFact`] says that it is none, and [`NotAClause`] that a clause is not allowed.
//! - [`count`] and [`constraint`] are the alternatives of a clause and their constraints, where the clause is allowed.
//! - [`split_count`] counts the splits among steps.
//! - [`MAX_CONSTRAINTS`] says how many constraints an alternative has at most.
//! - [`violated`] is the first clause with the horizon now that some times violate.
//! - [`PathSplit`] is a split on the path to the present leaf of a partial tree. [`PathSplit::on_clause`] splits the leaf,
//!   [`cite`] marks what the cycle cites that closed it, and [`backtrack`] moves the path to the next leaf then.
//!   [`is_reusable`] says whether the subtree of the alternative before may be reused there, and [`reuse`] does so.
//!   [`stated`] and [`picked`] look up what a reason states.
//! - [`laws`] ties facts, clauses and refutations to the traces that explain a log, and says how trees grow.
//!
//! Its definitions, in `specs/`, say which constraints are facts of a log and a reach, which clauses every trace meets,
//! and which lists of steps refute a set of failure modes.
//!
//! ```
//! match violated(&graph, &log, &times) {
//!     None => {} // cut at now, the times keep the propagation rules
//!     Some(name) => {
//!         let alternatives = count(&graph, &log, name)?;
//!         let first = constraint(&graph, &log, name, 1, 1)?; // of the first alternative
//!     }
//! }
//! ```
//!
//! # Proved, and by which clause
//!
//! - A refutation leaves no trace, and numbers that meet all facts and clauses give a trace, which meets them: the laws
//!   [`a_refutation_leaves_no_trace`](laws::a_refutation_leaves_no_trace), `numbers_that_meet_all_give_a_trace` and
//!   `traces_meet_facts_and_clauses`.
//! - The first clause violated: `violated`, `first`, `rules`.
//!
//! # Not proved
//!
//! - The cost of `violated`.
#![tactic(auto)]

mod alternative;
mod bounds;
mod clause_kind;
mod clauses;
mod due;
mod facts;
mod first_clause;
mod known_windows;
pub mod laws;
mod limits;
mod may;
mod may_violated;
mod meets;
mod must;
mod must_violated;
mod overdue;
mod path;
mod site;
mod splits;

pub use clauses::{NotAClause, constraint, count};
pub use facts::{NotAFact, fact};
pub use first_clause::violated;
pub use limits::MAX_CONSTRAINTS;
pub use path::{PathSplit, backtrack, cite, is_reusable, picked, reuse, stated};
pub use splits::split_count;
