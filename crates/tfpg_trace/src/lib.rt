//! The judge of traces: whether a trace explains a log from a set of failure modes, and if not, its first fault.
//!
//! - [`explains`] judges a trace.
//! - [`Verdict`] is what is said of a trace.
//! - [`laws`] says that a trace has exactly one verdict.
//!
//! It goes through spans and windows, and never through single instants.
//!
//! ```
//! match explains(&graph, &log, set, &trace) {
//!     Verdict::Yes => {}
//!     Verdict::Must { node, time } => {} // the node is not active by then, when the failure is due
//!     fault => {} // something else is wrong with it first
//! }
//! ```
//!
//! # Proved, and by which clause
//!
//! - A trace is said to explain a log exactly where it does, else its first fault is named: `explains`, `verdict`,
//!   `yes`.
#![tactic(auto)]

mod ages;
mod alarms;
mod all_shown;
mod due;
mod due_first;
mod gaps;
mod judge;
pub mod laws;
mod may;
mod must;
mod rules;
mod shows;
mod silences;
mod strays;
mod trace_table;
mod verdict;

pub use judge::explains;
pub use verdict::Verdict;
