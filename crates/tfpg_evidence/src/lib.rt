//! The evidence that every round carries, as plain values.
//!
//! - [`Step`] is a step of a refutation: it splits on a clause, which a [`ClauseName`] names, closes a leaf by a cycle of [`Reason`]s,
//!   or reuses a subtree.
//! - [`Finding`] is what a round says of one hypothesis: its [`Status`] and its steps of this round. [`finding_numbered`] is the
//!   one of a number.
//! - [`Round`] is what one accepted line of the log brings: a finding for each hypothesis, their order and [`Counts`].
//!   [`Round::copy`] makes an equal one.
//!
//! An alarm of node 2 at 30, and a set that does not reach the node, close a leaf by these two reasons:
//!
//! ```
//! let reasons = vec![in alloc; Reason::Unreached { node: 2, horizon: 30 }, Reason::Upto { event: 1 }]?;
//! let step = Step::Cycle(Reasons::from_vec(reasons));
//! ```
//!
//! # Proved, and by which clause
//!
//! - Which status ranks: `Status::is_ranked`.
//! - The finding of a number: `finding_numbered`.
//! - A round is of its graph: `IsRoundOf`, which the law `a_round_is_of_its_graph` of `tfpg_hyp` carries.
//! - A copy is equal: `Round::copy`.
#![tactic(auto)]

mod clause_name;
mod finding;
mod reason;
mod round;
mod step;

pub use clause_name::ClauseName;
pub use finding::{Finding, Findings, Status, finding_numbered};
pub use reason::{Reason, Reasons};
pub use round::{Counts, Round};
pub use step::{Step, StepList};
