//! Which observation would tell most: what a further line of the log would show of hypotheses.
//!
//! - [`ask`] says of each hypothesis that is asked about what a line would show: an [`Outcome`] with its evidence.
//! - [`questions`] asks a silence and an alarm of each monitored node without an alarm. A [`Question`] counts how many hypotheses
//!   are shown to fall after each, and the question after which most are, whatever the answer is, comes first.
//! - [`AskFault`] says why there is no answer.
//! - [`laws`] says what outcomes and questions say of later logs and of the rounds to come.
//!
//! An engine is lent, and does not change.
//!
//! ```
//! for outcome in ask(alloc, &engine, &among, b"40 alarm Pressure", 1_000, &mut work)?.as_slice() {
//!     match outcome {
//!         Outcome::Fits(trace) => {} // it explains the lengthened log
//!         Outcome::Out(steps) => {} // they are a refutation at the lengthened log
//!         Outcome::Unknown(steps) => {} // 1,000 splits were not enough
//!     }
//! }
//! let questions = questions(alloc, &engine, &among, 1_000, &mut work)?; // the most useful first
//! ```
//!
//! # Proved, and by which clause
//!
//! - What a further line would show, each outcome with its evidence: `ask`, `outcomes`, `keeps`, `foresee`, `refused`,
//!   `enough`.
//! - The questions at now, counted and in order: `questions`, `foresee`, `refused`, `enough`.
//! - What both say of the rounds to come: its laws.
//!
//! # Not proved
//!
//! - How many counted calls they make.
#![tactic(auto)]

mod answer;
mod ask_fault;
mod asking;
mod at_once;
mod early;
pub mod laws;
mod order;
mod outcome;
mod outcomes;
mod question;
mod question_list;
mod question_of;

pub use answer::ask;
pub use ask_fault::AskFault;
pub use outcome::{Outcome, OutcomeList};
pub use question::{Question, QuestionList};
pub use question_list::questions;
