//! The words of the command line: which command they ask for, and with which values.
//!
//! [`plan`] reads the words after the program's name. It returns a [`Planned`]: a [`Command`], and the panels that the words name. A
//! [`PlanFault`] says why there is none: the first [`UsageCause`] that holds of the words, or out of memory. A [`PanelWord`] is such a
//! panel: what it writes, a [`PanelKind`], and the file to which it does. [`DEFAULT_K`] and the other constants
//! are the defaults and the limits of the options. [`laws`] says between which limits the numbers of a command are, and what its names are.
//! [`usage_cause_word`] is the name of a cause.
//!
//! ```
//! // The words `diagnose --k 1 engine.tfpg`.
//! let planned = plan(alloc, &words)?; // with no panels
//! match planned.command {
//!     Command::Diagnose { k, doubt, budget, graph } => {} // k is 1, doubt is 0, budget is 1000
//!     _ => {}
//! }
//! ```
//!
//! # Proved, and by which clause
//!
//! - The words mean one command, with its panels, or have their first cause: `plan`.
#![tactic(auto)]

mod cause_names;
mod command;
mod form;
pub mod laws;
mod limits;
mod names;
mod number;
mod panel_word;
mod panels;
mod parts;
mod plan_fault;
mod planning;
mod usage_cause;

pub use cause_names::usage_cause_word;
pub use command::{Command, Planned};
pub use limits::{
    DEFAULT_AHEAD, DEFAULT_BUDGET, DEFAULT_DOUBT, DEFAULT_DRAW, DEFAULT_K, DEFAULT_SIZE, MAX_DRAW,
};
pub use panel_word::{PanelKind, PanelWord, PanelWordList};
pub use plan_fault::PlanFault;
pub use planning::plan;
pub use usage_cause::UsageCause;
