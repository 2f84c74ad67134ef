//! The least time at which a node can become active.
//!
//! - [`probed`] makes a [`ProbedLog`]: a graph with one node more, the probe, and a log whose last event says that the probed
//!   node became active by a bound.
//! - [`forecast`] finds the least time at which a node becomes active, by the traces that explain a log continued to a time, or
//!   that there is none. [`Outlook`] is what it found, with its evidence.
//! - [`laws`] has rows of what a probed log keeps.
//!
//! The mathematics stands in `docs/search.md`.
//!
//! ```
//! match forecast(alloc, &graph, &log, set, Doubts::empty(), node, 50, 1_000, &mut work)? {
//!     Outlook::Earliest { time, trace, .. } => {} // the trace gives the node this time, and none gives it an earlier one
//!     Outlook::Never { .. } => {} // no trace activates the node up to 50
//!     Outlook::Unsettled { bound, .. } => {} // 1,000 splits were not enough to say whether it is active by the bound
//! }
//! ```
//!
//! # Proved, and by which clause
//!
//! - A probed log says what it is made for: `probed`, `explains`.
//! - Least times with their evidence: `forecast`.
//!
//! # Not proved
//!
//! - How many searches a forecast makes.
#![tactic(auto)]

mod events_log;
mod forecasting;
mod kept;
mod last_silences;
pub mod laws;
mod outlook;
mod probe_name;
mod probed_log;
mod quest;
mod trial;
mod without_probe;

pub use forecasting::forecast;
pub use outlook::Outlook;
pub use probed_log::{ProbedLog, probed};
