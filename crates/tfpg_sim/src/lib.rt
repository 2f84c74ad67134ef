//! The simulator, which makes logs with a known cause, and a generator of graphs and scripts for it.
//!
//! - [`simulate`] makes the log of a script: the failure modes that it starts, and what they bring about.
//! - [`Simulated`] is the set of these failure modes, the trace and the log. [`SimFault`] says why there is none.
//! - [`generate`] draws a graph and a script for it, which are [`Generated`].
//! - [`MAX_ENTRIES`] and the other constants are its limits, and what it draws from.
//! - [`laws`] says that a simulated trace keeps the propagation rules, that each line of its log is accepted and the trace
//!   explains the log from the set, that there is only one simulation, and that generated graphs are valid and generated
//!   scripts right.
//!
//! ```
//! let simulated = simulate(alloc, &graph, b"5 start ValveStuck\n40 stop\n", 1)?;
//! let log = simulated.log; // its lines are what the monitors write
//! ```
//!
//! # Proved, and by which clause
//!
//! - The simulation of a script, accepted line by line and explained: `simulate`, `simulated`, `accepted`, `explained`,
//!   `fault`.
//! - Valid graphs: `generate`, `graph`, `valid`, `script`.
//!
//! # Not proved
//!
//! - That drawn systems are like real ones.
#![tactic(auto)]

mod alarms;
mod arrival;
mod candidates;
mod delayed;
mod draws;
mod entry;
mod fault;
mod flight;
mod generating;
pub mod laws;
mod limits;
mod log_lines;
mod mode_spans;
mod script;
mod script_line;
mod simulated;
mod simulation;
mod started_set;
mod trace;

pub use fault::SimFault;
pub use generating::{Generated, generate};
pub use limits::{
    DELAY_STREAM, FAILURE_COUNT, GENERATED_DELAYS, GRAPH_STREAM, MAX_ENTRIES, OPEN_DELAYS,
};
pub use simulated::Simulated;
pub use simulation::simulate;
