//! A run of the diagnoser, from the words of the command line to its end, over any shelf of files, input and output.
//!
//! [`run`] is the call that the program makes. It says how it ended by an [`End`], which has an exit code and a line. [`laws`] says that a
//! simulated set is rejected in no round, that a vehicle is diagnosed as if alone, that files are asked for in their order, that `diagnose`
//! writes each block and `fleet` each answer before the next read, that a run that files and input serve is done unless something fails or
//! memory runs out, that what `diagnose` wrote is accepted by `check`, and that a graph that is converted to JSON and back is the same graph.
//! [`panel_lines`] has the lines that panels over files write.
//!
//! ```
//! // The words `diagnose pump.tfpg`, over a shelf that has the graph, and an input that has a log of it.
//! let end = run(alloc, &words, &mut shelf, &mut input, &mut out, &mut desk, &mut work);
//! ```
//!
//! # Proved, and by which clause
//!
//! - The rows of the program in `docs/promises.md`: `run`, `ends`, `work`, `desk`.
//! - The line of each kind of panel, byte for byte: `panel_lines::panel_line`.
//!
//! # Not proved
//!
//! - That a run does not run out of memory.
#![tactic(auto)]

mod ask;
mod check;
mod commands;
mod convert;
mod diagnose;
mod end;
mod explain;
mod fault;
mod fetching;
mod fleet;
mod generate;
pub mod laws;
mod limits;
pub mod panel_lines;
mod predict;
mod simulate;

pub use commands::run;
pub use end::End;
pub use limits::{GENERATED_BUDGET, GENERATED_K};
