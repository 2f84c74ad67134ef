//! Diagnosing line by line, judging a report line by line, and both over texts in memory.
//!
//! [`write_report`] takes the lines of an input, writes the block of each before it takes the next one, and tells a desk of panels its
//! round. [`judge_report`] judges the report that an input has. A [`Diagnosis`] takes the lines of a log that lies in memory, and keeps the
//! last round.
//!
//! For programs that have no files and no streams there are calls over texts: [`diagnose_texts`], [`check_texts`], and a [`Session`] that
//! takes the lines of a log one by one, keeps the [`Latest`] of them, and makes the block of the last one when it is asked. [`laws`] says
//! that a rejected hypothesis stays rejected.
//!
//! ```
//! let mut session = Session::open(alloc, graph_text, terms)?;
//! let block = session.line(alloc, b"at 10 alarm leak")?;
//! ```
//!
//! # Proved, and by which clause
//!
//! - The report of the lines of an input, block by block: `write_report`, `diagnoses`, `work`.
//! - What is accepted, and why it is not: `judge_report`; `CheckFault`.
//! - The rows on texts in `docs/promises.md`: `diagnose_texts`, `check_texts`, `Session::open`, `Session::take`, `Session::block`,
//!   `Session::line`.
//! - The last round of a log in memory: `Diagnosis::take_text`.
//! - What stays rejected: law `a_rejected_set_stays_rejected`.
//!
//! # Not proved
//!
//! - That a call does not run out of memory.
#![tactic(auto)]

mod diagnosis;
mod fault;
pub mod laws;
mod line_blocks;
mod report;
mod report_lines;
mod telling;
mod texts;

pub use diagnosis::Diagnosis;
pub use fault::CheckFault;
pub use report::write_report;
pub use report_lines::judge_report;
pub use texts::{
    CheckTextsFault, Latest, OpenFault, ReportFault, Session, are_report_terms, check_texts,
    diagnose_texts,
};
