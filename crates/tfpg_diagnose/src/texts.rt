//! Calls over texts in memory, for programs that have no files and no streams.
//!
//! [`diagnose_texts`] returns the report of a log, and [`check_texts`] judges one. A [`Session`] takes the lines of a log one by one, and
//! returns the block of the last one when it is asked. It keeps the [`Latest`] of them.

mod checking;
mod fault;
mod latest;
mod opening;
mod reporting;
mod session;

pub use checking::check_texts;
pub use fault::{CheckTextsFault, OpenFault, ReportFault};
pub use latest::Latest;
pub use opening::are_report_terms;
pub use reporting::diagnose_texts;
pub use session::Session;
