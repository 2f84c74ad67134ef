//! What a report of a list of lines is, and the judge of reports.
//!
//! - [`Judge`] takes a report line by line, and judges it by a graph and the text of a log. It keeps what the next lines are judged
//!   by, and not the report. The text is a [`LogText`], which it owns or borrows.
//! - [`JudgeFault`] is why a report is not accepted, and [`CheckCause`] the first test that it fails.
//!   [`check_cause_word`] is the name of such a cause.
//!
//! [`laws`] says how far a report has come after each block, that equal reports say the same, that each line of a report can be read,
//! that a report whose lines can be read has no cause for which it would not be accepted, and that no lines have more than one; also that
//! lines that are accepted to the end are those of a report, and that a round passes each test exactly if it is right.
//!
//! A report of one line, which has none of the shapes of a line of a log:
//!
//! ```text
//! report 2 k 2 doubt 0 budget 1000
//! refused 1 BadLine
//! ```
//!
//! # Proved, and by which clause
//!
//! - The rounds and the log after one more block follow from those before it: law `a_report_goes_on_block_by_block`.
//! - Equal reports say the same: law `equal_reports_say_the_same`.
//! - A report of at most 2^32 bytes has lines that can be read: law `the_lines_of_a_report_can_be_read`.
//! - A report whose lines can be read has no cause: law `a_report_has_no_cause`.
//! - Lines have at most one cause, and those of a report of at most 2^32 bytes none: law
//!   `lines_have_at_most_one_cause`.
//! - Lines that are accepted to the end are those of a report: law `accepted_lines_are_those_of_a_report`.
//! - A round passes each test exactly if it is right: law `a_round_passes_if_it_is_right`.
//! - The judge of reports: `Judge::take`, `Judge::end`.
//!
//! # Not proved
//!
//! - That the number in a `pick` and the length of a `cycle` keep a limit in a report of more bytes.
#![tactic(auto)]

mod block_judge;
mod cause;
mod cause_names;
mod judge;
mod judge_fault;
mod kept_flags;
mod kept_hypotheses;
pub mod laws;
mod log_lines;
mod log_text;
mod round;
mod round_fault;

pub use cause::CheckCause;
pub use cause_names::check_cause_word;
pub use judge::Judge;
pub use judge_fault::JudgeFault;
pub use log_text::LogText;
