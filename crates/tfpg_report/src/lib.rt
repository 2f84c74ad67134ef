//! The text of a report, both ways.
//!
//! - [`head`] appends its first line.
//! - [`refused`] appends the block of a line that was refused.
//! - [`render`] appends the block of a round.
//! - [`lost`] appends the line of a lost panel. A panel is a listener to rounds.
//! - [`append_set`], [`append_set_line`], [`append_activations`], [`append_steps`] and [`append_counts`] append the text of a set,
//!   a line that ends with one, the lines of a trace, the lines of steps and the counts of a round, for other texts that have them.
//!   The text of a set names its failure modes, and then the monitors that are not believed, each with a `!` before the name of its
//!   node.
//! - [`RefusedLine`] is why a line has a block of its own in place of a round.
//! - [`read_report_line`] reads one line of a report, whoever wrote it: a [`ReportLine`], or a [`LineRefusal`]. [`read_set`]
//!   reads the text of a set as a hypothesis, for other texts that have one.
//! - [`BlockReader`] takes a report line by line. [`Fed`] is what a line completes, and [`ReadRound`] a round as its lines say it,
//!   each part with the number of its first line. [`Stand`] is what may come next.
//! - [`laws`] has what the definitions of this crate come to.
//!
//! ```
//! let mut text = Vec::new(alloc);
//! head(1, 0, 1000, &mut text)?;
//! refused(1, RefusedLine::TooLong, &mut text)?;
//! assert_eq!(rt; text.as_slice(), b"report 2 k 1 doubt 0 budget 1000\nrefused 1 TooLong\n".as_slice());
//! ```
//!
//! # Proved, and by which clause
//!
//! - The text of each block, byte for byte: `head`, `refused`, `render`.
//! - The lines of a report and its blocks, read exactly: `read_report_line`, `BlockReader::take`.
//! - What is written of a round, read back: law `a_rendered_round_is_read_back`.
#![tactic(auto)]

mod block_reader;
mod fed;
mod first_line;
mod hypothesis_lines;
pub mod laws;
mod lost_line;
mod names;
mod ranked_lines;
mod read_round;
mod reading;
mod reason_line;
mod refused_block;
mod report_line;
mod round_block;
mod sections;
mod set_line;
mod split_line;
mod stand;
mod step_lines;
mod steps_block;

pub use block_reader::BlockReader;
pub use fed::{Fed, ReadRefusal};
pub use first_line::head;
pub use lost_line::lost;
pub use ranked_lines::append_activations;
pub use read_round::{
    NamedSet, NamedSetList, Part, PartList, RankedLine, RankedLineList, ReadRound,
};
pub use reading::{LineRefusal, read_report_line, read_set};
pub use refused_block::refused;
pub use report_line::ReportLine;
pub use round_block::{append_counts, render};
pub use set_line::{append_set, append_set_line};
pub use stand::Stand;
pub use steps_block::append_steps;
pub use tfpg_log::RefusedLine;
