//! Reading a report.

mod first_words;
pub(crate) mod named_graph;
mod read_activation;
mod read_blocks;
mod read_findings;
mod read_line;
mod read_steps;
mod set_word;

pub(crate) use read_activation::activation_in;
pub(crate) use read_line::read_named_line;
pub use read_line::{LineRefusal, read_report_line};
pub use set_word::read_set;
