//! What every other crate of the diagnoser stands on: the outside (sources, sinks and shelves of files),
//! lines of bytes, the words on a line, sets of failure modes, traces and difference constraints.
//!
//! - [`Source`], [`Sink`] and [`Shelf`] are the outside. Each counts the calls that failed, and contracts may know its
//!   contents. [`MemorySource`], [`MemorySink`] and [`MemoryShelf`] are each in memory; a [`SteadySource`]
//!   never fails. [`FaultCount`] is such a count. [`Failed`] and [`ShelfFault`] say why a call failed.
//! - [`Lines`] cuts what a source gives into lines. [`without_last_line_end`] returns a text without the line end
//!   at its end. [`LineFault`] says why there is no line.
//! - [`append_to_file`] appends a part of a file, as far as a file may go.
//! - [`Words`] cuts a line into words, and [`parts_at_commas`] a word into parts.
//!   [`read_name`] and [`read_number`] know the two forms of words that every text format uses; [`Number`] says what is read.
//! - [`Set`] is a set of failure modes, [`Doubts`] one of monitors that may be wrong, and a [`Hypothesis`] has both;
//!   [`NodeNumbers`] is what sets of nodes stand on. [`Trace`] says when which node became active, with an [`Activation`] for each.
//!   [`Constraint`] is a difference constraint over the times of nodes.
//! - [`Terms`] are what a diagnosis is asked with: the greatest size of its hypotheses, how many monitors each may doubt, and
//!   the budget of a round.
//! - [`MAX_TIME`] and the other limits say how long or how large things may be.
//! - [`Items`] is a list that contracts see as one; [`Bytes`], [`NumberList`] and [`LineList`] are such lists, and a crate
//!   names one of its own items by `pub type StepList = Items<Step>;`. [`Text`] is a text that is kept.
//! - [`append_line`] appends a line of words to a text, [`append_words`] its words alone, and [`append_part`] a part of a line with
//!   its separator.
//! - [`Steps`] counts the steps of a call, at no cost. [`earlier`] is the earlier of two times, and [`NoMemory`] says that memory
//!   ran out.
//! - [`laws`] says what the definitions come to.
//!
//! The words of the first line of a text:
//!
//! ```
//! let mut source = SteadySource::new(b"5 alarm A\n9 sweep\n");
//! let mut lines = Lines::new(alloc)?;
//! if lines.next(&mut source)? == Line::Text
//!     && let Some(words) = Words::of(lines.text())
//! {
//!     // words.as_slice() is [b"5", b"alarm", b"A"]
//! }
//! ```
//!
//! # Proved, and by which clause
//!
//! - The lines of all bytes taken, each once, in order: `Lines::next`.
//! - Words, names, numbers: `Words::of`, `read_name`, `read_number`.
//! - A source, a sink and a shelf in memory give, keep and fail exactly as they say: `MemorySource::take`,
//!   `MemorySink::put`, `MemoryShelf::fetch`.
//!
//! # Not proved
//!
//! - Code that calls them through the traits knows the clauses of the traits alone.
#![tactic(auto)]

mod activation;
mod bits;
mod constraint;
mod doubts;
mod fault_count;
mod file;
mod hypothesis;
mod items;
mod last_line_end;
pub mod laws;
mod limits;
mod line;
mod lines;
mod memory;
mod no_memory;
mod node_numbers;
mod outside;
mod set;
mod steps;
mod terms;
mod text;
mod text_line;
mod times;
mod trace;
mod word;
mod words;

pub use activation::Activation;
pub use constraint::Constraint;
pub use doubts::Doubts;
pub use fault_count::FaultCount;
pub use file::append_to_file;
pub use hypothesis::Hypothesis;
pub use items::{Bytes, Items, LineList, NumberList};
pub use last_line_end::without_last_line_end;
pub use limits::{
    BUFFER_SIZE, LONGEST_FILE, LONGEST_LINE, LONGEST_NAME, MAX_BUDGET, MAX_BYTES, MAX_CASE_SIZE,
    MAX_DOUBT, MAX_K, MAX_LINE_NUMBER, MAX_MEMBERS, MAX_NODE_NUMBERS, MAX_PANEL_NUMBER, MAX_TIME,
    MAX_VEHICLES, MAX_WORDS, NEVER,
};
pub use line::{Line, LineFault};
pub use lines::Lines;
pub use memory::{MemoryShelf, MemorySink, MemorySource, SteadySource};
pub use no_memory::NoMemory;
pub use node_numbers::NodeNumbers;
pub use outside::{Failed, Shelf, ShelfFault, Sink, Source};
pub use set::Set;
pub use steps::Steps;
pub use terms::Terms;
pub use text::Text;
pub use text_line::{append_line, append_part, append_words};
pub use times::earlier;
pub use trace::Trace;
pub use word::{Number, read_name, read_number};
pub use words::{Words, parts_at_commas};
