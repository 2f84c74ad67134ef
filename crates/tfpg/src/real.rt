//! The outside as it is: standard input, standard output, files by name, and files as panels.
//!
//! These adapters are the trusted edge: no clause sees which bytes reach the system or come from it, since those of a real
//! file or stream are not known. Where those of the reader or writer under an adapter are, as of a slice or a vector, the
//! adapter passes on exactly those. Each counts its faults, up to the last value of the count.

mod file_panel;
mod file_shelf;
mod standard_input;
mod standard_output;
pub mod steady;
#[cfg(test)]
mod tests;
mod tries;

pub(crate) use file_panel::FilePanel;
pub(crate) use file_shelf::FileShelf;
pub(crate) use standard_input::StandardInput;
pub(crate) use standard_output::StandardOutput;
