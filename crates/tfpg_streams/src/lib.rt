//! What a run reads line by line and writes piece by piece: its faults, and what is right to write.
//!
//! [`write_all`] writes a whole piece to a sink. [`StreamFault`] is why the input was not read to its end, or the output not written, and
//! [`OutputFault`] why a text was not written.
//!
//! ```
//! write_all(&mut out, b"accepted 3\n")?;
//! ```
//!
//! # Proved, and by which clause
//!
//! - A piece is written whole, or its front, and then the sink failed: `write_all`, `writes`.
//!
//! The definitions are for any notion of what is right to write. Those of one text that is written at the end, and of reading and writing
//! line by line, are in `specs/Outputs.antt`.
#![tactic(auto)]

mod fault;
mod output;

pub use fault::{OutputFault, StreamFault};
pub use output::write_all;
