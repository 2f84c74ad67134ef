//! Rows are worked runs as data. This program makes the runs that standard input describes, over files and streams in memory, and the
//! calls over texts, and writes what came of each.
//!
//! The runs stand in `stdin`, and what has to come of them, worked out by hand, in `stdout`. `docs/rows.md` says how both are
//! written.
#![tactic(auto)]

mod answer;
mod answers;
mod bytes;
mod evidence;
mod made;
mod panels;
mod reader;
mod row;
mod runs;
mod texts;
mod view;

use reader::RowReader;
use std::alloc::Global;
use std::io;
use std::io::{Read, Write};
use tfpg_base::NoMemory;

/// Answers the lines of standard input on standard output.
fn main(rt: HostRuntime) -> io::Result<()> {
    let mut text = Vec::new(rt.alloc());
    rt.stdin().read_to_end(&mut text)?;
    match answered(rt.alloc(), &text) {
        Ok(answer) => rt.stdout().write_all(&answer),
        Err(NoMemory) => Err(io::Error::from(io::ErrorKind::OutOfMemory)),
    }
}

/// What came of the runs that the lines of the text describe.
fn answered(alloc: Global, text: &[u8]) -> Result<Vec<u8>, NoMemory> {
    let mut reader = RowReader::new(alloc);
    for line in text.split(|byte| *byte == b'\n') {
        reader.take_line(line)?;
    }
    Ok(reader.into_answer())
}
