//! A run over files and streams in memory, and what came of it.

ghost use Rattle.std.specs.Prelude.{◌≡◌, ◌<◌};

use crate::panels::{PanelFaults, append_panels};
use std::alloc::Global;
use std::marker::Brand;
use std::sync::ledger::{Blank, Ledger};
use tfpg_base::{MemoryShelf, MemorySink, MemorySource, NoMemory, Steps};
use tfpg_panel::{Desk, Panel};
use tfpg_run::{End, run};

/// What a run has besides its words: the files by name, the input, how many bytes a call reads or writes at most, which calls fail, and
/// the panels of the desk.
#[derive(Clone, Copy)]
pub(crate) struct Outside<'a> {
    pub(crate) files: &'a [(&'a str, &'a [u8])],
    pub(crate) input: &'a [u8],
    pub(crate) room: usize,
    pub(crate) file_fails: &'a [u64],
    pub(crate) read_fails: &'a [u64],
    pub(crate) write_fails: &'a [u64],
    pub(crate) panels: &'a [PanelFaults],
}

/// How a run ended, what it wrote, how many files it asked for, and the lines of its panels.
#[derive(Drop)]
pub(crate) struct Made {
    pub(crate) end: End,
    pub(crate) written: Vec<u8>,
    pub(crate) asked: usize,
    pub(crate) panels: Vec<u8>,
}

/// Makes the run on these words.
pub(crate) fn make_run(
    alloc: Global,
    words: &[String],
    outside: &Outside<'_>,
) -> Result<Made, NoMemory> {
    let room = outside.room.max(1);
    let mut shelf = MemoryShelf::new(alloc, outside.files, outside.file_fails);
    let mut input = MemorySource::new(outside.input, room, outside.read_fails);
    let mut out = MemorySink::new(alloc, room, outside.write_fails);
    let mut panels: Vec<Box<dyn Panel>> = Vec::new(alloc);
    for faults in outside.panels {
        panels.push(Box::new(alloc, faults.panel(alloc)?)?)?;
    }
    let mut desk = Desk::new(alloc, panels)?;
    let end = run_counted::<Brand>(
        alloc,
        words,
        &mut shelf,
        &mut input,
        &mut out,
        &mut desk,
        Blank::new(1),
    );
    let mut told = Vec::new(alloc);
    append_panels(&desk, &mut told)?;
    Ok(Made {
        end,
        written: Vec::from_slice(alloc, out.bytes())?,
        asked: shelf.asked().len(),
        panels: told,
    })
}

/// Runs with a new counter of steps, which costs nothing.
fn run_counted<L: Ledger>(
    alloc: Global,
    words: &[String],
    shelf: &mut MemoryShelf<'_>,
    input: &mut MemorySource<'_>,
    out: &mut MemorySink<'_>,
    desk: &mut Desk,
    blank: Blank,
) -> End
    requires name { blank.name ≡ L.name }
    requires parts { blank.parts ≡ L.parts }
    requires some { 0 < blank.parts }
{
    let mut work = Steps::<L>::new(blank);
    run(alloc, words, shelf, input, out, desk, &mut work)
}
