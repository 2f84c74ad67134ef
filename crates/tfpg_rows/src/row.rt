//! Files, and what the runs of a row have in common.

use crate::panels::PanelFaults;
use crate::view::View;
use std::alloc::Global;
use tfpg_base::NoMemory;

/// A file by its name.
#[derive(Drop)]
pub(crate) struct NamedFile {
    pub(crate) name: String,
    pub(crate) text: Vec<u8>,
}

/// What a run is made again with, once for each number in turn.
#[derive(Clone, Copy)]
pub(crate) enum InTurn {
    /// The input, at which the call of this number fails, up to the last number.
    ReadFails(u64),
    /// The output, at which it does.
    WriteFails(u64),
    /// The front of the input of so many bytes, from none up to all.
    Cut,
}

/// Lines of the input, counted from 1, in whose place others stand.
#[derive(Drop)]
pub(crate) struct Change {
    pub(crate) first: u64,
    pub(crate) last: u64,
    pub(crate) text: Vec<u8>,
}

impl Change {
    /// The input with the change: where no line is taken out, the others stand before the first.
    fn made(&self, alloc: Global, input: &[u8]) -> Result<Vec<u8>, NoMemory> {
        let mut text = Vec::new(alloc);
        let mut number = 0_u64;
        let mut is_done = false;
        for line in input.split_inclusive(|byte| *byte == b'\n') {
            number = number.saturating_add(1);
            if number >= self.first && !is_done {
                text.extend_from_slice(&self.text)?;
                is_done = true;
            }
            if number < self.first || number > self.last {
                text.extend_from_slice(line)?;
            }
        }
        if !is_done {
            text.extend_from_slice(&self.text)?;
        }
        Ok(text)
    }
}

/// What the runs of a row have in common.
#[derive(Drop)]
pub(crate) struct Row {
    /// The bytes of the input, before any change.
    pub(crate) input: Vec<u8>,
    /// The change of the input, where there is one.
    pub(crate) change: Option<Change>,
    /// How many bytes a call reads or writes at most: 0 where each run is made twice, in pieces of one byte and of many.
    pub(crate) room: usize,
    /// The calls at which fetching a file fails.
    pub(crate) file_fails: Vec<u64>,
    /// The calls at which the input fails.
    pub(crate) read_fails: Vec<u64>,
    /// The calls at which the output fails.
    pub(crate) write_fails: Vec<u64>,
    /// The panels of the desk.
    pub(crate) panels: Vec<PanelFaults>,
    /// What a run is made again with.
    pub(crate) in_turn: Option<InTurn>,
    /// Which part of what was written is shown.
    pub(crate) view: View,
}

impl Row {
    /// No input, no fault, no panel, and all that is written is shown.
    pub(crate) fn new(alloc: Global) -> Row {
        Row {
            input: Vec::new(alloc),
            change: None,
            room: 0,
            file_fails: Vec::new(alloc),
            read_fails: Vec::new(alloc),
            write_fails: Vec::new(alloc),
            panels: Vec::new(alloc),
            in_turn: None,
            view: View::new(alloc),
        }
    }

    /// The bytes of the input, with the change.
    pub(crate) fn changed_input(&self, alloc: Global) -> Result<Vec<u8>, NoMemory> {
        match &self.change {
            None => Ok(Vec::from_slice(alloc, &self.input)?),
            Some(change) => change.made(alloc, &self.input),
        }
    }
}
