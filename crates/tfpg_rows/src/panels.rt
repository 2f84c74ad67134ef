//! The panels of a run: at which calls they fail, and what they were told.

use crate::bytes::append_number;
use std::alloc::Global;
use tfpg_base::{LineList, NoMemory};
use tfpg_evidence::Round;
use tfpg_panel::{Desk, LostPanel, MemoryPanel, PanelFault};

/// The calls at which a panel fails, and those at which it runs out of memory, counted from 1.
#[derive(Drop)]
pub(crate) struct PanelFaults {
    pub(crate) failing: Vec<u64>,
    pub(crate) starving: Vec<u64>,
}

impl PanelFaults {
    /// A panel that does neither.
    pub(crate) fn none(alloc: Global) -> PanelFaults {
        PanelFaults {
            failing: Vec::new(alloc),
            starving: Vec::new(alloc),
        }
    }

    /// The panel with these faults, which was told nothing.
    pub(crate) fn panel(&self, alloc: Global) -> Result<MemoryPanel, NoMemory> {
        let failing = LineList::from_vec(Vec::from_slice(alloc, &self.failing)?);
        let starving = LineList::from_vec(Vec::from_slice(alloc, &self.starving)?);
        Ok(MemoryPanel::new(alloc, failing, starving))
    }
}

/// Appends a line for each panel of the desk: whether it was kept, and the numbers of the rounds that it was told.
pub(crate) fn append_panels(desk: &Desk, into: &mut Vec<u8>) -> Result<(), NoMemory> {
    for number in 1..=desk.panel_count() {
        into.extend_from_slice(b"panel ")?;
        append_number(number, into)?;
        append_loss_of(desk.losses(), number, into)?;
        append_told(desk.told(number), into)?;
    }
    Ok(())
}

/// Appends at which round the panel of this number was lost, and why, or that it was kept.
fn append_loss_of(losses: &[LostPanel], number: u64, into: &mut Vec<u8>) -> Result<(), NoMemory> {
    match losses.iter().find(|loss| loss.panel == number) {
        None => into.extend_from_slice(b" kept")?,
        Some(loss) => {
            into.extend_from_slice(match loss.fault {
                PanelFault::Lost => b" lost at ",
                PanelFault::NoMemory => b" memory at ",
            })?;
            append_number(u64::from(loss.round), into)?;
        }
    }
    Ok(())
}

/// Appends the numbers of the rounds that a panel was told, or a hyphen where it was told none.
fn append_told(rounds: Option<&[Round]>, into: &mut Vec<u8>) -> Result<(), NoMemory> {
    match rounds {
        None | Some([]) => into.extend_from_slice(b", told -\n")?,
        Some(rounds) => {
            into.extend_from_slice(b", told")?;
            for round in rounds {
                into.push(b' ')?;
                append_number(u64::from(round.number), into)?;
            }
            into.push(b'\n')?;
        }
    }
    Ok(())
}
