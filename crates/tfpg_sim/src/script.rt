//! Reads a script.

ghost use Rattle.std.specs.Prelude.{◌≡◌, ◌<◌, ◌≤◌, length, IfOk, IfErr};
ghost use Rattle.std.specs.List.{list_any};
ghost use Rattle.tfpg_base.specs.Lines.{lines_of};
ghost use Rattle.tfpg_sim.specs.Script.{SpellsScript, has_stopped, starts};
ghost use Rattle.tfpg_sim.specs.inside.ScriptReading.{is_new, may_follow, next_entry};
ghost use Rattle.tfpg_sim.specs.inside.Entries.{IsScript};
ghost use Rattle.tfpg_sim.specs.ScriptFaults.{IsSimFault};

use crate::SimFault;
use crate::entry::{Entry, time_so_far};
use crate::limits::MAX_ENTRIES;
use crate::script_line::read_entry;
use std::alloc::Global;
use tfpg_base::without_last_line_end;
use tfpg_graph::Graph;
use tfpg_log::MAX_MODE_CHANGES;

/// The lines of the script, of which the last is the stop, or the number of the first line at fault. Takes time linear in
/// the text, but for look-ups by name, and for each start and each change of mode a walk over the lines before it, of
/// which there are at most 65 and 1,025.
pub(crate) fn read_script(alloc: Global, graph: &Graph, text: &[u8]) -> Result<Vec<Entry>, SimFault>
    ensures read { IfOk result (λ entries. SpellsScript graph.now (lines_of text.now) entries.items) }
    ensures script { IfOk result (λ entries. IsScript graph.now entries.items) }
    ensures fault { IfErr result (IsSimFault graph.now text.now) }
{
    graph.is_always_valid();
    if text.is_empty() {
        return Err(SimFault::BadScript { line: 1 });
    }
    let mut entries = Vec::new(alloc);
    for line in without_last_line_end(text).split(|byte| *byte == b'\n') {
        let Some(entry) = next_entry(graph, &entries, line) else {
            return Err(SimFault::BadScript {
                line: entries.len() as u64 + 1,
            });
        };
        entries.push(entry)?;
    }
    if !has_stopped(&entries) {
        return Err(SimFault::BadScript {
            line: entries.len() as u64 + 1,
        });
    }
    Ok(entries)
}

/// What a line after these says, where it is right.
fn next_entry(graph: &Graph, before: &[Entry], line: &[u8]) -> Option<Entry>
    ensures { result ≡ next_entry graph.now before.now line.now }
{
    let entry = read_entry(graph, line)?;
    if may_follow(before, entry) {
        Some(entry)
    } else {
        None
    }
}

/// Whether the line may come after these.
fn may_follow(before: &[Entry], entry: Entry) -> bool
    ensures { result ≡ may_follow before.now entry }
{
    before.len() < MAX_ENTRIES
        && !has_stopped(before)
        && time_so_far(before) <= entry.time()
        && is_new(before, entry)
}

/// Whether the last line is the stop.
fn has_stopped(entries: &[Entry]) -> bool
    ensures { result ≡ has_stopped entries.now }
{
    match entries.last() {
        Some(entry) => entry.is_stop(),
        None => false,
    }
}

/// Whether a start is the first of its failure mode, and a change of mode is not one too many.
fn is_new(before: &[Entry], entry: Entry) -> bool
    ensures { result ≡ is_new before.now entry }
{
    match entry {
        Entry::Start { node, .. } => !has_started(before, node),
        Entry::Mode { .. } => {
            before
                .iter()
                .filter(|earlier| earlier.changes_mode())
                .count()
                < MAX_MODE_CHANGES as usize
        }
        Entry::Sweep { .. } | Entry::Tick { .. } | Entry::Stop { .. } => true,
    }
}

/// Whether one of the lines starts this failure mode.
fn has_started(entries: &[Entry], failure: u32) -> bool
    ensures { result ≡ list_any (starts failure) entries.now }
{
    entries.iter().any(|entry| entry.starts(failure))
}
