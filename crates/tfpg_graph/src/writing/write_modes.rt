//! The word for the modes of an edge, as it is written.

ghost use Rattle.std.specs.Prelude.{◌≡◌, ◌<◌, ◌≤◌, ◌-◌, ◌^◌, length};
ghost use Rattle.std.specs.List.{join_with_byte};
ghost use Rattle.tfpg_base.specs.Append.{Appends};
ghost use Rattle.tfpg_graph.specs.Text.{modes_word};
ghost use Rattle.tfpg_graph.specs.inside.writing.Written.{mode_names_before};

use crate::edge::{Edge, all_modes};
use crate::graph::Graph;
use crate::limits::MAX_MODES;
use tfpg_base::{NoMemory, append_part};

/// Appends the word for the modes of the edge: a star for all, else their names in order with commas between.
pub(crate) fn append_modes_word(
    graph: &Graph,
    edge: &Edge,
    into: &mut Vec<u8>,
) -> Result<(), NoMemory>
    requires some { 0 < length graph.now.modes }
    requires few { length graph.now.modes ≤ MAX_MODES }
    ensures { Appends result into.old.items into.new.items (modes_word graph.now edge.now.modes) }
{
    if edge.modes == all_modes(graph.mode_count()) {
        into.push(b'*')?;
        return Ok(());
    }
    append_mode_names(graph, edge, into)
}

/// Appends the names of the modes of the edge with commas between.
fn append_mode_names(graph: &Graph, edge: &Edge, into: &mut Vec<u8>) -> Result<(), NoMemory>
    requires { length graph.now.modes ≤ MAX_MODES }
    ensures { Appends result into.old.items into.new.items
        (join_with_byte 44 (mode_names_before graph.now edge.now.modes (length graph.now.modes))) }
{
    let mut is_first = true;
    for mode in 0..graph.mode_count() {
        if edge.is_active_in(mode) {
            append_part(into, b',', is_first, graph.mode_name(mode))?;
            is_first = false;
        }
    }
    Ok(())
}
