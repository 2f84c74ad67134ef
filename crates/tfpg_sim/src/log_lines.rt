//! The text of a simulated log.

ghost use Rattle.std.specs.Prelude.{◌≡◌, All, IfOk};
ghost use Rattle.std.specs.List.{flat_map};
ghost use Rattle.tfpg_base.specs.Append.{Appends};
ghost use Rattle.tfpg_log.specs.EventLines.{event_line, HasNames};

use std::alloc::Global;
use tfpg_base::{Bytes, NoMemory};
use tfpg_graph::Graph;
use tfpg_log::{Event, append_event};

/// The text of the events, a line for each.
pub(crate) fn log_text(alloc: Global, graph: &Graph, events: &[Event]) -> Result<Bytes, NoMemory>
    requires { All (HasNames graph.now) events.now }
    ensures { IfOk result (λ text. text ≡ flat_map (event_line graph.now) events.now) }
{
    let mut text = Vec::new(alloc);
    append_events(graph, events, &mut text)?;
    Ok(Bytes::from_vec(text))
}

/// Appends the lines of the events.
fn append_events(graph: &Graph, events: &[Event], into: &mut Vec<u8>) -> Result<(), NoMemory>
    requires { All (HasNames graph.now) events.now }
    ensures { Appends result into.old.items into.new.items (flat_map (event_line graph.now) events.now) }
{
    for event in events {
        append_event(graph, *event, into)?;
    }
    Ok(())
}
