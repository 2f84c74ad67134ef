//! The line of an event, as a log has it.

ghost use Rattle.tfpg_base.specs.Append.{Appends};
ghost use Rattle.tfpg_log.specs.EventLines.{event_line, HasNames};

use crate::event::Event;
use itoa::Buffer;
use tfpg_base::{NoMemory, append_line};
use tfpg_graph::Graph;

/// Appends the line of an event, with its line end.
pub fn append_event(graph: &Graph, event: Event, into: &mut Vec<u8>) -> Result<(), NoMemory>
    requires { HasNames graph.now event }
    ensures { Appends result into.old.items into.new.items (event_line graph.now event) }
{
    let mut digits = Buffer::new();
    let time = digits.format(event.time()).as_bytes();
    match event {
        Event::Alarm { node, .. } => append_line(into, &[time, b"alarm", graph.name(node)]),
        Event::Silent { node, .. } => append_line(into, &[time, b"silent", graph.name(node)]),
        Event::Sweep { .. } => append_line(into, &[time, b"sweep"]),
        Event::Tick { .. } => append_line(into, &[time, b"tick"]),
        Event::Mode { mode, .. } => append_line(into, &[time, b"mode", graph.mode_name(mode)]),
    }
}
