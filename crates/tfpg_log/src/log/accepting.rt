//! How a log takes one more event, and keeps its indexes.

ghost use Rattle.std.specs.Prelude.{◌≡◌, ◌<◌, ◌≤◌, count_by, IsTrue, OnOk, OnErr, vec_len};
ghost use Rattle.tfpg_log.specs.EventLines.{IsNextEvent};
ghost use Rattle.tfpg_log.specs.Log.{IsLogOf, with_event, time_of_event, is_mode_change};
ghost use Rattle.tfpg_log.specs.declared.limits.TheConstants.{MAX_MODE_CHANGES};
ghost use Rattle.tfpg_log.specs.inside.LogIndex.{MayComeAt};
ghost use Rattle.tfpg_log.specs.inside.NodeEvents.{AreSameOfNodes};

use crate::event::Event;
use crate::log::Log;
use crate::node_events::NodeEvents;
use crate::spans::take_change;
use tfpg_base::NoMemory;
use tfpg_graph::Graph;

impl Log {
    /// Adds an event that may come next in a log of the graph: it is then the last. Where memory runs out, the log stays as it
    /// was. Costs what [`Log::offer`] does of a line that is accepted, without the reading of its text.
    pub fn add(&mut self, graph: &Graph, event: Event) -> Result<(), NoMemory>
        requires of { IsLogOf graph.now self.old }
        requires next { IsNextEvent graph.now self.old event }
        ensures ok { OnOk result (self.new ≡ with_event self.old event) }
        ensures err { OnErr result (self.new ≡ self.old) }
        ensures of { IsLogOf graph.now self.new }
    {
        self.accept(event)
    }

    /// Takes the event as its last. Where there is no memory for it, the log stays as it was.
    pub(crate) fn accept(&mut self, event: Event) -> Result<(), NoMemory>
        requires may_come { MayComeAt self.old (time_of_event event) }
        requires mode_room { IsTrue (is_mode_change event) →
            count_by is_mode_change self.old.events < MAX_MODE_CHANGES }
        ensures ok { OnOk result (self.new ≡ with_event self.old event) }
        ensures err { OnErr result (self.new ≡ self.old) }
    {
        match event {
            Event::Alarm { time, node } => self.accept_alarm(time, node),
            Event::Silent { time, node } => self.accept_silence(time, node),
            Event::Sweep { time } => self.accept_sweep(time),
            Event::Tick { .. } => {
                self.events.push(event)?;
                Ok(())
            }
            Event::Mode { time, mode } => self.accept_mode_change(time, mode),
        }
    }

    /// Takes an alarm of a node.
    fn accept_alarm(&mut self, time: u64, node: u32) -> Result<(), NoMemory>
        requires { MayComeAt self.old time }
        ensures ok { OnOk result (self.new ≡ with_event self.old (Event.Alarm time node)) }
        ensures err { OnErr result (self.new ≡ self.old) }
    {
        let before = self.node_events(node);
        let events = before.with_alarm(self.len() + 1, self.last_sweep);
        lengthen(&mut self.nodes, node as usize + 1)?;
        self.events.push(Event::Alarm { time, node })?;
        self.nodes[node as usize] = events;
        Ok(())
    }

    /// Takes a silence of a node's own.
    fn accept_silence(&mut self, time: u64, node: u32) -> Result<(), NoMemory>
        requires { MayComeAt self.old time }
        ensures ok { OnOk result (self.new ≡ with_event self.old (Event.Silent time node)) }
        ensures err { OnErr result (self.new ≡ self.old) }
    {
        let before = self.node_events(node);
        let events = NodeEvents {
            first_alarm: before.first_alarm,
            last_alarm: before.last_alarm,
            silence: Some(self.len() + 1),
            sweep: before.sweep,
        };
        lengthen(&mut self.nodes, node as usize + 1)?;
        self.events.push(Event::Silent { time, node })?;
        self.nodes[node as usize] = events;
        Ok(())
    }

    /// Takes a sweep.
    fn accept_sweep(&mut self, time: u64) -> Result<(), NoMemory>
        requires { MayComeAt self.old time }
        ensures ok { OnOk result (self.new ≡ with_event self.old (Event.Sweep time)) }
        ensures err { OnErr result (self.new ≡ self.old) }
    {
        let number = self.len() + 1;
        self.events.push(Event::Sweep { time })?;
        self.last_sweep = Some(number);
        Ok(())
    }

    /// Takes a change of mode.
    fn accept_mode_change(&mut self, time: u64, mode: u32) -> Result<(), NoMemory>
        requires may_come { MayComeAt self.old time }
        requires mode_room { count_by is_mode_change self.old.events < MAX_MODE_CHANGES }
        ensures ok { OnOk result (self.new ≡ with_event self.old (Event.Mode time mode)) }
        ensures err { OnErr result (self.new ≡ self.old) }
    {
        self.changes.reserve(1)?;
        self.events.push(Event::Mode { time, mode })?;
        take_change(&mut self.changes, time, mode)?;
        self.change_count += 1;
        Ok(())
    }
}

/// Makes the list at least so long. What it says of each node stays as it was.
fn lengthen(nodes: &mut Vec<NodeEvents>, len: usize) -> Result<(), NoMemory>
    ensures long { OnOk result (len ≤ vec_len nodes.new) }
    ensures same { AreSameOfNodes nodes.new.items nodes.old.items }
{
    if nodes.len() < len {
        nodes.resize(len, NodeEvents::none())?;
    }
    Ok(())
}
