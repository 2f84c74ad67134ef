//! What becomes of a line that is offered to a log: the event that is accepted, or the first refusal that holds.

ghost use Rattle.std.specs.Prelude.{◌≡◌, Some, Ok, IfOk, OnErr, IsTrue, MatchResult};
ghost use Rattle.std.specs.Str.Parse.{digits_value};
ghost use Rattle.tfpg_base.specs.Choice.{first_of, unless_refused};
ghost use Rattle.tfpg_graph.specs.Graph.{node_named, is_monitored};
ghost use Rattle.tfpg_log.specs.declared.refusal.Refusal.{Refusal};
ghost use Rattle.tfpg_log.specs.Log.{IsLogOf};
ghost use Rattle.tfpg_log.specs.LogStatements.{Alarm, Silent, Mode};
ghost use Rattle.tfpg_log.specs.Accepted.{time_refusals, monitor_refusals, room_refusal, statement_refusals, event_of, offered, reply_to};
ghost use Rattle.tfpg_log.specs.LogOfLines.{log_after_reply};
ghost use Rattle.tfpg_log.specs.inside.LogLine.{log_statement_seen};

use crate::event::{Event, Offered};
use crate::log::Log;
use crate::log_line::{LogStatement, read_line};
use crate::refusal::Refusal;
use tfpg_base::{MAX_TIME, NoMemory, Number, read_number};
use tfpg_graph::Graph;

impl Log {
    /// What becomes of the line. It is accepted, and then its event is the last; or it is refused, and then the log stays
    /// as it was. It also stays so where memory runs out. A refused line takes no memory. The line may have any length.
    ///
    /// Takes time linear in the length of the line, and at most one look-up by name, however long the log is. Now and then a list
    /// grows and is moved, which evens out over the calls. An alarm or a silence may lengthen the list of what is kept of
    /// each node, up to its own.
    pub fn offer(&mut self, graph: &Graph, line: &[u8]) -> Result<Offered, NoMemory>
        requires { IsLogOf graph.now self.old }
        ensures reply { IfOk result (λ reply. reply ≡ reply_to graph.now self.old line.now) }
        ensures log { IfOk result (λ reply. self.new ≡ log_after_reply self.old reply) }
        ensures refused { (refusal : Refusal) →
            reply_to graph.now self.old line.now ≡ Offered.Refused refusal →
            result ≡ Ok (Offered.Refused refusal) }
        ensures err { OnErr result (self.new ≡ self.old) }
        ensures of { IsLogOf graph.now self.new }
    {
        let offered = reply(graph, self, line);
        match offered {
            Offered::Accepted(event) => {
                self.accept(event)?;
                Ok(offered)
            }
            Offered::Refused(_) => Ok(offered),
        }
    }
}

/// What becomes of the line. Takes time linear in its length, and at most one look-up by name.
fn reply(graph: &Graph, log: &Log, line: &[u8]) -> Offered
    ensures { result ≡ reply_to graph.now log.now line.now }
{
    match event_or_refusal(graph, log, line) {
        Ok(event) => Offered::Accepted(event),
        Err(refusal) => Offered::Refused(refusal),
    }
}

/// The event of the line, or the first refusal that holds.
fn event_or_refusal(graph: &Graph, log: &Log, line: &[u8]) -> Result<Event, Refusal>
    ensures { offered result ≡ reply_to graph.now log.now line.now }
{
    let Some(line) = read_line(line) else {
        return Err(Refusal::BadLine);
    };
    let time = read_time(line.time, log.now())?;
    judge_statement(graph, log, time, line.statement)
}

/// The time that the word spells, where it is not too large and not before now.
fn read_time(word: &[u8], now: u64) -> Result<u64, Refusal>
    ensures { result ≡ unless_refused (first_of (time_refusals now word.now)) (digits_value 10 word.now) }
{
    match read_number(word, MAX_TIME) {
        Number::NotANumber => Err(Refusal::BadNumber),
        Number::TooLarge => Err(Refusal::TimeTooLarge),
        Number::Value(time) if time < now => Err(Refusal::TimeBack { last: now }),
        Number::Value(time) => Ok(time),
    }
}

/// The event of what a line says at this time.
fn judge_statement(
    graph: &Graph,
    log: &Log,
    time: u64,
    statement: LogStatement<'_>,
) -> Result<Event, Refusal>
    ensures { result ≡ unless_refused
        (first_of (statement_refusals graph.now log.now (log_statement_seen statement.entry)))
        (event_of graph.now time (log_statement_seen statement.entry)) }
{
    match statement {
        LogStatement::Alarm(name) => judge_alarm(graph, log, time, name),
        LogStatement::Silent(name) => judge_silence(graph, log, time, name),
        LogStatement::Sweep => judge_room(log, Event::Sweep { time }),
        LogStatement::Tick => judge_room(log, Event::Tick { time }),
        LogStatement::Mode(name) => judge_mode(graph, log, time, name),
    }
}

/// The event, where there is room for it.
fn judge_room(log: &Log, event: Event) -> Result<Event, Refusal>
    ensures { result ≡ unless_refused (room_refusal log.now) event }
{
    if log.is_full() {
        return Err(Refusal::LogFull);
    }
    Ok(event)
}

fn judge_alarm(graph: &Graph, log: &Log, time: u64, name: &[u8]) -> Result<Event, Refusal>
    ensures { result ≡ unless_refused
        (first_of (statement_refusals graph.now log.now (Alarm name.now)))
        (event_of graph.now time (Alarm name.now)) }
{
    let node = find_monitor(graph, name)?;
    judge_room(log, Event::Alarm { time, node })
}

fn judge_silence(graph: &Graph, log: &Log, time: u64, name: &[u8]) -> Result<Event, Refusal>
    ensures { result ≡ unless_refused
        (first_of (statement_refusals graph.now log.now (Silent name.now)))
        (event_of graph.now time (Silent name.now)) }
{
    let node = find_monitor(graph, name)?;
    judge_room(log, Event::Silent { time, node })
}

fn judge_mode(graph: &Graph, log: &Log, time: u64, name: &[u8]) -> Result<Event, Refusal>
    ensures { result ≡ unless_refused
        (first_of (statement_refusals graph.now log.now (Mode name.now)))
        (event_of graph.now time (Mode name.now)) }
{
    let Some(mode) = graph.find_mode(name) else {
        return Err(Refusal::NotAMode);
    };
    let event = judge_room(log, Event::Mode { time, mode })?;
    if log.has_all_mode_changes() {
        return Err(Refusal::ModesFull);
    }
    Ok(event)
}

/// The node of this name, where it is monitored.
fn find_monitor(graph: &Graph, name: &[u8]) -> Result<u32, Refusal>
    ensures { MatchResult result
        (λ node. (node_named graph.now name.now ≡ Some node) × IsTrue (is_monitored graph.now node))
        (λ refusal. first_of (monitor_refusals graph.now name.now) ≡ Some refusal) }
{
    let Some(node) = graph.find(name) else {
        return Err(Refusal::UnknownName);
    };
    if !graph.kind(node).is_monitored() {
        return Err(Refusal::NotMonitored);
    }
    Ok(node)
}
