//! The log of alarms, silences and mode changes, and what it means for a trace to explain it.
//!
//! - [`Log`] is the log of accepted lines, with its look-ups. It is offered lines, or takes events that may come next.
//! - [`Event`] is what a line of the log says, once it is accepted, and [`Offered`] what becomes of a line.
//! - [`append_event`] writes the line of an event.
//! - [`Interval`] has the instants that an alarm leaves for the activation of its node.
//! - [`Refusal`] says why a line is refused, and [`RefusedLine`] also that it is too long, as [`is_too_long`] says.
//! - [`MAX_EVENTS`] and [`MAX_MODE_CHANGES`] say how much a log may have.
//! - [`Span`] is a run of instants of one mode, and [`Window`] a run of spans in which an edge is active.
//! - [`laws`] has what the definitions come to: what ages, spans and windows are in other words, how ages follow from
//!   windows, which events a node's alarm and its last silence are, that what is shown of these is what is looked up, that
//!   nothing becomes active outside a set's reach, that a larger set explains what a smaller one does, and that a log keeps
//!   its past.
//!
//! Its definitions, in `specs/`, are those that every crate above stands on: the mode of an instant, the age of an
//! edge, the propagation rules, and which sets of failure modes fit the log.
//!
//! ```
//! let mut log = Log::new(rt.alloc());
//! log.offer(&graph, b"5 sweep")?; // Offered::Accepted(Event::Sweep { time: 5 })
//! log.offer(&graph, b"4 tick")?; // Offered::Refused(Refusal::TimeBack { last: 5 })
//! log.now(); // 5
//! ```
//!
//! # Proved, and by which clause
//!
//! - A line is accepted or refused as `reply_to` says: `Log::offer`.
//! - What the definitions find as spans, windows and ages are the maximal runs and the greatest ages: its laws.
//!
//! # Not proved
//!
//! - That `reply_to` is the right rule.
//! - It is a definition, held against worked examples.
#![tactic(auto)]

mod active_modes;
mod event;
mod event_line;
mod interval;
pub mod laws;
mod limits;
mod log;
mod log_line;
mod mode_change;
mod node_events;
mod refusal;
mod refused_line;
mod reply;
mod span;
mod spans;
mod windows;

pub use event::{Event, Offered};
pub use event_line::append_event;
pub use interval::Interval;
pub use limits::{MAX_EVENTS, MAX_MODE_CHANGES};
pub use log::Log;
pub use refusal::Refusal;
pub use refused_line::{RefusedLine, is_too_long};
pub use span::{Span, Window};
