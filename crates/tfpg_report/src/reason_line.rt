//! The line of a reason.

ghost use Rattle.std.specs.Prelude.{◌≡◌};
ghost use Rattle.tfpg_base.specs.Append.{Appends};
ghost use Rattle.tfpg_evidence.specs.RoundOf.{IsReasonOf};
ghost use Rattle.tfpg_graph.specs.Graph.{sizes_of};
ghost use Rattle.tfpg_report.specs.inside.Texts.{reason_text};

use itoa::Buffer;
use tfpg_base::{NoMemory, append_line};
use tfpg_evidence::Reason;
use tfpg_graph::Graph;

/// Appends the line of a reason.
pub(crate) fn append_reason(
    graph: &Graph,
    reason: Reason,
    into: &mut Vec<u8>,
) -> Result<(), NoMemory>
    requires { IsReasonOf (sizes_of graph.now) reason }
    ensures { Appends result into.old.items into.new.items (reason_text graph.now reason) }
{
    let mut digits = Buffer::new();
    match reason {
        Reason::Zero { node } => append_line(into, &[b"why", b"zero", graph.name(node)]),
        Reason::Top { node } => append_line(into, &[b"why", b"top", graph.name(node)]),
        Reason::Unreached { node, horizon } => {
            let horizon = digits.format(horizon).as_bytes();
            append_line(into, &[b"why", b"unreached", graph.name(node), horizon])
        }
        Reason::From { event } => append_line(
            into,
            &[b"why", b"from", digits.format(event).as_bytes()],
        ),
        Reason::Upto { event } => append_line(
            into,
            &[b"why", b"upto", digits.format(event).as_bytes()],
        ),
        Reason::Quiet { event, node } => {
            let event = digits.format(event).as_bytes();
            append_line(into, &[b"why", b"quiet", event, graph.name(node)])
        }
        Reason::Pick { split, place } => {
            let mut place_digits = Buffer::new();
            let split = digits.format(split).as_bytes();
            let place = place_digits.format(place).as_bytes();
            append_line(into, &[b"why", b"pick", split, place])
        }
    }
}
