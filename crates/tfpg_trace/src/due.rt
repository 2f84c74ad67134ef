//! When a discrepancy must be active, span by span. In one span an edge that is due stays due, so it is enough to find the
//! first instant at which it is. How long the edge has been active when the span begins follows from its gap, the last
//! instant before the span at which it was not active.

ghost use Rattle.std.specs.Prelude.{◌≡◌, ◌<◌, ◌≤◌, ◌+◌, ℕ, length, Option, Some, None, min};
ghost use Rattle.tfpg_log.specs.Log.{Logbook, now_of};
ghost use Rattle.tfpg_log.specs.Spans.{span_at};
ghost use Rattle.tfpg_trace.specs.inside.Due.{Begins, IsDueBy, SomeDue, AllDue, MustBeActive};
ghost use Rattle.tfpg_trace.specs.inside.Gaps.{IsGapOf, HasGaps, StartsSpan, after_gap};

use crate::trace_table::TraceTable;
use tfpg_base::earlier;
use tfpg_graph::{Graph, Kind};
use tfpg_log::Span;

/// A node where a span begins, with what is known then of the edges into it.
#[derive(Clone, Copy)]
pub(crate) struct SpanStart<'a> {
    pub(crate) node: u32,
    pub(crate) span: Span,
    /// The gaps of the edges into the node, by their indexes.
    pub(crate) gaps: &'a [Option<u64>],
}

/// The first instant of the span at which the node must be active, where there is one: it must be so from then on to the
/// end of the span. Goes through the edges into the node.
pub(crate) fn due_in_span(
    graph: &Graph,
    trace: &TraceTable<'_>,
    start: &SpanStart<'_>,
) -> Option<u64>
    requires { HasGaps graph.now start.now.node start.now.gaps.now }
    ensures { (log : Logbook) (number : ℕ) →
        StartsSpan graph.now log start.now.node number start.now.span start.now.gaps.now →
        Begins (MustBeActive graph.now log trace.now start.now.node)
        start.now.span.lo start.now.span.hi result }
{
    match graph.kind(start.node) {
        Kind::Failure { .. } => None,
        Kind::Or { .. } => due_by_some(graph, trace, start),
        Kind::And { .. } => due_by_all(graph, trace, start),
    }
}

/// The first instant of the span at which some edge into the node is due: the least of those of its edges.
fn due_by_some(graph: &Graph, trace: &TraceTable<'_>, start: &SpanStart<'_>) -> Option<u64>
    requires { HasGaps graph.now start.now.node start.now.gaps.now }
    ensures { (log : Logbook) (number : ℕ) →
        StartsSpan graph.now log start.now.node number start.now.span start.now.gaps.now →
        Begins (SomeDue graph.now log trace.now start.now.node) start.now.span.lo start.now.span.hi result }
{
    let mut first = None;
    let incoming = graph.incoming(start.node);
    for (index, edge) in incoming.iter().enumerate() {
        first = earlier(
            first,
            due_by_edge(graph, trace, *edge, start.span, start.gaps[index]),
        );
    }
    first
}

/// The first instant of the span at which all edges into the node are due: the greatest of those of its edges, and that
/// of the span where it has none.
fn due_by_all(graph: &Graph, trace: &TraceTable<'_>, start: &SpanStart<'_>) -> Option<u64>
    requires { HasGaps graph.now start.now.node start.now.gaps.now }
    ensures { (log : Logbook) (number : ℕ) →
        StartsSpan graph.now log start.now.node number start.now.span start.now.gaps.now →
        Begins (AllDue graph.now log trace.now start.now.node) start.now.span.lo start.now.span.hi result }
{
    let mut first = start.span.lo;
    let incoming = graph.incoming(start.node);
    for (index, edge) in incoming.iter().enumerate() {
        let due = due_by_edge(graph, trace, *edge, start.span, start.gaps[index])?;
        first = first.max(due);
    }
    Some(first)
}

/// The first instant of the span at which the edge is due: its greatest delay after the later of two, the instant after
/// its gap and the time of its source.
fn due_by_edge(
    graph: &Graph,
    trace: &TraceTable<'_>,
    edge: u32,
    span: Span,
    gap: Option<u64>,
) -> Option<u64>
    requires { edge < length graph.now.edges }
    ensures { (log : Logbook) (number : ℕ) → span_at log number (now_of log) ≡ Some span →
        IsGapOf graph.now log edge number gap →
        Begins (IsDueBy graph.now log trace.now edge) span.lo span.hi result }
{
    let propagation = graph.edge(edge);
    if !propagation.is_active_in(span.mode) {
        return None;
    }
    let delay = propagation.tmax?;
    let start = trace.at(propagation.source)?;
    first_after_gap(gap, start, delay, span)
}

/// The first instant of the span that is at least `delay` after the later of two instants: the one after the gap, and
/// the start.
fn first_after_gap(gap: Option<u64>, start: u64, delay: u64, span: Span) -> Option<u64>
    ensures { Begins (λ instant. after_gap gap start + delay ≤ instant) span.lo span.hi result }
{
    match gap {
        Some(gap) => first_in_span(start.max(gap.checked_add(1)?), delay, span),
        None => first_in_span(start, delay, span),
    }
}

/// The first instant of the span that is at least `delay` after `begin`.
fn first_in_span(begin: u64, delay: u64, span: Span) -> Option<u64>
    ensures { Begins (λ instant. begin + delay ≤ instant) span.lo span.hi result }
{
    span.first_from(begin.checked_add(delay)?)
}
