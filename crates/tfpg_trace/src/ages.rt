//! The age of an edge at an instant, by its window.

ghost use Rattle.std.specs.Prelude.{◌+◌, ◌<◌, ◌≤◌, ◌↔◌, length, IsTrue, IsSomeAnd, slice_get};
ghost use Rattle.tfpg_log.specs.Log.{now_of};
ghost use Rattle.tfpg_log.specs.Rules.{HasAge};

use crate::trace_table::TraceTable;
use tfpg_graph::Graph;
use tfpg_log::Log;

/// Whether the edge has an age of at least so many milliseconds at the instant: its window began so long before, and its
/// source became active so long before. Goes through the spans of the window up to the instant, if the source has a time.
pub(crate) fn has_age(
    graph: &Graph,
    log: &Log,
    trace: &TraceTable<'_>,
    edge: u32,
    instant: u64,
    age: u64,
) -> bool
    requires edge { edge < length graph.now.edges }
    requires by_now { instant ≤ now_of log.now }
    ensures { IsTrue result ↔ IsSomeAnd (slice_get graph.now.edges edge)
        (λ e. HasAge log.now trace.now e instant age) }
{
    let Some(start) = trace.at(graph.edge(edge).source) else {
        return false;
    };
    let Some(span) = log.span_of(instant) else {
        return false;
    };
    match log.window_of(graph, edge, span, instant) {
        Some(window) => are_since(window.lo, start, age, instant),
        None => false,
    }
}

/// Whether the instant is at least `age` after both `begin` and `start`.
fn are_since(begin: u64, start: u64, age: u64, instant: u64) -> bool
    ensures { IsTrue result ↔ ((begin + age ≤ instant) × (start + age ≤ instant)) }
{
    is_since(begin, age, instant) && is_since(start, age, instant)
}

/// Whether the instant is at least `age` after the start.
fn is_since(start: u64, age: u64, instant: u64) -> bool
    ensures { IsTrue result ↔ (start + age ≤ instant) }
{
    start <= instant && age <= instant - start
}
