//! The first clause that times violate.

ghost use Rattle.std.specs.Prelude.{◌≡◌, ◌↔◌, None, MatchOption};
ghost use Rattle.tfpg_log.specs.Log.{now_of};
ghost use Rattle.tfpg_log.specs.Rules.{KeepsRules};
ghost use Rattle.tfpg_clause.specs.Cut.{cut, AreNumbers};
ghost use Rattle.tfpg_clause.specs.Order.{IsFirstViolated, MeetAllNow};
ghost use Rattle.tfpg_clause.specs.inside.FirstSpan.{FindsFirst, MeetsKind, IsFirstOfKind, clauses_of};

use crate::clause_kind::{ClauseKind, KINDS};
use crate::facts::now;
use crate::may_violated::{and_may_violated, or_may_violated};
use crate::must_violated::{and_must_violated, or_must_violated};
use tfpg_evidence::ClauseName;
use tfpg_graph::Graph;
use tfpg_log::Log;

/// The first clause with the horizon now that these times violate, and none where they meet each: that is exactly where the
/// times up to now, as a trace, keep the propagation rules. There is one time for each node, in milliseconds, and 10^12 + 1
/// for a node that is never active. Clauses are in order by their kind, then by their node or edge, and then by their span.
///
/// Takes no memory. For may clauses it looks, for each node, at the span of its time alone. For must clauses it looks at each
/// edge into an OR node, and at each AND node with its edges. It goes through spans only where by now each of these edges has had
/// an active source for its greatest delay, and the node becomes active later than that: from the window of that instant up to
/// the span of the node's time. There it takes constant time for each edge into the node and each span: the window that an
/// edge has round one span is known at the later spans of it. So it takes at most as many constant steps as there are edges
/// times spans, and one search in the logarithm of the mode changes for each window.
pub fn violated(graph: &Graph, log: &Log, times: &[u64]) -> Option<ClauseName>
    requires { AreNumbers graph.now times.now }
    ensures first { MatchOption result (MeetAllNow graph.now log.now times.now)
        (IsFirstViolated graph.now log.now times.now) }
    ensures rules { (result ≡ None) ↔ KeepsRules graph.now log.now (cut (now_of log.now) times.now) }
{
    graph.is_always_valid();
    first_violated(graph, log, times)
}

/// The first clause with the horizon now that these times violate.
fn first_violated(graph: &Graph, log: &Log, times: &[u64]) -> Option<ClauseName>
    requires { AreNumbers graph.now times.now }
    ensures { MatchOption result (MeetAllNow graph.now log.now times.now)
        (IsFirstViolated graph.now log.now times.now) }
{
    for kind in KINDS {
        if let Some(name) = first_of_kind(graph, log, times, kind) {
            return Some(name);
        }
    }
    None
}

/// The first clause of the kind with the horizon now that these times violate.
fn first_of_kind(graph: &Graph, log: &Log, times: &[u64], kind: ClauseKind) -> Option<ClauseName>
    requires { AreNumbers graph.now times.now }
    ensures { MatchOption result (MeetsKind graph.now log.now times.now kind)
        (IsFirstOfKind graph.now log.now times.now kind) }
{
    let count = kind.subject_count(graph);
    for subject in 0..count {
        if let Some(span) = first_span(graph, log, times, kind, subject) {
            return Some(kind.named(subject, span, now(log)));
        }
    }
    None
}

/// The first span in which the times violate the clause of this kind and of this node or edge, with the horizon now.
fn first_span(
    graph: &Graph,
    log: &Log,
    times: &[u64],
    kind: ClauseKind,
    subject: u32,
) -> Option<u32>
    requires { AreNumbers graph.now times.now }
    ensures { FindsFirst times.now (clauses_of graph.now log.now kind subject) result }
{
    match kind {
        ClauseKind::OrMay => or_may_violated(graph, log, times, subject),
        ClauseKind::AndMay => and_may_violated(graph, log, times, subject),
        ClauseKind::OrMust => or_must_violated(graph, log, times, subject),
        ClauseKind::AndMust => and_must_violated(graph, log, times, subject),
    }
}
