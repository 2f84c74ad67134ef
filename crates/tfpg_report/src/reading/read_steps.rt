//! The lines of the steps of a hypothesis.

ghost use Rattle.std.specs.Prelude.{◌≡◌, map};
ghost use Rattle.tfpg_evidence.specs.declared.clause_name.ClauseName.TheVariants as clause;
ghost use Rattle.tfpg_evidence.specs.declared.reason.Reason.TheVariants as reason;
ghost use Rattle.tfpg_report.specs.inside.LinesRead.{hyp_in, cycle_in, again_in, span_and_horizon, node_clause_in, edge_clause_in, clause_in, split_in, node_reason_in, event_reason_in, unreached_in, quiet_in, pick_in, reason_in, why_in, step_line_in};

use super::first_words::{edge_first, node_first, number_first, small_first};
use super::named_graph::NamedGraph;
use super::read_blocks::block_line_in;
use crate::ReportLine;
use tfpg_base::{MAX_LINE_NUMBER, MAX_TIME};
use tfpg_evidence::{ClauseName, Reason};

/// The line of the steps of a hypothesis, or the line that begins or ends a block, of this keyword and these words after it.
pub(crate) fn step_line_in(
    graph: &NamedGraph<'_>,
    keyword: &[u8],
    words: &[&[u8]],
) -> Option<ReportLine>
    ensures { result ≡ step_line_in graph.now keyword.now (map (λ word. word.now) words.now) }
{
    if keyword == b"why".as_slice() {
        why_in(graph, words)
    } else if keyword == b"cycle".as_slice() {
        cycle_in(words)
    } else if keyword == b"split".as_slice() {
        split_in(graph, words)
    } else if keyword == b"again".as_slice() {
        again_in(words)
    } else if keyword == b"hyp".as_slice() {
        hyp_in(words)
    } else {
        block_line_in(keyword, words)
    }
}

/// The line with the number of a hypothesis.
fn hyp_in(words: &[&[u8]]) -> Option<ReportLine>
    ensures { result ≡ hyp_in (map (λ word. word.now) words.now) }
{
    let (number, words) = small_first(words)?;
    match words {
        [] => Some(ReportLine::Hyp { number }),
        _ => None,
    }
}

/// The first line of a cycle.
fn cycle_in(words: &[&[u8]]) -> Option<ReportLine>
    ensures { result ≡ cycle_in (map (λ word. word.now) words.now) }
{
    let (count, words) = small_first(words)?;
    match words {
        [] => Some(ReportLine::Cycle { count }),
        _ => None,
    }
}

/// The line of a subtree that is used again.
fn again_in(words: &[&[u8]]) -> Option<ReportLine>
    ensures { result ≡ again_in (map (λ word. word.now) words.now) }
{
    match words {
        [] => Some(ReportLine::Again),
        _ => None,
    }
}

/// The line of a split.
fn split_in(graph: &NamedGraph<'_>, words: &[&[u8]]) -> Option<ReportLine>
    ensures { result ≡ split_in graph.now (map (λ word. word.now) words.now) }
{
    let name = clause_in(graph, words)?;
    Some(ReportLine::Split(name))
}

/// The name of a clause.
fn clause_in(graph: &NamedGraph<'_>, words: &[&[u8]]) -> Option<ClauseName>
    ensures { result ≡ clause_in graph.now (map (λ word. word.now) words.now) }
{
    let (kind, words) = words.split_first()?;
    if *kind == b"ormay".as_slice() {
        or_may_in(graph, words)
    } else if *kind == b"andmay".as_slice() {
        and_may_in(graph, words)
    } else if *kind == b"ormust".as_slice() {
        or_must_in(graph, words)
    } else if *kind == b"andmust".as_slice() {
        and_must_in(graph, words)
    } else {
        None
    }
}

fn or_may_in(graph: &NamedGraph<'_>, words: &[&[u8]]) -> Option<ClauseName>
    ensures { result ≡ node_clause_in clause.OrMay graph.now (map (λ word. word.now) words.now) }
{
    let (node, words) = node_first(graph, words)?;
    let (span, horizon) = span_and_horizon(words)?;
    Some(ClauseName::OrMay {
        node,
        span,
        horizon,
    })
}

fn and_may_in(graph: &NamedGraph<'_>, words: &[&[u8]]) -> Option<ClauseName>
    ensures { result ≡ edge_clause_in clause.AndMay graph.now (map (λ word. word.now) words.now) }
{
    let (edge, words) = edge_first(graph, words)?;
    let (span, horizon) = span_and_horizon(words)?;
    Some(ClauseName::AndMay {
        edge,
        span,
        horizon,
    })
}

fn or_must_in(graph: &NamedGraph<'_>, words: &[&[u8]]) -> Option<ClauseName>
    ensures { result ≡ edge_clause_in clause.OrMust graph.now (map (λ word. word.now) words.now) }
{
    let (edge, words) = edge_first(graph, words)?;
    let (span, horizon) = span_and_horizon(words)?;
    Some(ClauseName::OrMust {
        edge,
        span,
        horizon,
    })
}

fn and_must_in(graph: &NamedGraph<'_>, words: &[&[u8]]) -> Option<ClauseName>
    ensures { result ≡ node_clause_in clause.AndMust graph.now (map (λ word. word.now) words.now) }
{
    let (node, words) = node_first(graph, words)?;
    let (span, horizon) = span_and_horizon(words)?;
    Some(ClauseName::AndMust {
        node,
        span,
        horizon,
    })
}

/// The number of a span, and a horizon.
fn span_and_horizon(words: &[&[u8]]) -> Option<(u32, u64)>
    ensures { result ≡ span_and_horizon (map (λ word. word.now) words.now) }
{
    let (span, words) = small_first(words)?;
    let (horizon, words) = number_first(words, MAX_TIME)?;
    match words {
        [] => Some((span, horizon)),
        _ => None,
    }
}

/// The line of a reason.
fn why_in(graph: &NamedGraph<'_>, words: &[&[u8]]) -> Option<ReportLine>
    ensures { result ≡ why_in graph.now (map (λ word. word.now) words.now) }
{
    let reason = reason_in(graph, words)?;
    Some(ReportLine::Why(reason))
}

/// A reason.
fn reason_in(graph: &NamedGraph<'_>, words: &[&[u8]]) -> Option<Reason>
    ensures { result ≡ reason_in graph.now (map (λ word. word.now) words.now) }
{
    let (kind, words) = words.split_first()?;
    if *kind == b"from".as_slice() {
        from_in(words)
    } else if *kind == b"upto".as_slice() {
        upto_in(words)
    } else if *kind == b"pick".as_slice() {
        pick_in(words)
    } else if *kind == b"quiet".as_slice() {
        quiet_in(graph, words)
    } else if *kind == b"unreached".as_slice() {
        unreached_in(graph, words)
    } else if *kind == b"zero".as_slice() {
        zero_in(graph, words)
    } else if *kind == b"top".as_slice() {
        top_in(graph, words)
    } else {
        None
    }
}

fn from_in(words: &[&[u8]]) -> Option<Reason>
    ensures { result ≡ event_reason_in reason.From (map (λ word. word.now) words.now) }
{
    let (event, words) = small_first(words)?;
    match words {
        [] => Some(Reason::From { event }),
        _ => None,
    }
}

fn upto_in(words: &[&[u8]]) -> Option<Reason>
    ensures { result ≡ event_reason_in reason.Upto (map (λ word. word.now) words.now) }
{
    let (event, words) = small_first(words)?;
    match words {
        [] => Some(Reason::Upto { event }),
        _ => None,
    }
}

fn pick_in(words: &[&[u8]]) -> Option<Reason>
    ensures { result ≡ pick_in (map (λ word. word.now) words.now) }
{
    let (split, words) = number_first(words, MAX_LINE_NUMBER)?;
    let (place, words) = small_first(words)?;
    match words {
        [] => Some(Reason::Pick { split, place }),
        _ => None,
    }
}

fn quiet_in(graph: &NamedGraph<'_>, words: &[&[u8]]) -> Option<Reason>
    ensures { result ≡ quiet_in graph.now (map (λ word. word.now) words.now) }
{
    let (event, words) = small_first(words)?;
    let (node, words) = node_first(graph, words)?;
    match words {
        [] => Some(Reason::Quiet { event, node }),
        _ => None,
    }
}

fn unreached_in(graph: &NamedGraph<'_>, words: &[&[u8]]) -> Option<Reason>
    ensures { result ≡ unreached_in graph.now (map (λ word. word.now) words.now) }
{
    let (node, words) = node_first(graph, words)?;
    let (horizon, words) = number_first(words, MAX_TIME)?;
    match words {
        [] => Some(Reason::Unreached { node, horizon }),
        _ => None,
    }
}

fn zero_in(graph: &NamedGraph<'_>, words: &[&[u8]]) -> Option<Reason>
    ensures { result ≡ node_reason_in reason.Zero graph.now (map (λ word. word.now) words.now) }
{
    let (node, words) = node_first(graph, words)?;
    match words {
        [] => Some(Reason::Zero { node }),
        _ => None,
    }
}

fn top_in(graph: &NamedGraph<'_>, words: &[&[u8]]) -> Option<Reason>
    ensures { result ≡ node_reason_in reason.Top graph.now (map (λ word. word.now) words.now) }
{
    let (node, words) = node_first(graph, words)?;
    match words {
        [] => Some(Reason::Top { node }),
        _ => None,
    }
}
