//! The text of a verdict.

ghost use Rattle.std.specs.Prelude.{◌≡◌, ◌<◌, IfOk, length};
ghost use Rattle.tfpg_base.specs.Append.{Appends};
ghost use Rattle.tfpg_answers.specs.Verdicts.{no_text, verdict_text};
ghost use Rattle.tfpg_answers.specs.inside.Verdicts.{NamesNode};

use itoa::Buffer;
use std::alloc::Global;
use tfpg_base::{NoMemory, append_line};
use tfpg_graph::Graph;
use tfpg_trace::Verdict;

/// The line of a verdict.
pub(super) fn verdict_line(
    alloc: Global,
    graph: &Graph,
    verdict: Verdict,
) -> Result<Vec<u8>, NoMemory>
    requires { NamesNode graph.now verdict }
    ensures { IfOk result (λ line. line.items ≡ verdict_text graph.now verdict) }
{
    let mut line = Vec::new(alloc);
    append_verdict(graph, verdict, &mut line)?;
    Ok(line)
}

/// Appends the line of a verdict.
fn append_verdict(graph: &Graph, verdict: Verdict, into: &mut Vec<u8>) -> Result<(), NoMemory>
    requires { NamesNode graph.now verdict }
    ensures { Appends result into.old.items into.new.items (verdict_text graph.now verdict) }
{
    match verdict {
        Verdict::Yes => append_line(into, &[b"yes"]),
        Verdict::Late { node, time } => append_no(graph, b"late", node, time, into),
        Verdict::Stranger { node, time } => append_no(graph, b"stranger", node, time, into),
        Verdict::May { node, time } => append_no(graph, b"may", node, time, into),
        Verdict::Must { node, time } => append_no(graph, b"must", node, time, into),
        Verdict::Alarm { node, time } => append_no(graph, b"alarm", node, time, into),
        Verdict::Silence { node, time } => append_no(graph, b"silence", node, time, into),
    }
}

/// Appends the line that says which rule is broken, at which node and time.
fn append_no(
    graph: &Graph,
    rule: &[u8],
    node: u32,
    time: u64,
    into: &mut Vec<u8>,
) -> Result<(), NoMemory>
    requires { node < length graph.now.nodes }
    ensures { Appends result into.old.items into.new.items (no_text graph.now rule.now node time) }
{
    let mut digits = Buffer::new();
    append_line(
        into,
        &[
            b"no",
            rule,
            graph.name(node),
            digits.format(time).as_bytes(),
        ],
    )
}
