//! The line of an open hypothesis, and of one that a round rejected.

ghost use Rattle.std.specs.Prelude.{◌≡◌, ◌++◌};
ghost use Rattle.tfpg_base.specs.Append.{Appends};
ghost use Rattle.tfpg_evidence.specs.RoundOf.{IsFindingOf};
ghost use Rattle.tfpg_base.specs.TextLine.{text_line};
ghost use Rattle.tfpg_graph.specs.Graph.{sizes_of};
ghost use Rattle.tfpg_report.specs.inside.Texts.{hypothesis_words};
ghost use Rattle.tfpg_report.specs.inside.Sections.{text_where_open, text_where_rejected};

use crate::set_line::append_set_line;
use itoa::Buffer;
use tfpg_base::NoMemory;
use tfpg_evidence::{Finding, Status};
use tfpg_graph::Graph;

/// Appends the line of a hypothesis, where it is open.
pub(crate) fn append_open(
    graph: &Graph,
    finding: &Finding,
    into: &mut Vec<u8>,
) -> Result<(), NoMemory>
    requires { IsFindingOf (sizes_of graph.now) finding.now }
    ensures { Appends result into.old.items into.new.items
        (text_where_open graph.now finding.now finding.now.status) }
{
    match &finding.status {
        Status::Open => append_hypothesis(graph, b"open ", finding, into),
        _ => Ok(()),
    }
}

/// Appends the line of a hypothesis, where it is rejected by a step of this round.
pub(crate) fn append_rejected(
    graph: &Graph,
    finding: &Finding,
    into: &mut Vec<u8>,
) -> Result<(), NoMemory>
    requires { IsFindingOf (sizes_of graph.now) finding.now }
    ensures { Appends result into.old.items into.new.items
        (text_where_rejected graph.now finding.now finding.now.status) }
{
    match &finding.status {
        Status::Rejected if !finding.steps.as_slice().is_empty() => {
            append_hypothesis(graph, b"rejected ", finding, into)
        }
        _ => Ok(()),
    }
}

/// Appends the line of a hypothesis: the word of its status with a space after it, its number and its set.
fn append_hypothesis(
    graph: &Graph,
    status: &[u8],
    finding: &Finding,
    into: &mut Vec<u8>,
) -> Result<(), NoMemory>
    requires { IsFindingOf (sizes_of graph.now) finding.now }
    ensures { Appends result into.old.items into.new.items
        (status.now ++ text_line (hypothesis_words graph.now finding.now)) }
{
    let mut digits = Buffer::new();
    let number = digits.format(finding.number).as_bytes();
    append_set_line(
        graph,
        &[status, number, b" set "],
        finding.hypothesis(),
        into,
    )
}
