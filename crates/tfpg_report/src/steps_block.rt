//! The steps of a hypothesis.

ghost use Rattle.std.specs.Prelude.{◌≡◌, All, flat_map};
ghost use Rattle.tfpg_base.specs.Append.{Appends};
ghost use Rattle.tfpg_evidence.specs.RoundOf.{IsFindingOf, IsStepOf};
ghost use Rattle.tfpg_graph.specs.Graph.{sizes_of};
ghost use Rattle.tfpg_report.specs.ReadRounds.{step_lines};
ghost use Rattle.tfpg_report.specs.ReportLines.{lines_text};
ghost use Rattle.tfpg_report.specs.inside.Texts.{step_text, steps_text};

use crate::step_lines::append_step;
use itoa::Buffer;
use tfpg_base::{NoMemory, append_line};
use tfpg_evidence::{Finding, Step};
use tfpg_graph::Graph;

/// Appends the number of a finding and its steps, where it has any.
pub(crate) fn append_finding_steps(
    graph: &Graph,
    finding: &Finding,
    into: &mut Vec<u8>,
) -> Result<(), NoMemory>
    requires { IsFindingOf (sizes_of graph.now) finding.now }
    ensures { Appends result into.old.items into.new.items (steps_text graph.now finding.now) }
{
    let steps = finding.steps.as_slice();
    if steps.is_empty() {
        return Ok(());
    }
    let mut digits = Buffer::new();
    append_line(into, &[b"hyp", digits.format(finding.number).as_bytes()])?;
    append_each_step(graph, steps, into)
}

/// Appends the lines of steps of the graph, as they stand in a report. It costs the length of the text.
pub fn append_steps(graph: &Graph, steps: &[Step], into: &mut Vec<u8>) -> Result<(), NoMemory>
    requires { All (IsStepOf (sizes_of graph.now)) steps.now }
    ensures { Appends result into.old.items into.new.items (lines_text graph.now (flat_map step_lines steps.now)) }
{
    append_each_step(graph, steps, into)
}

/// Appends the texts of the steps.
fn append_each_step(graph: &Graph, steps: &[Step], into: &mut Vec<u8>) -> Result<(), NoMemory>
    requires { All (IsStepOf (sizes_of graph.now)) steps.now }
    ensures { Appends result into.old.items into.new.items (flat_map (step_text graph.now) steps.now) }
{
    for step in steps {
        append_step(graph, step, into)?;
    }
    Ok(())
}
