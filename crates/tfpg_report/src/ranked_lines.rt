//! The lines of the ranked hypotheses.

ghost use Rattle.std.specs.Prelude.{◌≡◌, ◌<◌, All, AllPairs, flat_map, length, map};
ghost use Rattle.tfpg_base.specs.Append.{Appends};
ghost use Rattle.tfpg_evidence.specs.Findings.{findings_at};
ghost use Rattle.tfpg_evidence.specs.RoundOf.{IsFindingOf};
ghost use Rattle.tfpg_graph.specs.Graph.{sizes_of};
ghost use Rattle.tfpg_report.specs.declared.report_line.ReportLine.{ReportLine};
ghost use Rattle.tfpg_report.specs.ReportLines.{lines_text};
ghost use Rattle.tfpg_report.specs.inside.LineNames.{activation_text};
ghost use Rattle.tfpg_report.specs.inside.Texts.{ranked_line, ranked_text};
ghost use Rattle.tfpg_report.specs.inside.Numbered.{numbered_text};

use crate::set_line::append_set_line;
use itoa::Buffer;
use tfpg_base::{Activation, NoMemory, append_line};
use tfpg_evidence::{Finding, Status, finding_numbered};
use tfpg_graph::Graph;

/// Appends the lines of the ranked hypotheses of these numbers, in their order. Costs for each the logarithm of the count of
/// findings, besides its text.
pub(crate) fn append_all_ranked(
    graph: &Graph,
    findings: &[Finding],
    order: &[u32],
    into: &mut Vec<u8>,
) -> Result<(), NoMemory>
    requires findings { All (IsFindingOf (sizes_of graph.now)) findings.now }
    requires rising { AllPairs (λ earlier later. earlier.number < later.number) findings.now }
    ensures { Appends result into.old.items into.new.items
        (flat_map (λ finding. ranked_text graph.now finding finding.status)
        (findings_at findings.now order.now)) }
{
    for number in order {
        append_numbered(graph, findings, *number, into)?;
    }
    Ok(())
}

/// Appends the lines of the hypothesis of a number, where it is ranked.
fn append_numbered(
    graph: &Graph,
    findings: &[Finding],
    number: u32,
    into: &mut Vec<u8>,
) -> Result<(), NoMemory>
    requires findings { All (IsFindingOf (sizes_of graph.now)) findings.now }
    requires rising { AllPairs (λ earlier later. earlier.number < later.number) findings.now }
    ensures { Appends result into.old.items into.new.items (numbered_text graph.now findings.now number) }
{
    match finding_numbered(findings, number) {
        Some(finding) => append_ranked(graph, finding, into),
        None => Ok(()),
    }
}

/// Appends the lines of a hypothesis, where it is ranked.
fn append_ranked(graph: &Graph, finding: &Finding, into: &mut Vec<u8>) -> Result<(), NoMemory>
    requires { IsFindingOf (sizes_of graph.now) finding.now }
    ensures { Appends result into.old.items into.new.items
        (ranked_text graph.now finding.now finding.now.status) }
{
    match &finding.status {
        Status::Ranked {
            trace,
            cost,
            alarmed,
            monitored,
        } => {
            append_ranked_line(graph, finding, *cost, *alarmed, *monitored, into)?;
            append_activations(graph, trace.as_slice(), into)
        }
        _ => Ok(()),
    }
}

/// Appends the first line of a ranked hypothesis.
fn append_ranked_line(
    graph: &Graph,
    finding: &Finding,
    cost: u64,
    alarmed: u32,
    monitored: u32,
    into: &mut Vec<u8>,
) -> Result<(), NoMemory>
    requires { IsFindingOf (sizes_of graph.now) finding.now }
    ensures { Appends result into.old.items into.new.items
        (ranked_line graph.now finding.now cost alarmed monitored) }
{
    let mut number_digits = Buffer::new();
    let mut cost_digits = Buffer::new();
    let mut alarmed_digits = Buffer::new();
    let mut monitored_digits = Buffer::new();
    let number = number_digits.format(finding.number).as_bytes();
    let cost = cost_digits.format(cost).as_bytes();
    let alarmed = alarmed_digits.format(alarmed).as_bytes();
    let monitored = monitored_digits.format(monitored).as_bytes();
    append_set_line(
        graph,
        &[
            b"ranked ",
            number,
            b" cost ",
            cost,
            b" robust ",
            alarmed,
            b"/",
            monitored,
            b" set ",
        ],
        finding.hypothesis(),
        into,
    )
}

/// Appends the lines of the activations, in their order.
pub fn append_activations(
    graph: &Graph,
    trace: &[Activation],
    into: &mut Vec<u8>,
) -> Result<(), NoMemory>
    requires { All (λ activation. activation.node < length graph.now.nodes) trace.now }
    ensures { Appends result into.old.items into.new.items (lines_text graph.now (map ReportLine.At trace.now)) }
{
    for activation in trace {
        append_activation(graph, *activation, into)?;
    }
    Ok(())
}

/// Appends the line of an activation.
fn append_activation(
    graph: &Graph,
    activation: Activation,
    into: &mut Vec<u8>,
) -> Result<(), NoMemory>
    requires { activation.node < length graph.now.nodes }
    ensures { Appends result into.old.items into.new.items (activation_text graph.now activation) }
{
    let mut digits = Buffer::new();
    let time = digits.format(activation.time).as_bytes();
    append_line(into, &[b"at", graph.name(activation.node), time])
}
