//! The sections of a round's block that go through the findings in the order of their numbers.

ghost use Rattle.std.specs.Prelude.{◌≡◌, All, flat_map};
ghost use Rattle.tfpg_base.specs.Append.{Appends};
ghost use Rattle.tfpg_evidence.specs.RoundOf.{IsFindingOf};
ghost use Rattle.tfpg_graph.specs.Graph.{sizes_of};
ghost use Rattle.tfpg_report.specs.inside.Sections.{section_text};

use crate::hypothesis_lines::{append_open, append_rejected};
use crate::steps_block::append_finding_steps;
use tfpg_base::NoMemory;
use tfpg_evidence::Finding;
use tfpg_graph::Graph;

/// What a section says of each finding.
#[derive(Clone, Copy)]
pub(crate) enum Section {
    /// The steps of this round.
    Steps,
    /// That it is open.
    Open,
    /// That this round rejected it.
    Rejected,
}

/// Appends a section: what it says of each finding, in order.
pub(crate) fn append_section(
    graph: &Graph,
    section: Section,
    findings: &[Finding],
    into: &mut Vec<u8>,
) -> Result<(), NoMemory>
    requires { All (IsFindingOf (sizes_of graph.now)) findings.now }
    ensures { Appends result into.old.items into.new.items
        (flat_map (section_text graph.now section) findings.now) }
{
    for finding in findings {
        append_entry(graph, section, finding, into)?;
    }
    Ok(())
}

/// Appends what a section says of one finding.
fn append_entry(
    graph: &Graph,
    section: Section,
    finding: &Finding,
    into: &mut Vec<u8>,
) -> Result<(), NoMemory>
    requires { IsFindingOf (sizes_of graph.now) finding.now }
    ensures { Appends result into.old.items into.new.items (section_text graph.now section finding.now) }
{
    match section {
        Section::Steps => append_finding_steps(graph, finding, into),
        Section::Open => append_open(graph, finding, into),
        Section::Rejected => append_rejected(graph, finding, into),
    }
}
