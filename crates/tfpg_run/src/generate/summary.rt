//! The three lines that `generate` writes.

ghost use Rattle.std.specs.Prelude.{◌≡◌, Any, Contains, IfOk, IsSomeAnd, length};
ghost use Rattle.tfpg_base.specs.Append.{Appends};
ghost use Rattle.tfpg_evidence.specs.Findings.{hypothesis_of};
ghost use Rattle.tfpg_graph.specs.Graph.{AreFailures};
ghost use Rattle.tfpg_run.specs.generate.Summary.{drawn_text, rounds_text, status_word, truth_text};
ghost use Rattle.tfpg_run.specs.inside.generate.Summary.{HasFindingOn, SaysOfRound};

use itoa::Buffer;
use std::alloc::Global;
use tfpg_base::{Hypothesis, NoMemory, Set, append_line};
use tfpg_diagnose::Diagnosis;
use tfpg_evidence::{Counts, Finding, Round, Status};
use tfpg_graph::Graph;
use tfpg_report::{append_counts, append_set};

/// The three lines, of a diagnosis whose last round has a finding on the set.
pub(crate) fn summary_of(
    alloc: Global,
    number: u64,
    size: u32,
    diagnosis: &Diagnosis,
    set: Set,
) -> Result<Vec<u8>, NoMemory>
    requires members { AreFailures diagnosis.now.engine.graph set }
    requires found { IsSomeAnd diagnosis.now.last (HasFindingOn set) }
    ensures { IfOk result (λ text. IsSomeAnd diagnosis.now.last
        (SaysOfRound (drawn_text number size diagnosis.now.engine.graph
        (length diagnosis.now.engine.log.events)) diagnosis.now.engine.graph
        (length diagnosis.now.engine.log.events) set text.items)) }
{
    match &diagnosis.last {
        Some(last) => {
            let graph = diagnosis.engine.graph();
            let rounds = diagnosis.engine.log().len();
            summary_text(alloc, number, size, graph, rounds, last, set)
        }
        None => unreachable!(),
    }
}

/// The three lines, where this is the last of `rounds` rounds.
fn summary_text(
    alloc: Global,
    number: u64,
    size: u32,
    graph: &Graph,
    rounds: u32,
    last: &Round,
    set: Set,
) -> Result<Vec<u8>, NoMemory>
    requires members { AreFailures graph.now set }
    requires found { HasFindingOn set last.now }
    ensures { IfOk result (λ text. SaysOfRound (drawn_text number size graph.now rounds) graph.now rounds set
        text.items last.entry.now) }
{
    let finding = finding_on(last.findings.as_slice(), Hypothesis::believing(set));
    let mut text = Vec::new(alloc);
    append_drawn(number, size, graph, rounds, &mut text)?;
    append_rounds(rounds, last.counts, &mut text)?;
    append_truth(graph, set, &finding.status, &mut text)?;
    Ok(text)
}

/// The finding on the hypothesis.
fn finding_on(findings: &[Finding], hypothesis: Hypothesis) -> &Finding
    requires { Any (λ finding. hypothesis_of finding ≡ hypothesis) findings.now }
    ensures there { Contains findings.now result.now }
    ensures hypothesis { hypothesis_of result.now ≡ hypothesis }
{
    for finding in findings {
        if finding.hypothesis().is_same(hypothesis) {
            return finding;
        }
    }
    unreachable!()
}

/// Appends the line that says what was drawn.
fn append_drawn(
    number: u64,
    size: u32,
    graph: &Graph,
    lines: u32,
    into: &mut Vec<u8>,
) -> Result<(), NoMemory>
    ensures { Appends result into.old.items into.new.items (drawn_text number size graph.now lines) }
{
    let mut number_digits = Buffer::new();
    let mut size_digits = Buffer::new();
    let mut node_digits = Buffer::new();
    let mut edge_digits = Buffer::new();
    let mut line_digits = Buffer::new();
    append_line(
        into,
        &[
            b"generated",
            b"draw",
            number_digits.format(number).as_bytes(),
            b"size",
            size_digits.format(size).as_bytes(),
            b"nodes",
            node_digits.format(graph.node_count()).as_bytes(),
            b"edges",
            edge_digits.format(graph.edge_count()).as_bytes(),
            b"lines",
            line_digits.format(lines).as_bytes(),
        ],
    )
}

/// Appends the line that says how many rounds there were, and what the last one counts.
fn append_rounds(rounds: u32, counts: Counts, into: &mut Vec<u8>) -> Result<(), NoMemory>
    ensures { Appends result into.old.items into.new.items (rounds_text rounds counts) }
{
    let mut digits = Buffer::new();
    into.extend_from_slice(b"rounds ")?;
    into.extend_from_slice(digits.format(rounds).as_bytes())?;
    into.push(b' ')?;
    append_counts(counts, into)
}

/// Appends the line that says which set was simulated, and its status.
fn append_truth(
    graph: &Graph,
    set: Set,
    status: &Status,
    into: &mut Vec<u8>,
) -> Result<(), NoMemory>
    requires { AreFailures graph.now set }
    ensures { Appends result into.old.items into.new.items (truth_text graph.now set status.now) }
{
    into.extend_from_slice(b"truth ")?;
    append_set(graph, Hypothesis::believing(set), into)?;
    into.push(b' ')?;
    into.extend_from_slice(status_word(status))?;
    into.push(b'\n')?;
    Ok(())
}

/// The word for a status.
fn status_word(status: &Status) -> &'static [u8]
    ensures { result.now ≡ status_word status.now }
{
    match status {
        Status::Ranked { .. } => b"ranked",
        Status::Covered { .. } => b"covered",
        Status::Rejected => b"rejected",
        Status::Open => b"open",
    }
}
