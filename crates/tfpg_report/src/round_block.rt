//! The block of a round.

ghost use Rattle.std.specs.Prelude.{◌≡◌, ◌∷◌, [], codes, decimal};
ghost use Rattle.tfpg_base.specs.Append.{Appends};
ghost use Rattle.tfpg_evidence.specs.RoundOf.{IsRoundOf};
ghost use Rattle.tfpg_base.specs.TextLine.{text_line};
ghost use Rattle.tfpg_graph.specs.Graph.{sizes_of};
ghost use Rattle.tfpg_report.specs.Blocks.{round_text};
ghost use Rattle.tfpg_report.specs.LineWords.{counts_words};
ghost use Rattle.tfpg_report.specs.inside.Texts.{counts_text};

use crate::ranked_lines::append_all_ranked;
use crate::sections::{Section, append_section};
use itoa::Buffer;
use tfpg_base::{NoMemory, append_line};
use tfpg_evidence::{Counts, Round};
use tfpg_graph::Graph;

/// Appends the block of a round of the graph: the steps of each hypothesis, the ranked ones with their traces, the open
/// ones, those that the round rejected, and the counts. Where memory runs out, a part of the block may stand after the
/// old bytes. It costs the length of the text, a test for each failure mode of the graph and each set that is written,
/// another for each node where the set has a monitor that is not believed, and a binary search for each ranked hypothesis.
pub fn render(graph: &Graph, round: &Round, into: &mut Vec<u8>) -> Result<(), NoMemory>
    requires { IsRoundOf (sizes_of graph.now) round.now }
    ensures { Appends result into.old.items into.new.items (round_text graph.now round.entry.now) }
{
    let findings = round.findings.as_slice();
    append_round_line(round.number, round.line, round.now, into)?;
    append_section(graph, Section::Steps, findings, into)?;
    append_all_ranked(graph, findings, round.order.as_slice(), into)?;
    append_section(graph, Section::Open, findings, into)?;
    append_section(graph, Section::Rejected, findings, into)?;
    append_counts_line(round.counts, into)
}

/// Appends the first line of a round.
fn append_round_line(number: u32, line: u64, now: u64, into: &mut Vec<u8>) -> Result<(), NoMemory>
    ensures { Appends result into.old.items into.new.items
        (text_line (codes "round" ∷ decimal number ∷ decimal line ∷ decimal now ∷ [])) }
{
    let mut number_digits = Buffer::new();
    let mut line_digits = Buffer::new();
    let mut now_digits = Buffer::new();
    let number = number_digits.format(number).as_bytes();
    let line = line_digits.format(line).as_bytes();
    let now = now_digits.format(now).as_bytes();
    append_line(into, &[b"round", number, line, now])
}

/// Appends the line of the counts.
fn append_counts_line(counts: Counts, into: &mut Vec<u8>) -> Result<(), NoMemory>
    ensures { Appends result into.old.items into.new.items (counts_text counts) }
{
    into.extend_from_slice(b"counts ")?;
    append_counts(counts, into)
}

/// Appends the words of the counts with a space between each two, and a line end.
pub fn append_counts(counts: Counts, into: &mut Vec<u8>) -> Result<(), NoMemory>
    ensures { Appends result into.old.items into.new.items (text_line (counts_words counts)) }
{
    let mut ranked_digits = Buffer::new();
    let mut covered_digits = Buffer::new();
    let mut rejected_digits = Buffer::new();
    let mut open_digits = Buffer::new();
    let ranked = ranked_digits.format(counts.ranked).as_bytes();
    let covered = covered_digits.format(counts.covered).as_bytes();
    let rejected = rejected_digits.format(counts.rejected).as_bytes();
    let unsettled = open_digits.format(counts.unsettled).as_bytes();
    append_line(
        into,
        &[
            b"ranked",
            ranked,
            b"covered",
            covered,
            b"rejected",
            rejected,
            b"open",
            unsettled,
        ],
    )
}
