//! The lines that file panels write, one for each round.
//!
//! ```
//! panel_line(PanelKind::Count, &graph, &round, &mut line)?;
//! ```

ghost use Rattle.std.specs.Prelude.{◌≡◌, ◌∷◌, [], IfSome, codes, decimal, slice_get};
ghost use Rattle.std.specs.Option.{option_copied};
ghost use Rattle.tfpg_base.specs.Append.{Appends};
ghost use Rattle.tfpg_base.specs.Lines.{with_line_end};
ghost use Rattle.tfpg_base.specs.TextLine.{text_line};
ghost use Rattle.tfpg_evidence.specs.Findings.{ranked_in_order};
ghost use Rattle.tfpg_evidence.specs.RoundOf.{IsFindingOf, IsRoundOf};
ghost use Rattle.tfpg_graph.specs.Graph.{sizes_of};
ghost use Rattle.tfpg_json.specs.RoundData.{round_json};
ghost use Rattle.tfpg_run.specs.PanelLines.{best_words, count_line, none_words, panel_line, top_line};

use itoa::Buffer;
use tfpg_base::{NoMemory, append_line};
use tfpg_evidence::{Finding, Round, Status, finding_numbered};
use tfpg_graph::Graph;
use tfpg_json::write_round;
use tfpg_report::{append_counts, append_set};
use tfpg_words::PanelKind;

/// Appends the line that a panel of this kind writes for a round of the graph: the first of the ranked hypotheses and its cost, how
/// many have each status, or the round as JSON. Where memory runs out, a part of the line may stand after the old bytes. Takes time
/// linear in the number of findings and in the line; for JSON see [`write_round`](tfpg_json::write_round).
pub fn panel_line(
    kind: PanelKind,
    graph: &Graph,
    round: &Round,
    into: &mut Vec<u8>,
) -> Result<(), NoMemory>
    requires { IsRoundOf (sizes_of graph.now) round.now }
    ensures { Appends result into.old.items into.new.items (panel_line kind graph.now round.entry.now) }
{
    match kind {
        PanelKind::Top => append_top(graph, round, into),
        PanelKind::Count => append_count(round, into),
        PanelKind::Json => append_json(graph, round, into),
    }
}

/// Appends the line of the first of the ranked hypotheses.
fn append_top(graph: &Graph, round: &Round, into: &mut Vec<u8>) -> Result<(), NoMemory>
    requires { IsRoundOf (sizes_of graph.now) round.now }
    ensures { Appends result into.old.items into.new.items (top_line graph.now round.entry.now) }
{
    match best_of(graph, round) {
        Some(finding) => append_best(graph, round.number, finding, into),
        None => append_none(round.number, into),
    }
}

/// The finding on the first of the ranked hypotheses, where there is one.
fn best_of<'a>(graph: &Graph, round: &'a Round) -> Option<&'a Finding>
    requires { IsRoundOf (sizes_of graph.now) round.now }
    ensures best { option_copied result ≡ slice_get (ranked_in_order round.entry.now) 0 }
    ensures of_graph { IfSome result (λ finding. IsFindingOf (sizes_of graph.now) finding.now) }
{
    let number = round.order.as_slice().first()?;
    finding_numbered(round.findings.as_slice(), *number)
}

/// Appends the line of this finding as the best, where it is ranked.
fn append_best(
    graph: &Graph,
    number: u32,
    finding: &Finding,
    into: &mut Vec<u8>,
) -> Result<(), NoMemory>
    requires { IsFindingOf (sizes_of graph.now) finding.now }
    ensures { Appends result into.old.items into.new.items
        (text_line (codes "round" ∷ decimal number ∷ codes "best" ∷ best_words graph.now finding.now finding.now.status)) }
{
    let Status::Ranked {
        trace: _,
        cost,
        alarmed: _,
        monitored: _,
    } = &finding.status
    else {
        return append_none(number, into);
    };
    let mut set = Vec::new(*into.allocator());
    append_set(graph, finding.hypothesis(), &mut set)?;
    append_ranked(number, &set, *cost, into)
}

/// Appends the line of the first hypothesis, by the text of its set.
fn append_ranked(number: u32, set: &[u8], cost: u64, into: &mut Vec<u8>) -> Result<(), NoMemory>
    ensures { Appends result into.old.items into.new.items
        (text_line (codes "round" ∷ decimal number ∷ codes "best" ∷ set.now ∷ codes "cost" ∷ decimal cost ∷ [])) }
{
    let mut number_digits = Buffer::new();
    let mut cost_digits = Buffer::new();
    let number = number_digits.format(number).as_bytes();
    let cost = cost_digits.format(cost).as_bytes();
    append_line(into, &[b"round", number, b"best", set, b"cost", cost])
}

/// Appends the line of a round that ranks no hypothesis.
fn append_none(number: u32, into: &mut Vec<u8>) -> Result<(), NoMemory>
    ensures { Appends result into.old.items into.new.items
        (text_line (codes "round" ∷ decimal number ∷ codes "best" ∷ none_words)) }
{
    let mut digits = Buffer::new();
    let number = digits.format(number).as_bytes();
    append_line(into, &[b"round", number, b"best", b"none"])
}

/// Appends the line of how many hypotheses have each status.
fn append_count(round: &Round, into: &mut Vec<u8>) -> Result<(), NoMemory>
    ensures { Appends result into.old.items into.new.items (count_line round.entry.now) }
{
    let mut digits = Buffer::new();
    into.extend_from_slice(b"round ")?;
    into.extend_from_slice(digits.format(round.number).as_bytes())?;
    into.push(b' ')?;
    append_counts(round.counts, into)
}

/// Appends the line of the round as JSON.
fn append_json(graph: &Graph, round: &Round, into: &mut Vec<u8>) -> Result<(), NoMemory>
    requires { IsRoundOf (sizes_of graph.now) round.now }
    ensures { Appends result into.old.items into.new.items (with_line_end (round_json graph.now round.entry.now)) }
{
    write_round(graph, round, into)?;
    into.push(b'\n')?;
    Ok(())
}
