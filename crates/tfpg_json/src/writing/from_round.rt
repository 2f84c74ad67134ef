//! A round as JSON, token by token.

ghost use Rattle.std.specs.Prelude.{◌≡◌, ◌<◌, ◌++◌, All, AllPairs, OnOk, codes, filter, filter_map, length, map, option_and_then};
ghost use Rattle.serde_json.specs.Data.{array, string};
ghost use Rattle.serde_json.specs.View.{items_of};
ghost use Rattle.tfpg_evidence.specs.Findings.{findings_at, is_rejected_now};
ghost use Rattle.tfpg_evidence.specs.RoundOf.{IsFindingOf, IsRoundOf, finding_numbered, is_open};
ghost use Rattle.tfpg_graph.specs.Graph.{AreFailures, failure_word, sizes_of};
ghost use Rattle.tfpg_graph.specs.Members.{doubt_word};
ghost use Rattle.tfpg_json.specs.RoundData.{counts_data, ranked_data, round_data, set_data, sets_data};
ghost use Rattle.tfpg_json.specs.inside.Tokens.{data_tokens, each_tokens, found_tokens, member_tokens};

use crate::writing::from_names::{doubt_word, failure_name};
use crate::writing::members::{append_count, append_number};
use json::Writer;
use std::alloc::Global;
use tfpg_base::{Doubts, NoMemory, Set};
use tfpg_evidence::{Counts, Finding, Round, Status, finding_numbered};
use tfpg_graph::Graph;

/// Appends the round.
pub(crate) fn append_round(
    alloc: Global,
    graph: &Graph,
    round: &Round,
    into: &mut Writer,
) -> Result<(), NoMemory>
    requires { IsRoundOf (sizes_of graph.now) round.now }
    ensures before { into.new.before ≡ into.old.before }
    ensures ok { OnOk result
        (into.new.tokens ≡ into.old.tokens ++ data_tokens (round_data graph.now round.entry.now)) }
{
    let findings = round.findings.as_slice();
    into.begin_object()?;
    append_counts(round.counts, into)?;
    append_number("line", round.line, into)?;
    append_number("now", round.now, into)?;
    append_open(alloc, graph, findings, into)?;
    append_ranked(alloc, graph, findings, round.order.as_slice(), into)?;
    append_rejected(alloc, graph, findings, into)?;
    append_count("round", round.number, into)?;
    into.end_object()?;
    Ok(())
}

/// Appends the member with how many hypotheses have each status.
fn append_counts(counts: Counts, into: &mut Writer) -> Result<(), NoMemory>
    ensures before { into.new.before ≡ into.old.before }
    ensures ok { OnOk result
        (into.new.tokens ≡ into.old.tokens ++ member_tokens (codes "counts") (counts_data counts)) }
{
    into.key("counts")?;
    into.begin_object()?;
    append_count("covered", counts.covered, into)?;
    append_count("open", counts.unsettled, into)?;
    append_count("ranked", counts.ranked, into)?;
    append_count("rejected", counts.rejected, into)?;
    into.end_object()?;
    Ok(())
}

/// Appends the member with the sets of the open hypotheses.
fn append_open(
    alloc: Global,
    graph: &Graph,
    findings: &[Finding],
    into: &mut Writer,
) -> Result<(), NoMemory>
    requires { All (IsFindingOf (sizes_of graph.now)) findings.now }
    ensures before { into.new.before ≡ into.old.before }
    ensures ok { OnOk result (into.new.tokens ≡ into.old.tokens ++ member_tokens (codes "open")
        (sets_data graph.now (filter (λ finding. is_open finding.status) findings.now))) }
{
    into.key("open")?;
    into.begin_array()?;
    for finding in findings {
        if is_open(finding) {
            append_set(alloc, graph, finding, into)?;
        }
    }
    into.end_array()?;
    Ok(())
}

/// Appends the member with the sets of the hypotheses that this round rejected.
fn append_rejected(
    alloc: Global,
    graph: &Graph,
    findings: &[Finding],
    into: &mut Writer,
) -> Result<(), NoMemory>
    requires { All (IsFindingOf (sizes_of graph.now)) findings.now }
    ensures before { into.new.before ≡ into.old.before }
    ensures ok { OnOk result (into.new.tokens ≡ into.old.tokens ++ member_tokens (codes "rejected")
        (sets_data graph.now (filter is_rejected_now findings.now))) }
{
    into.key("rejected")?;
    into.begin_array()?;
    for finding in findings {
        if is_rejected_now(finding) {
            append_set(alloc, graph, finding, into)?;
        }
    }
    into.end_array()?;
    Ok(())
}

/// Whether the hypothesis is open.
fn is_open(finding: &Finding) -> bool
    ensures { result ≡ is_open finding.now.status }
{
    matches!(finding.status, Status::Open)
}

/// Whether the finding's round rejected its hypothesis.
fn is_rejected_now(finding: &Finding) -> bool
    ensures { result ≡ is_rejected_now finding.now }
{
    matches!(finding.status, Status::Rejected) && !finding.steps.as_slice().is_empty()
}

/// Appends the member with the ranked hypotheses of these numbers, in their order. Costs for each the logarithm of the count of
/// findings, besides its set.
fn append_ranked(
    alloc: Global,
    graph: &Graph,
    findings: &[Finding],
    order: &[u32],
    into: &mut Writer,
) -> Result<(), NoMemory>
    requires findings { All (IsFindingOf (sizes_of graph.now)) findings.now }
    requires rising { AllPairs (λ earlier later. earlier.number < later.number) findings.now }
    ensures before { into.new.before ≡ into.old.before }
    ensures ok { OnOk result (into.new.tokens ≡ into.old.tokens ++ member_tokens (codes "ranked")
        (array (items_of (filter_map (λ finding. ranked_data graph.now finding finding.status)
        (findings_at findings.now order.now))))) }
{
    into.key("ranked")?;
    into.begin_array()?;
    for number in order {
        append_numbered(alloc, graph, findings, *number, into)?;
    }
    into.end_array()?;
    Ok(())
}

/// Appends the hypothesis of a number, where it is ranked.
fn append_numbered(
    alloc: Global,
    graph: &Graph,
    findings: &[Finding],
    number: u32,
    into: &mut Writer,
) -> Result<(), NoMemory>
    requires findings { All (IsFindingOf (sizes_of graph.now)) findings.now }
    requires rising { AllPairs (λ earlier later. earlier.number < later.number) findings.now }
    ensures before { into.new.before ≡ into.old.before }
    ensures ok { OnOk result (into.new.tokens ≡ into.old.tokens
        ++ found_tokens (option_and_then (λ finding. ranked_data graph.now finding finding.status)
        (finding_numbered findings.now number))) }
{
    match finding_numbered(findings, number) {
        Some(finding) => append_finding(alloc, graph, finding, into),
        None => Ok(()),
    }
}

/// Appends a hypothesis with its cost and robustness, where it is ranked.
fn append_finding(
    alloc: Global,
    graph: &Graph,
    finding: &Finding,
    into: &mut Writer,
) -> Result<(), NoMemory>
    requires { IsFindingOf (sizes_of graph.now) finding.now }
    ensures before { into.new.before ≡ into.old.before }
    ensures ok { OnOk result (into.new.tokens ≡ into.old.tokens
        ++ found_tokens (ranked_data graph.now finding.now finding.now.status)) }
{
    let Status::Ranked {
        trace: _,
        cost,
        alarmed,
        monitored,
    } = &finding.status
    else {
        return Ok(());
    };
    into.begin_object()?;
    append_count("alarmed", *alarmed, into)?;
    append_number("cost", *cost, into)?;
    append_count("monitored", *monitored, into)?;
    into.key("set")?;
    append_set(alloc, graph, finding, into)?;
    into.end_object()?;
    Ok(())
}

/// Appends the set of a finding's hypothesis: the names of its failure modes, and then the words for the monitors that are not
/// believed.
fn append_set(
    alloc: Global,
    graph: &Graph,
    finding: &Finding,
    into: &mut Writer,
) -> Result<(), NoMemory>
    requires { IsFindingOf (sizes_of graph.now) finding.now }
    ensures before { into.new.before ≡ into.old.before }
    ensures ok { OnOk result
        (into.new.tokens ≡ into.old.tokens ++ data_tokens (set_data graph.now finding.now)) }
{
    into.begin_array()?;
    append_failures(graph, finding.set, into)?;
    append_doubts(alloc, graph, finding.doubts, into)?;
    into.end_array()?;
    Ok(())
}

/// Appends the names of the failure modes, in the order of their positions.
fn append_failures(graph: &Graph, set: Set, into: &mut Writer) -> Result<(), NoMemory>
    requires { AreFailures graph.now set }
    ensures before { into.new.before ≡ into.old.before }
    ensures ok { OnOk result (into.new.tokens
        ≡ into.old.tokens ++ each_tokens (map string (map (failure_word graph.now) set))) }
{
    let mut left = set;
    while let Some(parts) = left.split_first() {
        into.string(failure_name(graph, parts.0))?;
        left = parts.1;
    }
    Ok(())
}

/// Appends the words for the monitors that are not believed, in the order of their nodes.
fn append_doubts(
    alloc: Global,
    graph: &Graph,
    doubts: Doubts,
    into: &mut Writer,
) -> Result<(), NoMemory>
    requires { All (λ node. node < length graph.now.nodes) doubts }
    ensures before { into.new.before ≡ into.old.before }
    ensures ok { OnOk result (into.new.tokens
        ≡ into.old.tokens ++ each_tokens (map string (map (doubt_word graph.now) doubts))) }
{
    let mut left = doubts;
    while let Some(parts) = left.split_first() {
        into.string(doubt_word(alloc, graph, parts.0)?.as_str())?;
        left = parts.1;
    }
    Ok(())
}
