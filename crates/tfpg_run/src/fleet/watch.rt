//! What is watched: the vehicles, their fleet, and what is kept of each vehicle for the counts at the end.

ghost use Rattle.std.specs.Prelude.{◌≡◌, ◌⊎◌, ◌<◌, ◌≤◌, ◌↔◌, ◌&&◌, ℕ, [], Contains, Err, IfOk, IsTrue, Some, length, replicate, slice_get, slice_set};
ghost use Rattle.std.specs.List.{list_any};
ghost use Rattle.tfpg_base.specs.Terms.{AreReportTerms};
ghost use Rattle.tfpg_base.specs.declared.limits.TheConstants.{MAX_MEMBERS};
ghost use Rattle.tfpg_evidence.specs.RoundOf.{is_ranked};
ghost use Rattle.tfpg_fleet.specs.TooMany.{IsTooMany};
ghost use Rattle.tfpg_words.specs.Names.{AreNames};
ghost use Rattle.tfpg_run.specs.fleet.Counting.{is_in, ranks};
ghost use Rattle.tfpg_run.specs.inside.fleet.UnderWay.{HasAnswered, KeepsLast, problem_in};

use std::alloc::Global;
use tfpg_base::{NoMemory, Set, Terms};
use tfpg_engine::Told;
use tfpg_evidence::{Finding, Round};
use tfpg_fleet::{Fleet, NameList};
use tfpg_graph::Graph;
use tfpg_hyp::TableFault;

/// Vehicles of these names, each of this graph, on these terms.
#[derive(Clone, Copy)]
pub(crate) struct Vehicles<'a> {
    pub(crate) graph: &'a Graph,
    pub(crate) names: &'a NameList,
    pub(crate) terms: Terms,
}

/// The fleet, and for each vehicle the failure modes of the hypotheses that its last round ranks.
#[derive(Drop)]
pub(crate) struct Watch {
    pub(crate) fleet: Fleet,
    pub(crate) ranked: Vec<Set>,
}

impl Watch {
    /// A new fleet of the vehicles. Where there are too many hypotheses, the fault says how many.
    pub(crate) fn new(alloc: Global, vehicles: &Vehicles<'_>) -> Result<Watch, TableFault>
        requires terms { AreReportTerms vehicles.now.terms }
        requires names { AreNames vehicles.now.names.now }
        ensures new { IfOk result (HasAnswered (problem_in vehicles.now) [] []) }
        ensures too_many { (count : ℕ) → (result ≡ Err (TableFault.TooMany count)) ↔
            IsTooMany vehicles.now.graph.now vehicles.now.terms (length vehicles.now.names.now) count }
    {
        let Terms { k, doubt, budget } = vehicles.terms;
        let fleet = Fleet::new(alloc, vehicles.graph, vehicles.names, k, doubt, budget)?;
        let ranked = empty_sets(alloc, vehicles.names.as_slice().len())?;
        Ok(Watch { fleet, ranked })
    }
}

/// So many empty sets.
fn empty_sets(alloc: Global, count: usize) -> Result<Vec<Set>, NoMemory>
    ensures { IfOk result (λ sets. sets.items ≡ replicate count []) }
{
    Ok(vec![in alloc; Set::empty(); count]?)
}

/// What is kept of the vehicle of this number.
pub(super) fn kept_at(ranked: &[Set], vehicle: usize) -> Set
    requires { vehicle < length ranked.now }
    ensures { slice_get ranked.now vehicle ≡ Some result }
{
    ranked[vehicle]
}

/// Keeps this of the vehicle of this number.
pub(super) fn keep_at(ranked: &mut Vec<Set>, vehicle: usize, set: Set)
    requires { vehicle < length ranked.old.items }
    ensures { ranked.new.items ≡ slice_set ranked.old.items vehicle set }
{
    ranked[vehicle] = set;
}

/// The failure modes that the last round of a vehicle ranks, after this was told of its next line, where these were those before. The
/// graph has so many failure modes.
pub(super) fn ranked_after(told: &Told, before: Set, failures: u32) -> Set
    requires { failures ≤ MAX_MEMBERS }
    ensures { KeepsLast told.now failures before result }
{
    match told {
        Told::Refused(_) => before,
        Told::Round(round) => ranked_in(round, failures),
    }
}

/// The failure modes of the hypotheses that the round ranks.
fn ranked_in(round: &Round, failures: u32) -> Set
    requires { failures ≤ MAX_MEMBERS }
    ensures { (position : ℕ) → position < failures → is_in position result ≡ ranks position round.entry.now }
{
    let mut ranked = Set::empty();
    for position in 0..failures {
        ranked = with_if(ranked, position, ranks(round, position));
    }
    ranked
}

/// The set with this member, if that holds.
fn with_if(set: Set, position: u32, holds: bool) -> Set
    requires { position < MAX_MEMBERS }
    ensures { (other : ℕ) → Contains result other ↔ ((IsTrue holds × (position ≡ other)) ⊎ Contains set other) }
{
    if holds {
        return set.with(position);
    }
    set
}

/// Whether the round ranks a hypothesis that has the failure mode at this position.
fn ranks(round: &Round, position: u32) -> bool
    ensures { result ≡ ranks position round.entry.now }
{
    one_ranks(round.findings.as_slice(), position)
}

/// Whether one of the findings ranks a hypothesis that has the failure mode at this position.
fn one_ranks(findings: &[Finding], position: u32) -> bool
    ensures { result ≡ list_any (λ finding. is_ranked finding.status && is_in position finding.set) findings.now }
{
    findings.iter().any(|finding| finding.status.is_ranked() && is_in(position, finding.set))
}

/// Whether the failure mode at this position is in the set.
pub(super) fn is_in(position: u32, set: Set) -> bool
    ensures { result ≡ is_in position set }
{
    set.has(position)
}
