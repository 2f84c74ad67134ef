//! Which ranked hypothesis covers one.

ghost use Rattle.std.specs.Prelude.{◌≡◌, ◌+◌, ℕ, MatchOption, IsTrue, length, map, ◌<◌, ◌≤◌, ◌^◌, ◌↔◌};
ghost use Rattle.tfpg_base.specs.Hypothesis.{IsProperPart};
ghost use Rattle.tfpg_evidence.specs.Findings.{hypothesis_of};
ghost use Rattle.tfpg_evidence.specs.RoundOf.{is_ranked};
ghost use Rattle.tfpg_hyp.specs.Rounds.{HasRankedPart, IsLeastPart};
ghost use Rattle.tfpg_engine.specs.inside.NewFindings.{PartsStandFirst};

use tfpg_base::Hypothesis;
use tfpg_evidence::Finding;

/// The least number of a ranked finding on a proper part of the hypothesis. Goes through the findings, and ends at the first ranked
/// one with as many failure modes as the hypothesis has members, since none from there on is on a part.
pub(crate) fn covering(findings: &[Finding], hypothesis: Hypothesis) -> Option<u32>
    requires few { length findings.now < 2 ^ 32 }
    requires parts_first { PartsStandFirst (map hypothesis_of findings.now) hypothesis }
    ensures { MatchOption result (HasRankedPart findings.now hypothesis → ⊥) (IsLeastPart findings.now hypothesis) }
{
    let members = member_count(hypothesis);
    for number in 0..findings.len() {
        let finding = &findings[number];
        if covers(finding, hypothesis) {
            return Some(number as u32);
        }
        if ranks_as_many(finding, members) {
            return None;
        }
    }
    None
}

/// How many failure modes and doubts the hypothesis has.
fn member_count(hypothesis: Hypothesis) -> u64
    ensures { result ≡ length hypothesis.set + length hypothesis.doubts }
{
    u64::from(hypothesis.set.len()) + u64::from(hypothesis.doubts.len())
}

/// Whether the finding ranks a proper part of the hypothesis.
fn covers(finding: &Finding, hypothesis: Hypothesis) -> bool
    ensures { IsTrue result ↔
        (IsTrue (is_ranked finding.now.status) × IsProperPart (hypothesis_of finding.now) hypothesis) }
{
    finding.status.is_ranked() && finding.hypothesis().is_proper_part(hypothesis)
}

/// Whether the finding ranks a hypothesis with so many failure modes, or more.
fn ranks_as_many(finding: &Finding, members: u64) -> bool
    ensures { IsTrue result → members ≤ length finding.now.set }
{
    finding.status.is_ranked() && u64::from(finding.set.len()) >= members
}
