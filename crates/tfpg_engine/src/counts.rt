//! How many hypotheses of a round have each status.

ghost use Rattle.std.specs.Prelude.{◌≡◌, ◌<◌, ◌+◌, ◌^◌, length};
ghost use Rattle.tfpg_hyp.specs.Rounds.{counts_of};
ghost use Rattle.tfpg_engine.specs.inside.StatusCounts.{counts_with};

use tfpg_evidence::{Counts, Finding, Status};

/// How many of the findings have each status.
pub(crate) fn counts_of(findings: &[Finding]) -> Counts
    requires { length findings.now < 2 ^ 32 }
    ensures { result ≡ counts_of findings.now }
{
    let mut counts = Counts {
        ranked: 0,
        covered: 0,
        rejected: 0,
        unsettled: 0,
    };
    for finding in findings {
        add(&mut counts, &finding.status);
    }
    counts
}

/// Counts one more status.
fn add(counts: &mut Counts, status: &Status)
    requires ranked { counts.old.ranked + 1 < 2 ^ 32 }
    requires covered { counts.old.covered + 1 < 2 ^ 32 }
    requires rejected { counts.old.rejected + 1 < 2 ^ 32 }
    requires unsettled { counts.old.unsettled + 1 < 2 ^ 32 }
    ensures { counts.new ≡ counts_with counts.old status.now }
{
    match status {
        Status::Ranked { .. } => counts.ranked += 1,
        Status::Covered { .. } => counts.covered += 1,
        Status::Rejected => counts.rejected += 1,
        Status::Open => counts.unsettled += 1,
    }
}
