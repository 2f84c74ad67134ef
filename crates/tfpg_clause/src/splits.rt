//! How many steps of evidence are splits.

ghost use Rattle.std.specs.Prelude.{◌≡◌};
ghost use Rattle.tfpg_clause.specs.Trees.{is_split, split_count};

use tfpg_evidence::Step;

/// How many of the steps are splits. Takes time linear in their number.
pub fn split_count(steps: &[Step]) -> u64
    ensures { result ≡ split_count steps.now }
{
    steps.iter().filter(|step| is_split(step)).count() as u64
}

/// Whether the step is a split.
fn is_split(step: &Step) -> bool
    ensures { result ≡ is_split step.now }
{
    match step {
        Step::Split(_) => true,
        Step::Cycle(_) => false,
        Step::Again => false,
    }
}
