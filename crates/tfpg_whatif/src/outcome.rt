//! What a further line would show of one hypothesis.

ghost use Rattle.std.specs.Prelude.{◌≡◌};
ghost use Rattle.tfpg_whatif.specs.Outcomes.{is_out, is_unknown};

use tfpg_base::{Items, Trace};
use tfpg_evidence::StepList;

/// What a further line would show of a hypothesis. The lengthened log is the log after that line.
#[derive(Drop)]
pub enum Outcome {
    /// It keeps: this trace explains the lengthened log.
    Fits(Trace),
    /// It is shown to fall: these steps are a refutation at the lengthened log. They have no more splits than the budget.
    Out(StepList),
    /// The budget was spent on these steps: they have as many splits as the budget, the tree is unsettled, and no subtree is
    /// reusable.
    Unknown(StepList),
}

/// Outcomes in the order of the hypotheses that are asked about.
pub type OutcomeList = Items<Outcome>;

impl Outcome {
    /// Whether the hypothesis is shown to fall.
    pub(crate) fn is_out(&self) -> bool
        ensures { result ≡ is_out self.now }
    {
        match self {
            Outcome::Fits(_) => false,
            Outcome::Out(_) => true,
            Outcome::Unknown(_) => false,
        }
    }

    /// Whether the budget did not suffice.
    pub(crate) fn is_unknown(&self) -> bool
        ensures { result ≡ is_unknown self.now }
    {
        match self {
            Outcome::Fits(_) => false,
            Outcome::Out(_) => false,
            Outcome::Unknown(_) => true,
        }
    }
}
