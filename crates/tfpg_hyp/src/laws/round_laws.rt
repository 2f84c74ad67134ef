//! What the statuses of a round say of the hypotheses themselves.

ghost use Rattle.std.specs.Prelude.{ℕ, List};
ghost use Rattle.tfpg_base.specs.declared.terms.Terms.{Terms};
ghost use Rattle.tfpg_graph.specs.Graph.{Tfpg};
ghost use Rattle.tfpg_graph.specs.Valid.{IsValid};
ghost use Rattle.tfpg_log.specs.Log.{Logbook, IsLogOf, IsOrdered};
ghost use Rattle.tfpg_evidence.specs.declared.round.Round.{Round};
ghost use Rattle.tfpg_hyp.specs.Rounds.{IsRound, HasNoneOpen};
ghost use Rattle.tfpg_hyp.specs.Fitting.{SayWhichSetsFit, AreStatusesOfMinimalSets};

use tfpg_clause::laws::a_refutation_leaves_no_trace;

/// What a round says of a hypothesis, whatever became of the others: one that is not open is rejected exactly where it does not
/// fit the log, and a ranked one of whose proper parts none is open has no proper part that fits.
pub fn rounds_say_which_sets_fit()
    ensures { (graph : Tfpg) (terms : Terms) (line : ℕ) (rounds : List Round) (log : Logbook)
        (round : Round) →
        IsValid graph → IsLogOf graph log → IsOrdered log → IsRound graph terms rounds log line round →
        SayWhichSetsFit graph log terms round.findings }
{
    a_refutation_leaves_no_trace();
}

/// In a round without an open hypothesis the statuses depend on the graph, on `k` and `doubt`, and on the log alone: ranked are
/// exactly the hypotheses that fit while no proper part does, covered exactly the others that fit, and rejected exactly those that
/// do not.
pub fn statuses_are_those_of_minimal_sets()
    ensures { (graph : Tfpg) (terms : Terms) (line : ℕ) (rounds : List Round) (log : Logbook)
        (round : Round) →
        IsValid graph → IsLogOf graph log → IsOrdered log → IsRound graph terms rounds log line round →
        HasNoneOpen round → AreStatusesOfMinimalSets graph log terms round.findings }
{
    a_refutation_leaves_no_trace();
}
