//! What the definitions of this crate come to, as functions that do nothing: each says its law in its clauses.

ghost use Rattle.std.specs.Prelude.{◌≡◌, ◌≢◌, ◌+◌, ◌<◌, ◌≤◌, ◌⊎◌, ℕ, List, length, Some, slice_get};
ghost use Rattle.tfpg_base.specs.declared.terms.Terms.{Terms};
ghost use Rattle.tfpg_base.specs.Hypothesis.{Hypothesis, IsProperPart};
ghost use Rattle.tfpg_base.specs.NodeSet.{IsNodeSet};
ghost use Rattle.tfpg_base.specs.Set.{IsSubset, IsSet};
ghost use Rattle.tfpg_graph.specs.Graph.{Tfpg};
ghost use Rattle.tfpg_hyp.specs.Hypotheses.{HasHypotheses};
ghost use Rattle.tfpg_hyp.specs.Ranking.{IsRankedBefore};
ghost use Rattle.tfpg_hyp.specs.Table.{IsHypothesis, IsTable};
ghost use Rattle.tfpg_hyp.specs.declared.place.Place.{Place};

mod larger_hypotheses;
mod names;
mod round_laws;

pub use larger_hypotheses::a_larger_hypothesis_fits_as_well;
pub use names::a_round_is_of_its_graph;
pub use round_laws::{rounds_say_which_sets_fit, statuses_are_those_of_minimal_sets};

/// On the same terms a graph has one table, and one number of hypotheses.
pub fn the_table_is_one()
    ensures hypotheses { (graph : Tfpg) (terms : Terms) (hypotheses others : List Hypothesis) →
        IsTable graph terms hypotheses → IsTable graph terms others → hypotheses ≡ others }
    ensures count { (graph : Tfpg) (terms : Terms) (count other : ℕ) →
        HasHypotheses graph terms count → HasHypotheses graph terms other → count ≡ other }
    ensures once { (graph : Tfpg) (terms : Terms) (hypotheses : List Hypothesis) →
        IsTable graph terms hypotheses → (number other : ℕ) (hypothesis : Hypothesis) →
        slice_get hypotheses number ≡ Some hypothesis → slice_get hypotheses other ≡ Some hypothesis →
        number ≡ other }
{}

/// Each part of a hypothesis is a hypothesis, and a proper one has the lesser number.
pub fn subsets_stand_before_their_supersets()
    ensures hypothesis { (graph : Tfpg) (terms : Terms) (part whole : Hypothesis) →
        IsSet part.set → IsNodeSet part.doubts →
        IsSubset part.set whole.set → IsSubset part.doubts whole.doubts →
        IsHypothesis graph terms whole → IsHypothesis graph terms part }
    ensures before { (graph : Tfpg) (terms : Terms) (hypotheses : List Hypothesis) →
        IsTable graph terms hypotheses → (number other : ℕ) (part whole : Hypothesis) →
        slice_get hypotheses number ≡ Some part → slice_get hypotheses other ≡ Some whole →
        IsProperPart part whole → number < other }
{}

/// Hypotheses stand by how many members they have: none has fewer than one before it. A proper part of one has fewer.
pub fn hypotheses_stand_by_size()
    ensures in_order { (graph : Tfpg) (terms : Terms) (hypotheses : List Hypothesis) →
        IsTable graph terms hypotheses → (number other : ℕ) (earlier later : Hypothesis) →
        slice_get hypotheses number ≡ Some earlier → slice_get hypotheses other ≡ Some later → number ≤ other →
        length earlier.set + length earlier.doubts ≤ length later.set + length later.doubts }
    ensures fewer { (graph : Tfpg) (terms : Terms) (part whole : Hypothesis) →
        IsHypothesis graph terms part → IsHypothesis graph terms whole → IsProperPart part whole →
        length part.set + length part.doubts < length whole.set + length whole.doubts }
{}

/// The ranking order is a strict total order of keys with different numbers whose robustness is a fraction.
pub fn the_ranking_order_is_total()
    ensures irreflexive { (a : Place) → IsRankedBefore a a → ⊥ }
    ensures transitive { (a b c : Place) →
        1 ≤ a.robust.monitored → 1 ≤ b.robust.monitored → 1 ≤ c.robust.monitored →
        IsRankedBefore a b → IsRankedBefore b c → IsRankedBefore a c }
    ensures total { (a b : Place) → a.number ≢ b.number → IsRankedBefore a b ⊎ IsRankedBefore b a }
{}
