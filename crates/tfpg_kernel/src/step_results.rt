//! Why what the checker returns is right, by the laws of trees.

ghost use Rattle.std.specs.Prelude.{◌≡◌, List, true, false};
ghost use Rattle.tfpg_graph.specs.Graph.{Tfpg};
ghost use Rattle.tfpg_log.specs.Log.{Logbook, GoesOn, IsOrdered};
ghost use Rattle.tfpg_evidence.specs.declared.step.Step.{Step};
ghost use Rattle.tfpg_clause.specs.Case.{case_of};
ghost use Rattle.tfpg_clause.specs.Trees.{Judged};
ghost use Rattle.tfpg_kernel.specs.declared.taken.Taken.{Taken};
ghost use Rattle.tfpg_kernel.specs.declared.taken.Taken.TheVariants.{Bad};
ghost use Rattle.tfpg_kernel.specs.declared.taken.BadStep.TheVariants.{AfterClosed};
ghost use Rattle.tfpg_kernel.specs.CheckerState.{CheckerState};
ghost use Rattle.tfpg_kernel.specs.Represents.{CheckerRepresents};
ghost use Rattle.tfpg_kernel.specs.inside.StepResults.{IsStepResult};
ghost use Rattle.tfpg_kernel.specs.inside.Paths.{Moves};

use tfpg_clause::laws::{
    a_partial_tree_grows, a_partial_tree_has_one_present_leaf, a_refutation_is_finished,
    a_tree_stays, the_last_step_of_a_tree_is_right,
};

/// Each move of a checker is the result for its step: `refused` says it of a checker that is closed, and `moved` of one that
/// is not. It does nothing.
pub(crate) fn moves_are_results()
    ensures refused { (graph : Tfpg) (earlier log : Logbook) (old : CheckerState) (steps : List Judged)
        (step : Step) → IsOrdered log → GoesOn earlier log → CheckerRepresents graph earlier old steps →
        old.closed ≡ true →
        IsStepResult (case_of graph log old.reach) steps step (Bad AfterClosed) old }
    ensures moved { (graph : Tfpg) (earlier log : Logbook) (old new : CheckerState) (steps : List Judged)
        (step : Step) (result : Taken) → IsOrdered log → GoesOn earlier log →
        CheckerRepresents graph earlier old steps →
        old.closed ≡ false → new.reach ≡ old.reach → Moves graph log old step result new →
        IsStepResult (case_of graph log old.reach) steps step result new }
{
    a_partial_tree_grows();
    a_partial_tree_has_one_present_leaf();
    a_refutation_is_finished();
    a_tree_stays();
    the_last_step_of_a_tree_is_right();
}
