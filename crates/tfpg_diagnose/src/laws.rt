//! What the definitions of reports come to, as functions that do nothing: each says its laws in its clauses.

ghost use Rattle.std.specs.Prelude.{◌≡◌, ◌<◌, ℕ, List, []};
ghost use Rattle.tfpg_base.specs.declared.terms.Terms.{Terms};
ghost use Rattle.tfpg_graph.specs.Graph.{Tfpg};
ghost use Rattle.tfpg_evidence.specs.declared.finding.Finding.{Finding};
ghost use Rattle.tfpg_evidence.specs.declared.finding.Status.TheVariants.{Rejected};
ghost use Rattle.tfpg_report.specs.Blocks.{Block};
ghost use Rattle.tfpg_check.specs.Report.{AreBlocks};
ghost use Rattle.tfpg_diagnose.specs.BlockFindings.{HasFindingInBlock};

use tfpg_clause::laws::{
    a_refutation_is_finished, a_tree_stays, the_front_of_a_tree_is_a_partial_tree,
};

/// In the blocks of a diagnosis what one round rejects has no step in a later round, and is rejected there.
pub fn a_rejected_set_stays_rejected()
    ensures rejected { (graph : Tfpg) (terms : Terms) (lines : List (List ℕ)) (blocks : List Block) →
        AreBlocks graph terms lines blocks → (earlier later : ℕ) → earlier < later →
        (number : ℕ) (first second : Finding) →
        HasFindingInBlock blocks earlier number first → HasFindingInBlock blocks later number second →
        first.status ≡ Rejected → second.status ≡ Rejected }
    ensures no_steps { (graph : Tfpg) (terms : Terms) (lines : List (List ℕ)) (blocks : List Block) →
        AreBlocks graph terms lines blocks → (earlier later : ℕ) → earlier < later →
        (number : ℕ) (first second : Finding) →
        HasFindingInBlock blocks earlier number first → HasFindingInBlock blocks later number second →
        first.status ≡ Rejected → second.steps ≡ [] }
{
    a_refutation_is_finished();
    the_front_of_a_tree_is_a_partial_tree();
    a_tree_stays();
}
