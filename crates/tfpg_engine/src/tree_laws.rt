//! The laws of trees that the proofs of this crate rest on.

ghost use Rattle.tfpg_engine.specs.inside.TreeLaws.{TreeLaws};

use tfpg_clause::laws::{
    a_log_goes_on_from_its_first_events, a_partial_tree_grows, a_partial_tree_has_one_present_leaf,
    a_refutation_is_finished, a_tree_stays, the_front_of_a_tree_is_a_partial_tree,
};

/// What a tree begins with is a partial tree, which has one present leaf, and trees stay while the log goes on. It does
/// nothing.
pub(crate) fn tree_laws()
    ensures { TreeLaws }
{
    a_log_goes_on_from_its_first_events();
    the_front_of_a_tree_is_a_partial_tree();
    a_partial_tree_grows();
    a_partial_tree_has_one_present_leaf();
    a_tree_stays();
    a_refutation_is_finished();
}
