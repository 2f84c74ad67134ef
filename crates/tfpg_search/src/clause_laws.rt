//! The laws of clauses and of refutations that the proofs of this crate rest on.

ghost use Rattle.tfpg_search.specs.inside.ClauseLaws.{ClauseLaws};

use tfpg_clause::laws::{
    a_clause_has_few_small_alternatives, a_log_goes_on_from_its_first_events, a_partial_tree_grows,
    a_partial_tree_has_one_present_leaf, a_refutation_is_finished, a_tree_stays,
    bounds_hold_of_the_times_of_nodes, the_front_of_a_tree_is_a_partial_tree,
    what_is_allowed_stays_allowed,
};

/// Clauses have few and small alternatives, what is allowed stays allowed, and the present leaf of a tree follows its steps.
/// It does nothing.
pub(crate) fn clause_laws()
    ensures { ClauseLaws }
{
    bounds_hold_of_the_times_of_nodes();
    a_clause_has_few_small_alternatives();
    a_log_goes_on_from_its_first_events();
    what_is_allowed_stays_allowed();
    the_front_of_a_tree_is_a_partial_tree();
    a_partial_tree_grows();
    a_partial_tree_has_one_present_leaf();
    a_tree_stays();
    a_refutation_is_finished();
}
