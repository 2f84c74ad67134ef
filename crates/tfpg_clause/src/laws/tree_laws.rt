//! How refutations and partial trees grow, and how they stay.

ghost use Rattle.tfpg_clause.specs.Laws.{StatedConstraintsStay, FrontsOfPartialTreesArePartial, FrontsOfRefutationsArePartial, TreesBeginAtTheRoot, PathsFollowSteps, LastLeavesEndInRefutations, PresentLeavesStay, PathsStay, PartialTreesStay, RefutationsStay, RefutationsAreNotPartial, LastStepsOfRefutationsAreRight, LastStepsOfPartialTreesAreRight};

/// A right step makes a partial tree or a refutation of a partial tree.
///
/// - `begins`: without a step the path is that of the root.
/// - `moves`: a split on an allowed name enters its first alternative, and a cycle that closes the present leaf goes on to the
///   next alternative of the deepest split that has one left.
/// - `closed`: where none has, the steps are a refutation.
pub fn a_partial_tree_grows()
    ensures begins { TreesBeginAtTheRoot }
    ensures moves { PathsFollowSteps }
    ensures closed { LastLeavesEndInRefutations }
{}

/// The last step of a refutation, or of a partial tree, is right at the present leaf of the steps before it.
pub fn the_last_step_of_a_tree_is_right()
    ensures refutation { LastStepsOfRefutationsAreRight }
    ensures partial { LastStepsOfPartialTreesAreRight }
{}

/// What steps begin with is a partial tree.
///
/// - `partial`: where the steps are a partial tree.
/// - `refutation`: where they are a refutation, and at least one step comes after.
pub fn the_front_of_a_tree_is_a_partial_tree()
    ensures partial { FrontsOfPartialTreesArePartial }
    ensures refutation { FrontsOfRefutationsArePartial }
{}

/// Steps that are a refutation are no partial tree: none comes after them.
pub fn a_refutation_is_finished()
    ensures { RefutationsAreNotPartial }
{}

/// Trees at a log are trees at each log that goes on from it, and what a reason states on a path stays.
pub fn a_tree_stays()
    ensures leaf { PresentLeavesStay }
    ensures path { PathsStay }
    ensures partial { PartialTreesStay }
    ensures refutation { RefutationsStay }
    ensures stated { StatedConstraintsStay }
{}
