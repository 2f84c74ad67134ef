//! What the definitions of this crate come to, as functions that do nothing: each says its law in its clauses.

ghost use Rattle.std.specs.Prelude.{◌≡◌, ◌+◌, ◌*◌, ℕ, List, []};
ghost use Rattle.tfpg_graph.specs.Graph.{Tfpg};
ghost use Rattle.tfpg_log.specs.Log.{Logbook};
ghost use Rattle.tfpg_evidence.specs.declared.clause_name.ClauseName.{ClauseName};
ghost use Rattle.tfpg_search.specs.Enough.{AreNamesAt, IsMaximumIncoming};
ghost use Rattle.tfpg_clause.specs.Case.{Case, case_at, case_of};
ghost use Rattle.tfpg_search.specs.Work.{NodeBounds, AreFactBounds, AreBoundsAt, IsWorkLimit};
ghost use Rattle.tfpg_search.specs.WorkRows.{two_failures, reach_of_first, first_alarm, then_tick, tick_alone};
ghost use Rattle.tfpg_search.specs.Laws.{SolvedLeavesHaveALatestSolution, LatestSolutionsAreAlone, TreesAreUnsettledWhereTheLatestSolutionViolates};

use tfpg_clause::laws::facts_give_a_node_one_low_and_one_high;

/// There is a budget that is always enough, for each graph and log: the clause names of a log can be listed, and some node has
/// the greatest number of edges into it.
pub fn there_is_a_budget_that_is_enough()
    ensures names { (graph : Tfpg) (log : Logbook) → (names : List ClauseName) × AreNamesAt graph log names }
    ensures incoming { (graph : Tfpg) → (maximum : ℕ) × IsMaximumIncoming graph maximum }
{}

/// Where times solve what holds at the leaf of a path, exactly one solution there is the latest: `there` says that there is one,
/// and `only_one` that there is no other.
pub fn a_solved_leaf_has_one_latest_solution()
    ensures there { SolvedLeavesHaveALatestSolution }
    ensures only_one { LatestSolutionsAreAlone }
{}

/// A tree is unsettled exactly where its present leaf has a latest solution and that violates some allowed clause with the
/// horizon now. So it is settled where no times solve its present leaf, and where the latest solution there meets each of these
/// clauses.
pub fn a_tree_is_unsettled_where_its_latest_solution_violates()
    ensures { TreesAreUnsettledWhereTheLatestSolutionViolates }
{}

/// Each round has one limit of its counted calls: `there` says that there is one, and `only_one` that there is no other. Where
/// the log changes no bound, the limit depends on the steps alone, and not on how many nodes there are (`unchanged`). So a system that
/// is given all bounds once more in each round does not keep within it, and a search keeps its system (clause `identity` of
/// [`Search::round`](crate::Search::round)).
pub fn a_round_has_one_work_limit()
    ensures there { (case : Case) (seen steps : ℕ) → (limit : ℕ) × IsWorkLimit case seen steps limit }
    ensures only_one { (case : Case) (seen steps one other : ℕ) → IsWorkLimit case seen steps one →
        IsWorkLimit case seen steps other → one ≡ other }
    ensures unchanged { (case : Case) (seen steps limit : ℕ) (bounds : NodeBounds) →
        AreBoundsAt (case_at case seen) seen bounds → AreFactBounds case bounds →
        IsWorkLimit case seen steps limit → limit ≡ 4 * (steps + 1) }
{
    facts_give_a_node_one_low_and_one_high();
}

/// The limit, worked out on a small graph. The first round of F1 is at an alarm of A at 30, and appends three steps, say: the low of
/// F2 is 31 then, and the low and the high of A are 30, so three bounds differ (`alarm`). At the tick after it the low of F2 is
/// 32, and nothing else differs (`tick`). Where nothing fails, all five lows are 1 after a tick at 0 (`unreached`).
pub fn work_limits_of_a_small_graph()
    ensures alarm { IsWorkLimit (case_of two_failures first_alarm reach_of_first) 0 3 19 }
    ensures tick { IsWorkLimit (case_of two_failures then_tick reach_of_first) 1 0 5 }
    ensures unreached { IsWorkLimit (case_of two_failures tick_alone []) 0 0 9 }
{}
