//! What facts, clauses and refutations come to, as functions that do nothing: each says its law in its clauses.

ghost use Rattle.std.specs.Prelude.{◌≡◌, ℕ, pos, ◌≤ℤ◌, ◌↔◌, ◌⊎◌, ◌<◌, ◌≤◌, ◌+◌, length, List, All, Contains, IsTrue, Some, slice_index};
ghost use Rattle.tfpg_base.specs.declared.activation.Activation.{Activation};
ghost use Rattle.tfpg_base.specs.declared.constraint.Constraint.{Constraint};
ghost use Rattle.tfpg_graph.specs.Graph.{Tfpg, is_kind_at, is_failure};
ghost use Rattle.tfpg_graph.specs.Reach.{IsReach};
ghost use Rattle.tfpg_graph.specs.Valid.{IsValid};
ghost use Rattle.tfpg_log.specs.Log.{Logbook, GoesOn, IsLogOf, IsOrdered, now_of};
ghost use Rattle.tfpg_log.specs.Rules.{KeepsRules};
ghost use Rattle.tfpg_log.specs.Explains.{Explains, Fits, ShowsAll, IsMember};
ghost use Rattle.tfpg_evidence.specs.declared.clause_name.ClauseName.{ClauseName};
ghost use Rattle.tfpg_evidence.specs.declared.reason.Reason.{Reason};
ghost use Rattle.tfpg_base.specs.Constraint.{Meets};
ghost use Rattle.tfpg_clause.specs.Laws.{LowerBoundsHold, UpperBoundsHold, AllowedClausesHaveAlternatives, AllowedClausesAreShort, AllowedClausesAreSmall, LogsGoOnFromTheirFirstEvents, AllowedClausesStay, FactsStay, PartialTreesHaveAPresentLeaf, PresentLeavesAreAlone, PathsAreThoseOfPresentLeaves};
ghost use Rattle.tfpg_base.specs.Bounds.{at_least_after, at_most_after};
ghost use Rattle.tfpg_clause.specs.Case.{Case, case_of, case_at};
ghost use Rattle.tfpg_clause.specs.Facts.{fact, IsLow, IsHigh};
ghost use Rattle.tfpg_evidence.specs.declared.reason.Reason.TheVariants.{Pick};
ghost use Rattle.tfpg_clause.specs.Clauses.{alternatives, MeetsClause};
ghost use Rattle.tfpg_clause.specs.Order.{horizon_of, ComesBefore};
ghost use Rattle.tfpg_clause.specs.Cut.{cut, AreNumbers, AreNumbersOf};
ghost use Rattle.tfpg_clause.specs.Trees.{Judged, Chosen, picked, IsClosedLeaf, IsRefutation};
ghost use Rattle.tfpg_base.specs.ConstraintCycle.{IsCycle, sum_of};

mod tree_laws;

pub use tree_laws::{
    a_partial_tree_grows, a_refutation_is_finished, a_tree_stays,
    the_front_of_a_tree_is_a_partial_tree, the_last_step_of_a_tree_is_right,
};

/// What is allowed at a log stays allowed at each log that goes on from it, with the same constraints: `clause` says it of
/// clauses, and `fact` of facts.
pub fn what_is_allowed_stays_allowed()
    ensures clause { AllowedClausesStay }
    ensures fact { FactsStay }
{}

/// A clause that is allowed has an alternative, and not many, and each is small.
///
/// - `some`: it has an alternative.
/// - `few`: it has fewer than `alternatives_limit maximum` alternatives, where at most `maximum` edges enter any node.
/// - `small`: each has at most three constraints, and these are on nodes of the graph.
pub fn a_clause_has_few_small_alternatives()
    ensures some { AllowedClausesHaveAlternatives }
    ensures few { AllowedClausesAreShort }
    ensures small { AllowedClausesAreSmall }
{}

/// A log goes on from its first events. So what was allowed at them is allowed at the log.
pub fn a_log_goes_on_from_its_first_events()
    ensures { LogsGoOnFromTheirFirstEvents }
{}

/// The clauses of one horizon are in a strict and total order: `not_itself` says that none comes before itself, `through` that
/// what comes before a clause comes before all that come after it, and `one_first` that of two different ones one comes
/// before the other.
pub fn clauses_of_one_horizon_have_an_order()
    ensures not_itself { (name : ClauseName) → ComesBefore name name → ⊥ }
    ensures through { (one middle other : ClauseName) →
        ComesBefore one middle → ComesBefore middle other → ComesBefore one other }
    ensures one_first { (one other : ClauseName) → horizon_of one ≡ horizon_of other →
        (one ≡ other) ⊎ (ComesBefore one other ⊎ ComesBefore other one) }
{}

/// The facts give each node one greatest lower bound, and one least upper bound: `low` and `high` say that there is one, and
/// `one_low` and `one_high` that there is no other.
pub fn facts_give_a_node_one_low_and_one_high()
    ensures low { (graph : Tfpg) (log : Logbook) (reach : List ℕ) (node : ℕ) →
        node < length graph.nodes → (low : ℕ) × IsLow (case_of graph log reach) node low }
    ensures high { (graph : Tfpg) (log : Logbook) (reach : List ℕ) (node : ℕ) →
        node < length graph.nodes → (high : ℕ) × IsHigh (case_of graph log reach) node high }
    ensures one_low { (graph : Tfpg) (log : Logbook) (reach : List ℕ) (node one other : ℕ) →
        IsLow (case_of graph log reach) node one → IsLow (case_of graph log reach) node other →
        one ≡ other }
    ensures one_high { (graph : Tfpg) (log : Logbook) (reach : List ℕ) (node one other : ℕ) →
        IsHigh (case_of graph log reach) node one → IsHigh (case_of graph log reach) node other →
        one ≡ other }
{}

/// The constraints of facts and clauses bound the times of nodes as their names say.
///
/// - `lower`: the node's time is at least this.
/// - `upper`: it is at most this.
/// - `at_least_after`: it is at least so much after the other's.
/// - `at_most_after`: it is at most so much after the other's.
pub fn bounds_hold_of_the_times_of_nodes()
    ensures lower { LowerBoundsHold }
    ensures upper { UpperBoundsHold }
    ensures at_least_after { (times : List ℕ) (node source bound : ℕ) →
        Meets times (at_least_after node source bound)
        ↔ (slice_index times source + bound ≤ slice_index times node) }
    ensures at_most_after { (times : List ℕ) (node source bound : ℕ) →
        Meets times (at_most_after node source bound)
        ↔ (slice_index times node ≤ slice_index times source + bound) }
{}

/// Where times meet constraints that chain into a cycle, the sum of their bounds is at least 0.
pub fn a_cycle_that_is_met_is_not_negative()
    ensures { (times : List ℕ) (constraints : List Constraint) →
        IsCycle constraints → All (Meets times) constraints → pos 0 ≤ℤ sum_of constraints }
{}

/// Evidence is sound: the numbers of a trace that explains the log from a set meet what evidence is made of. A node that
/// the trace does not activate may have any number from now + 1 to 10^12 + 1.
///
/// - `facts`: they meet each fact of the log and of the reach of the set.
/// - `clauses`: they meet each allowed clause, at every horizon up to now.
pub fn traces_meet_facts_and_clauses()
    ensures facts { (graph : Tfpg) (log : Logbook) (set reach : List ℕ)
        (trace : List Activation) (numbers : List ℕ) →
        IsValid graph → IsLogOf graph log → IsOrdered log → IsReach graph set reach →
        Explains graph log set trace → AreNumbersOf graph (now_of log) trace numbers →
        (reason : Reason) (stated : Constraint) →
        fact (case_of graph log reach) reason ≡ Some stated → Meets numbers stated }
    ensures clauses { (graph : Tfpg) (log : Logbook) (set : List ℕ)
        (trace : List Activation) (numbers : List ℕ) →
        IsValid graph → Explains graph log set trace → AreNumbersOf graph (now_of log) trace numbers →
        (name : ClauseName) (clause : List (List Constraint)) →
        alternatives graph log name ≡ Some clause → MeetsClause numbers clause }
{}

/// Evidence is complete: numbers, one for each node, that meet what evidence is made of give a trace, where they are cut at
/// now.
///
/// - `rules`: the trace keeps the propagation rules exactly where they meet each allowed clause with the horizon now.
/// - `shown`: where they meet each fact, the trace shows each event.
/// - `from_set`: where they meet each fact, the failure modes that it activates are members of the set.
/// - `explains`: where they meet all of these, it explains the log from the set.
pub fn numbers_that_meet_all_give_a_trace()
    ensures rules { (graph : Tfpg) (log : Logbook) (numbers : List ℕ) →
        IsValid graph → AreNumbers graph numbers →
        KeepsRules graph log (cut (now_of log) numbers)
        ↔ ((name : ClauseName) (clause : List (List Constraint)) → horizon_of name ≡ now_of log →
        alternatives graph log name ≡ Some clause → MeetsClause numbers clause) }
    ensures shown { (graph : Tfpg) (log : Logbook) (set reach : List ℕ) (numbers : List ℕ) →
        IsLogOf graph log → IsOrdered log → IsReach graph set reach → AreNumbers graph numbers →
        ((reason : Reason) (stated : Constraint) →
        fact (case_of graph log reach) reason ≡ Some stated → Meets numbers stated) →
        ShowsAll graph log (cut (now_of log) numbers) }
    ensures from_set { (graph : Tfpg) (log : Logbook) (set reach : List ℕ) (numbers : List ℕ) →
        IsLogOf graph log → IsOrdered log → IsReach graph set reach → AreNumbers graph numbers →
        ((reason : Reason) (stated : Constraint) →
        fact (case_of graph log reach) reason ≡ Some stated → Meets numbers stated) →
        All (λ activation. IsTrue (is_kind_at is_failure graph activation.node) →
        IsMember graph set activation.node)
        (cut (now_of log) numbers) }
    ensures explains { (graph : Tfpg) (log : Logbook) (set reach : List ℕ) (numbers : List ℕ) →
        IsValid graph → IsLogOf graph log → IsOrdered log → IsReach graph set reach →
        AreNumbers graph numbers →
        ((reason : Reason) (stated : Constraint) →
        fact (case_of graph log reach) reason ≡ Some stated → Meets numbers stated) →
        ((name : ClauseName) (clause : List (List Constraint)) → horizon_of name ≡ now_of log →
        alternatives graph log name ≡ Some clause → MeetsClause numbers clause) →
        Explains graph log set (cut (now_of log) numbers) }
{}

/// The next step of a partial tree stands at one leaf, whichever tree is chosen that begins with its steps.
///
/// - `there`: it has a present leaf.
/// - `only_one`: it has no other.
/// - `path`: a path with marks that its steps lead to is that of the present leaf.
pub fn a_partial_tree_has_one_present_leaf()
    ensures there { PartialTreesHaveAPresentLeaf }
    ensures only_one { PresentLeavesAreAlone }
    ensures path { PathsAreThoseOfPresentLeaves }
{}

/// A closed leaf is sound: no numbers meet all facts of the log and the constraints that the picks among its reasons state.
/// `cited` says so, and `path` says it of numbers that meet all constraints that are picked on the path of the leaf.
pub fn a_closed_leaf_leaves_no_numbers()
    ensures cited { (case : Case) (path : List Chosen) (seen : ℕ) (reasons : List Reason)
        (numbers : List ℕ) →
        IsOrdered case.log → IsClosedLeaf (case_at case seen) path reasons →
        ((reason : Reason) (stated : Constraint) → fact case reason ≡ Some stated → Meets numbers stated) →
        ((split number : ℕ) (stated : Constraint) → Contains reasons (Pick split number) →
        picked case.graph case.log path split number ≡ Some stated → Meets numbers stated) → ⊥ }
    ensures path { (case : Case) (path : List Chosen) (seen : ℕ) (reasons : List Reason)
        (numbers : List ℕ) →
        IsOrdered case.log → IsClosedLeaf (case_at case seen) path reasons →
        ((reason : Reason) (stated : Constraint) → fact case reason ≡ Some stated → Meets numbers stated) →
        ((split number : ℕ) (stated : Constraint) →
        picked case.graph case.log path split number ≡ Some stated → Meets numbers stated) → ⊥ }
{}

/// A refutation is sound and final: where steps are one at a log, for the reach of a set, no trace explains that log from the
/// set, nor any log that goes on from it.
pub fn a_refutation_leaves_no_trace()
    ensures { (graph : Tfpg) (earlier log : Logbook) (set reach : List ℕ) (steps : List Judged) →
        IsValid graph → IsLogOf graph log → IsOrdered log → IsReach graph set reach →
        GoesOn earlier log → IsRefutation (case_of graph earlier reach) steps → Fits graph log set → ⊥ }
{}
