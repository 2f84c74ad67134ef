//! The checker: the path to the present leaf, and how a step moves it.

ghost use Rattle.std.specs.Prelude.{◌≡◌, ◌≤◌, ◌<◌, ◌+◌, ◌↔◌, ℕ, List, [], ◌∷◌, ◌++◌, OnOk, OnErr, false, not, if◌then◌else◌};
ghost use Rattle.tfpg_graph.specs.Graph.{Tfpg};
ghost use Rattle.tfpg_graph.specs.Reach.{IsReach};
ghost use Rattle.tfpg_log.specs.Log.{Logbook, GoesOn, IsLogOf, IsOrdered};
ghost use Rattle.tfpg_log.specs.Explains.{Fits};
ghost use Rattle.tfpg_evidence.specs.declared.step.Step.TheVariants.{Split, Cycle, Again};
ghost use Rattle.tfpg_clause.specs.Case.{case_of};
ghost use Rattle.tfpg_clause.specs.Trees.{Judged, IsRefutation, IsPartial};
ghost use Rattle.tfpg_kernel.specs.declared.taken.Taken.TheVariants.{Open, Closed, Bad};
ghost use Rattle.tfpg_kernel.specs.declared.taken.BadStep.{BadStep};
ghost use Rattle.tfpg_kernel.specs.Breaks.{IsFirstBroken};
ghost use Rattle.tfpg_clause.specs.Paths.{judged_by, with_step};
ghost use Rattle.tfpg_kernel.specs.Represents.{CheckerRepresents, steps_after};
ghost use Rattle.tfpg_kernel.specs.inside.StepResults.{IsStepResult};
ghost use Rattle.tfpg_kernel.specs.inside.Paths.{Moves};

use crate::cycle::check_cycle;
use crate::step_results::moves_are_results;
use crate::taken::{BadStep, Taken};
use std::alloc::Global;
use std::marker::Model;
use tfpg_base::NoMemory;
use tfpg_clause::laws::{a_partial_tree_grows, a_refutation_leaves_no_trace};
use tfpg_clause::{PathSplit, backtrack, cite, is_reusable, reuse};
use tfpg_evidence::{ClauseName, Reason, Step};
use tfpg_graph::{Graph, NodeSet};
use tfpg_log::Log;

/// Checks a refutation of a set of failure modes, step by step. It keeps the path to the present leaf, so its memory is
/// that of the deepest path, at most 40 bytes a split.
#[derive(Drop)]
pub struct Checker {
    reach: NodeSet,
    path: Vec<PathSplit>,
    closed: bool,
}

impl Model for Checker {
    ghost use Rattle.std.specs.Prelude.{◌-◌, vec_len, vec_capacity};
    ghost use Rattle.tfpg_kernel.specs.CheckerState.{CheckerState};

    ghost Value = { CheckerState };

    ghost view = { λ c. record {
      reach = c.reach;
      path = c.path.items;
      closed = c.closed;
      spare = vec_capacity c.path - vec_len c.path;
    } };
}

impl Checker {
    /// A checker that took no step, for a set of failure modes that reaches these nodes. It allocates nothing.
    pub fn new(alloc: Global, reach: NodeSet) -> Checker
        ensures represents { (graph : Tfpg) (log : Logbook) → CheckerRepresents graph log result [] }
        ensures reach { result.reach ≡ reach }
    {
        // A law: without a step the path is that of the root.
        a_partial_tree_grows();
        Checker {
            reach,
            path: Vec::new(alloc),
            closed: false,
        }
    }

    /// Whether the tree is closed: the steps taken are a refutation.
    pub fn is_closed(&self) -> bool
        ensures { result ≡ self.now.closed }
    {
        self.closed
    }

    /// Makes room for one more step. The checker is unchanged but for its room. Memory can run out only if it had no room, and then
    /// nothing is changed.
    pub fn reserve(&mut self) -> Result<(), NoMemory>
        ensures ok { OnOk result (1 ≤ self.new.spare) }
        ensures err { OnErr result (self.new ≡ self.old) }
        ensures full { OnErr result (self.old.spare ≡ 0) }
        ensures spare { self.old.spare ≤ self.new.spare }
        ensures same { self.new ≡ record self.old { spare = self.new.spare } }
    {
        self.path.reserve(1)?;
        Ok(())
    }

    /// Takes the next step of the refutation, judged by all events of the log. It takes no memory, and costs what its
    /// reasons cost, and the splits that it finishes.
    ///
    /// The steps that were taken before are any that the checker represents, each judged by a log from which this one goes
    /// on. Closed comes exactly where they are a refutation with this step, Open exactly where they are a partial tree with
    /// it, and Bad exactly where the step breaks a condition, with the first that it breaks. Then nothing is changed. After
    /// Closed no trace explains the log, or one that goes on from it, from a set that reaches the checker's nodes.
    pub fn take(&mut self, graph: &Graph, log: &Log, step: &Step) -> Taken
        requires of { IsLogOf graph.now log.now }
        requires spare { 1 ≤ self.old.spare }
        ensures closed { (earlier : Logbook) (steps : List Judged) → GoesOn earlier log.now →
            CheckerRepresents graph.now earlier self.old steps →
            (result ≡ Closed)
            ↔ IsRefutation (case_of graph.now log.now self.old.reach) (with_step steps log.now step.now) }
        ensures partial { (earlier : Logbook) (steps : List Judged) → GoesOn earlier log.now →
            CheckerRepresents graph.now earlier self.old steps →
            (result ≡ Open)
            ↔ IsPartial (case_of graph.now log.now self.old.reach) (with_step steps log.now step.now) }
        ensures bad { (earlier : Logbook) (steps : List Judged) → GoesOn earlier log.now →
            CheckerRepresents graph.now earlier self.old steps → (bad : BadStep) →
            (result ≡ Bad bad)
            ↔ IsFirstBroken (case_of graph.now log.now self.old.reach) steps
            (judged_by log.now step.now) bad }
        ensures represents { (earlier : Logbook) (steps : List Judged) → GoesOn earlier log.now →
            CheckerRepresents graph.now earlier self.old steps →
            CheckerRepresents graph.now log.now self.new (steps_after result steps log.now step.now) }
        ensures no_trace { (earlier later : Logbook) (steps : List Judged) (set : List ℕ) →
            GoesOn earlier log.now → CheckerRepresents graph.now earlier self.old steps → result ≡ Closed →
            IsReach graph.now set self.old.reach →
            GoesOn log.now later → IsLogOf graph.now later → IsOrdered later → Fits graph.now later set → ⊥ }
        ensures unchanged { (bad : BadStep) → result ≡ Bad bad → self.new ≡ self.old }
        ensures reach { self.new.reach ≡ self.old.reach }
        ensures spare { self.old.spare ≤ self.new.spare + 1 }
    {
        graph.is_always_valid();
        // A law: what a closed tree is worth.
        a_refutation_leaves_no_trace();
        self.take_step(graph, log, step)
    }

    /// Takes the step, or returns the first condition that it breaks.
    fn take_step(&mut self, graph: &Graph, log: &Log, step: &Step) -> Taken
        requires of { IsLogOf graph.now log.now }
        requires spare { 1 ≤ self.old.spare }
        ensures result { (earlier : Logbook) (steps : List Judged) → GoesOn earlier log.now →
            CheckerRepresents graph.now earlier self.old steps →
            IsStepResult (case_of graph.now log.now self.old.reach) steps step.now result self.new }
        ensures unchanged { (bad : BadStep) → result ≡ Bad bad → self.new ≡ self.old }
        ensures reach { self.new.reach ≡ self.old.reach }
        ensures spare { self.old.spare ≤ self.new.spare + 1 }
    {
        log.is_always_ordered();
        moves_are_results();
        if self.closed {
            return Taken::Bad(BadStep::AfterClosed);
        }
        match step {
            Step::Split(name) => self.split(graph, log, *name),
            Step::Cycle(reasons) => self.close(graph, log, reasons.as_slice()),
            Step::Again => self.reuse(),
        }
    }

    /// Splits the present leaf, where the name is allowed: the first alternative is the present leaf then.
    fn split(&mut self, graph: &Graph, log: &Log, name: ClauseName) -> Taken
        requires spare { 1 ≤ self.old.spare }
        requires not_closed { self.old.closed ≡ false }
        ensures moves { Moves graph.now log.now self.old (Split name) result self.new }
        ensures reach { self.new.reach ≡ self.old.reach }
        ensures spare { self.old.spare ≤ self.new.spare + 1 }
    {
        match PathSplit::on_clause(graph, log, name) {
            Some(split) => {
                self.enter(split);
                Taken::Open
            }
            None => Taken::Bad(BadStep::NotAClause),
        }
    }

    /// Appends a split to the path, which has room for it.
    fn enter(&mut self, split: PathSplit)
        requires { 1 ≤ self.old.spare }
        ensures path { self.new.path ≡ self.old.path ++ split ∷ [] }
        ensures closed { self.new.closed ≡ self.old.closed }
        ensures reach { self.new.reach ≡ self.old.reach }
        ensures spare { self.old.spare ≤ self.new.spare + 1 }
    {
        let _pushed = self.path.push(split);
    }

    /// Closes the present leaf, where the reasons do, and marks the splits that they cite: the next alternative of the deepest
    /// split that has one left is the present leaf then.
    fn close(&mut self, graph: &Graph, log: &Log, reasons: &[Reason]) -> Taken
        requires of { IsLogOf graph.now log.now }
        requires not_closed { self.old.closed ≡ false }
        ensures moves { Moves graph.now log.now self.old (Cycle reasons.now) result self.new }
        ensures reach { self.new.reach ≡ self.old.reach }
        ensures spare { self.old.spare ≤ self.new.spare }
    {
        if let Err(bad) = check_cycle(graph, log, &self.reach, &self.path, reasons) {
            return Taken::Bad(bad);
        }
        cite(&mut self.path, reasons);
        let goes_on = backtrack(&mut self.path);
        self.finish(goes_on)
    }

    /// Reuses the subtree of the alternative before, where it is reusable: it closes the deepest split of the path.
    fn reuse(&mut self) -> Taken
        requires not_closed { self.old.closed ≡ false }
        ensures moves { (graph : Tfpg) (log : Logbook) → Moves graph log self.old Again result self.new }
        ensures reach { self.new.reach ≡ self.old.reach }
        ensures spare { self.old.spare ≤ self.new.spare }
    {
        if !is_reusable(&self.path) {
            return Taken::Bad(BadStep::NotReusable);
        }
        let goes_on = reuse(&mut self.path);
        self.finish(goes_on)
    }

    /// The result of a step that closed a leaf. The tree is closed where the path does not go on.
    fn finish(&mut self, goes_on: bool) -> Taken
        requires { self.old.closed ≡ false }
        ensures result { result ≡ if goes_on then Open else Closed }
        ensures same { self.new ≡ record self.old { closed = not goes_on } }
    {
        if goes_on {
            return Taken::Open;
        }
        self.closed = true;
        Taken::Closed
    }
}
