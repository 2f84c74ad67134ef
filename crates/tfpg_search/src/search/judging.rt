//! What is seen at a loaded leaf: by its latest solution, and by times that are proposed beside it.

ghost use Rattle.std.specs.Prelude.{IfOk, IfSome};
ghost use Rattle.tfpg_log.specs.Log.{IsLogOf};
ghost use Rattle.tfpg_log.specs.Explains.{Explains};
ghost use Rattle.tfpg_search.specs.inside.AtItsLeaf.{IsAtItsLeaf};
ghost use Rattle.tfpg_search.specs.inside.Moves.{IsLoaded, Sees, ExplainsIfShown};

use crate::clause_laws::clause_laws;
use crate::cut::cut;
use crate::raising::Raising;
use crate::search::{Look, Search};
use tfpg_base::{NoMemory, Trace};
use tfpg_clause::laws::numbers_that_meet_all_give_a_trace;
use tfpg_clause::violated;
use tfpg_evidence::ClauseName;
use tfpg_graph::Graph;
use tfpg_log::Log;

/// What proposed times come to.
#[derive(Drop)]
pub(crate) enum Proposed {
    /// Cut at now, they are a trace that explains the log.
    Shown(Trace),
    /// They violate this clause first.
    Violated(ClauseName),
    /// The time of some node does not lie between its bounds.
    Outside,
}

impl Search {
    /// Looks whether the latest solution at a loaded leaf keeps the rules, and where it does not, for a trace by raising, if that is
    /// asked for.
    pub(super) fn judge(&self, graph: &Graph, log: &Log, raises: bool) -> Result<Look, NoMemory>
        requires of { IsLogOf graph.now log.now }
        requires stands { IsAtItsLeaf graph.now log.now self.now }
        requires loaded { IsLoaded graph.now log.now self.now }
        ensures { IfOk result (Sees graph.now log.now self.now) }
    {
        let look = self.judge_latest(graph, log)?;
        if !raises {
            return Ok(look);
        }
        self.look_further(graph, log, look)
    }

    /// What was seen, or a trace by raising in place of a clause that is violated.
    fn look_further(&self, graph: &Graph, log: &Log, look: Look) -> Result<Look, NoMemory>
        requires of { IsLogOf graph.now log.now }
        requires stands { IsAtItsLeaf graph.now log.now self.now }
        requires loaded { IsLoaded graph.now log.now self.now }
        requires seen { Sees graph.now log.now self.now look }
        ensures { IfOk result (Sees graph.now log.now self.now) }
    {
        match look {
            Look::Shown(trace) => Ok(Look::Shown(trace)),
            Look::Violated(name) => match self.raised(graph, log)? {
                Some(trace) => Ok(Look::Shown(trace)),
                None => Ok(Look::Violated(name)),
            },
        }
    }

    /// Looks whether the latest solution at a loaded leaf keeps the rules.
    fn judge_latest(&self, graph: &Graph, log: &Log) -> Result<Look, NoMemory>
        requires of { IsLogOf graph.now log.now }
        requires stands { IsAtItsLeaf graph.now log.now self.now }
        requires loaded { IsLoaded graph.now log.now self.now }
        ensures { IfOk result (Sees graph.now log.now self.now) }
    {
        graph.is_always_valid();
        log.is_always_ordered();
        clause_laws();
        numbers_that_meet_all_give_a_trace();
        self.leaf.has_a_reason_for_each_pick();
        let times = self.leaf.solution();
        match violated(graph, log, times) {
            None => Ok(Look::Shown(cut(self.alloc, log.now(), times)?)),
            Some(name) => Ok(Look::Violated(name)),
        }
    }

    /// A trace that explains the log, where one is found by raising: the lower bounds that the clauses leave, once as many sources of AND
    /// nodes were chosen as it needs, at most one for each node and once more. There is a look for the first clause violated at each. Takes
    /// 40 bytes for each node meanwhile.
    fn raised(&self, graph: &Graph, log: &Log) -> Result<Option<Trace>, NoMemory>
        requires of { IsLogOf graph.now log.now }
        requires stands { IsAtItsLeaf graph.now log.now self.now }
        requires loaded { IsLoaded graph.now log.now self.now }
        ensures { IfOk result (λ found. IfSome found (Explains graph.now log.now self.now.set)) }
    {
        let mut raising = self.raising(graph, log)?;
        if raising.settle().is_err() {
            return Ok(None);
        }
        for _ in 0..=graph.node_count() {
            match self.judge_times(graph, log, raising.times())? {
                Proposed::Shown(trace) => return Ok(Some(trace)),
                Proposed::Violated(name) => {
                    if !raising.choose(name)? {
                        return Ok(None);
                    }
                }
                Proposed::Outside => return Ok(None),
            }
        }
        Ok(None)
    }

    /// The floor and the ceiling of each node, with which raising begins.
    fn raising<'a>(&'a self, graph: &'a Graph, log: &'a Log) -> Result<Raising<'a>, NoMemory> {
        Raising::new(self.alloc, graph, log, &self.leaf)
    }

    /// Judges times at a loaded leaf, wherever they come from: whether the time of each node lies between the bounds that the facts
    /// give it, and whether a clause is violated.
    fn judge_times(&self, graph: &Graph, log: &Log, times: &[u64]) -> Result<Proposed, NoMemory>
        requires of { IsLogOf graph.now log.now }
        requires stands { IsAtItsLeaf graph.now log.now self.now }
        requires loaded { IsLoaded graph.now log.now self.now }
        ensures { IfOk result (ExplainsIfShown graph.now log.now self.now.set) }
    {
        graph.is_always_valid();
        log.is_always_ordered();
        clause_laws();
        numbers_that_meet_all_give_a_trace();
        if !self.leaf.allows(times) {
            return Ok(Proposed::Outside);
        }
        match violated(graph, log, times) {
            None => Ok(Proposed::Shown(cut(self.alloc, log.now(), times)?)),
            Some(name) => Ok(Proposed::Violated(name)),
        }
    }
}
