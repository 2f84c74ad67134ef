//! The diagnosis of a log that lies in memory: an engine that takes its lines, and the last round.
//!
//! [`Diagnosis::take_text`] takes the lines of a whole text. A line that is too long or refused brings no round and changes
//! nothing, as in a report of the same lines.

ghost use Rattle.std.specs.Prelude.{◌≡◌, ◌≤◌, ◌<◌, ◌+◌, ◌↔◌, ◌++◌, ◌∷◌, [], ℕ, List, IfOk, OnOk, Err, length, map};
ghost use Rattle.tfpg_base.specs.declared.limits.TheConstants.{MAX_DOUBT};
ghost use Rattle.tfpg_base.specs.Lines.{lines_of};
ghost use Rattle.tfpg_graph.specs.Graph.{Tfpg};
ghost use Rattle.tfpg_hyp.specs.Hypotheses.{HasHypotheses};
ghost use Rattle.tfpg_hyp.specs.declared.limits.TheConstants.{MAX_HYPOTHESES};
ghost use Rattle.tfpg_diagnose.specs.Diagnosed.{HasDiagnosed};

use std::alloc::Global;
use std::sync::ledger::Ledger;
use tfpg_base::{NoMemory, Steps, Terms, without_last_line_end};
use tfpg_engine::{Engine, Told};
use tfpg_evidence::Round;
use tfpg_graph::Graph;
use tfpg_hyp::TableFault;
use tfpg_hyp::laws::{rounds_say_which_sets_fit, statuses_are_those_of_minimal_sets};
use tfpg_log::is_too_long;

/// An engine, and the last round that it gave, where it gave one.
#[derive(Drop)]
pub struct Diagnosis {
    pub engine: Engine,
    pub last: Option<Round>,
}

impl Diagnosis {
    /// A diagnosis of the graph on these terms that has taken no line. The fault says how many hypotheses there are, where they
    /// are too many.
    pub fn new(alloc: Global, graph: Graph, terms: Terms) -> Result<Diagnosis, TableFault>
        requires doubt { terms.doubt ≤ MAX_DOUBT }
        requires budget { 1 ≤ terms.budget }
        ensures new { IfOk result (HasDiagnosed graph terms []) }
        ensures too_many { (count : ℕ) → (result ≡ Err (TableFault.TooMany count)) ↔
            ((MAX_HYPOTHESES < count) × HasHypotheses graph terms count) }
    {
        graph.is_always_valid();
        match Engine::new(alloc, graph, terms.k, terms.doubt, terms.budget) {
            Ok(engine) => Ok(Diagnosis { engine, last: None }),
            Err(fault) => Err(fault),
        }
    }

    /// Takes the lines of a text, one after the other. No line was taken before.
    pub fn take_text<L: Ledger>(
        &mut self,
        alloc: Global,
        text: &[u8],
        work: &mut Steps<L>,
    ) -> Result<(), NoMemory>
        requires { HasDiagnosed self.old.engine.graph self.old.engine.terms [] self.old }
        ensures { (graph : Tfpg) (terms : Terms) → HasDiagnosed graph terms [] self.old →
            OnOk result (HasDiagnosed graph terms (lines_of text.now) self.new) }
    {
        let lines = lines_in(alloc, text)?;
        self.take_lines(&lines, work)
    }

    /// Takes the lines, one after the other.
    fn take_lines<L: Ledger>(
        &mut self,
        lines: &[&[u8]],
        work: &mut Steps<L>,
    ) -> Result<(), NoMemory>
        ensures { (graph : Tfpg) (terms : Terms) → HasDiagnosed graph terms [] self.old →
            OnOk result (HasDiagnosed graph terms (map (λ line. line.now) lines.now) self.new) }
    {
        for index in 0..lines.len() {
            self.take(index as u64 + 1, lines[index], work)?;
        }
        Ok(())
    }

    /// Takes one more line, which has this number.
    fn take<L: Ledger>(
        &mut self,
        number: u64,
        line: &[u8],
        work: &mut Steps<L>,
    ) -> Result<(), NoMemory>
        ensures { (graph : Tfpg) (terms : Terms) (lines : List (List ℕ)) → HasDiagnosed graph terms lines self.old
            → number ≡ 1 + length lines → OnOk result (HasDiagnosed graph terms (lines ++ line.now ∷ []) self.new) }
    {
        rounds_say_which_sets_fit();
        statuses_are_those_of_minimal_sets();
        if is_too_long(line) {
            return Ok(());
        }
        match self.engine.event(number, line, work)? {
            Told::Refused(_) => Ok(()),
            Told::Round(round) => {
                // The log is of the graph, and in order.
                self.engine.log().is_always_ordered();
                self.last = Some(round);
                Ok(())
            }
        }
    }
}

/// The lines of a text.
fn lines_in(alloc: Global, text: &[u8]) -> Result<Vec<&[u8]>, NoMemory>
    ensures { IfOk result (λ lines. map (λ line. line.now) lines.items ≡ lines_of text.now) }
{
    let mut lines = Vec::new(alloc);
    if text.is_empty() {
        return Ok(lines);
    }
    for line in without_last_line_end(text).split(|byte| *byte == b'\n') {
        lines.push(line)?;
    }
    Ok(lines)
}
