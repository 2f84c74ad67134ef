//! A map, and its reader: a set of failure modes and of monitors that are ignored, and a trace.

ghost use Rattle.std.specs.Prelude.{◌≡◌, ◌≤◌, ◌++◌, ◌∷◌, [], ℕ, List, length, OnOk, IsErrOf};
ghost use Rattle.tfpg_base.specs.declared.limits.TheConstants.{LONGEST_LINE};
ghost use Rattle.tfpg_graph.specs.Graph.{Tfpg};
ghost use Rattle.tfpg_map.specs.Spelling.{BeginsMap};
ghost use Rattle.tfpg_map.specs.inside.Lines.{MapRepresents, TakesActivation, IsNoActivation};

use crate::lines::{read_activation, read_set_line};
use std::alloc::Global;
use tfpg_base::{Doubts, Hypothesis, LineFault, NoMemory, Set, Trace};
use tfpg_graph::Graph;

/// Why a line is not taken.
#[derive(Clone, Copy, PartialEq, Eq)]
pub(crate) enum MapFault {
    /// No map begins with the lines so far and this one.
    BadMap,
    /// Out of memory.
    NoMemory,
}

/// Why the input gives no map.
#[derive(Clone, Copy, PartialEq, Eq)]
pub enum NoMap {
    /// The line of this number is the first faulty one.
    Refused { line: u64 },
    /// The input was not read to its end.
    Lines(LineFault),
    /// Out of memory.
    NoMemory,
}

/// A hypothesis, and a trace.
#[derive(Drop)]
pub struct Map {
    pub hypothesis: Hypothesis,
    pub trace: Trace,
}

impl Map {
    /// The failure modes of the hypothesis.
    pub fn set(&self) -> Set
        ensures { result ≡ self.now.hypothesis.set }
    {
        self.hypothesis.set
    }

    /// The monitors that the hypothesis ignores.
    pub fn doubts(&self) -> Doubts
        ensures { result ≡ self.now.hypothesis.doubts }
    {
        self.hypothesis.doubts
    }
}

/// Reads the lines of a map one by one.
#[derive(Drop)]
pub(crate) struct MapReader {
    pub(crate) alloc: Global,
    /// The hypothesis, once the line of its set was read.
    pub(crate) hypothesis: Option<Hypothesis>,
    /// The activations so far.
    pub(crate) trace: Trace,
}

impl MapReader {
    /// A reader that has read no line.
    pub(crate) fn new(alloc: Global) -> MapReader
        ensures { (graph : Tfpg) → MapRepresents graph result [] }
    {
        MapReader {
            alloc,
            hypothesis: None,
            trace: Trace::new(alloc),
        }
    }

    /// Reads one more line. A reader whose line was not taken is of no further use.
    pub(crate) fn take(&mut self, graph: &Graph, line: &[u8]) -> Result<(), MapFault>
        ensures taken { (lines : List (List ℕ)) → MapRepresents graph.now self.old lines →
            length line.now ≤ LONGEST_LINE
            → OnOk result (MapRepresents graph.now self.new (lines ++ line.now ∷ [])) }
        ensures bad { (lines : List (List ℕ)) → MapRepresents graph.now self.old lines →
            IsErrOf result MapFault.BadMap
            → BeginsMap graph.now (lines ++ line.now ∷ []) → ⊥ }
    {
        graph.is_always_valid();
        match self.hypothesis {
            None => {
                self.hypothesis = Some(read_set_line(self.alloc, graph, line)?);
                Ok(())
            }
            Some(_) => self.take_activation(graph, line),
        }
    }

    /// Reads the line of one more activation.
    fn take_activation(&mut self, graph: &Graph, line: &[u8]) -> Result<(), MapFault>
        ensures hypothesis { self.new.hypothesis ≡ self.old.hypothesis }
        ensures taken { OnOk result (TakesActivation graph.now self.old.trace line.now self.new.trace) }
        ensures bad { IsErrOf result MapFault.BadMap → IsNoActivation graph.now self.old.trace line.now }
    {
        graph.is_always_valid();
        let Some(activation) = read_activation(graph, line) else {
            return Err(MapFault::BadMap);
        };
        if self.trace.at(activation.node).is_some() {
            return Err(MapFault::BadMap);
        }
        Ok(self.trace.set(activation.node, activation.time)?)
    }
}

impl From<LineFault> for NoMap {
    ghost use Rattle.tfpg_map.specs.declared.map.NoMap.TheVariants as none;

    ghost from_gives = { λ fault e. e ≡ none.Lines fault };

    fn from(fault: LineFault) -> NoMap {
        NoMap::Lines(fault)
    }
}

impl From<NoMemory> for NoMap {
    ghost use Rattle.tfpg_map.specs.declared.map.NoMap.TheVariants as none;

    ghost from_gives = { λ _ e. e ≡ none.NoMemory };

    fn from(_e: NoMemory) -> NoMap {
        NoMap::NoMemory
    }
}

impl From<NoMemory> for MapFault {
    ghost use Rattle.tfpg_map.specs.declared.map.MapFault.TheVariants as fault;

    ghost from_gives = { λ _ e. e ≡ fault.NoMemory };

    fn from(_e: NoMemory) -> MapFault {
        MapFault::NoMemory
    }
}
