//! The table of hypotheses.

ghost use Rattle.std.specs.Prelude.{◌≡◌, ◌<◌, ◌≤◌, ◌↔◌, ◌+◌, ℕ, length, slice_get, option_map, Some, IfOk};
ghost use Rattle.tfpg_base.specs.declared.terms.Terms.{Terms};
ghost use Rattle.tfpg_base.specs.declared.limits.TheConstants.{MAX_DOUBT};
ghost use Rattle.tfpg_base.specs.Hypothesis.{Hypothesis};
ghost use Rattle.tfpg_graph.specs.Graph.{failures};
ghost use Rattle.tfpg_hyp.specs.Table.{monitors};
ghost use Rattle.tfpg_hyp.specs.Hypotheses.{HasHypotheses, IsTableOf};
ghost use Rattle.tfpg_hyp.specs.declared.limits.TheConstants.{MAX_HYPOTHESES};
ghost use Rattle.tfpg_hyp.specs.inside.Choices.{counted_below};

use crate::counting::count_hypotheses;
use crate::limits::MAX_HYPOTHESES;
use crate::listing::list_hypotheses;
use crate::monitors::{monitor_count, monitors_of};
use crate::reaches::reaches_of;
use std::alloc::Global;
use std::marker::Model;
use tfpg_base::{Doubts, Hypothesis, NoMemory, Set};
use tfpg_graph::{Graph, NodeSet};

/// Why there is no table.
#[derive(Clone, Copy, Debug, PartialEq, Eq)]
pub enum TableFault {
    /// There are more than [`MAX_HYPOTHESES`](crate::MAX_HYPOTHESES) hypotheses, and exactly this many.
    TooMany { count: u128 },
    NoMemory,
}

impl From<NoMemory> for TableFault {
    ghost use Rattle.std.specs.Prelude.{◌≡◌};
    ghost use Rattle.tfpg_hyp.specs.declared.table.TableFault.TheVariants.{NoMemory};

    ghost from_gives = { λ _ fault. fault ≡ NoMemory };

    fn from(_e: NoMemory) -> TableFault {
        TableFault::NoMemory
    }
}

/// All hypotheses of a graph, with what each reaches. A hypothesis is a set of failure modes and a set of monitors that it
/// doubts: at most `k` members, and at most `doubt` of them monitors. They have numbers from 0: those with fewer members come
/// first, and those of one size stand by the rising lists of their members, failure modes before monitors.
///
/// Contracts see the list of the hypotheses and that of their reaches. No look-up allocates; each takes constant time.
#[derive(Drop)]
pub struct Table {
    hypotheses: Vec<Hypothesis>,
    reaches: Vec<NodeSet>,
}

impl Model for Table {
    ghost use Rattle.std.specs.Prelude.{◌≡◌, ◌≤◌, length};
    ghost use Rattle.tfpg_hyp.specs.Hypotheses.{Hypotheses};
    ghost use Rattle.tfpg_hyp.specs.declared.limits.TheConstants.{MAX_HYPOTHESES};

    ghost Value = { Hypotheses };

    ghost view = { λ table. record {
      hypotheses = table.hypotheses.items;
      reaches = table.reaches.items;
    } };

    ghost invariant = { λ table.
        (length table.reaches.items ≡ length table.hypotheses.items) × (length table.hypotheses.items ≤ MAX_HYPOTHESES) };
}

impl Table {
    /// How many hypotheses a table of the graph has: those of at most `k` failure modes and monitors, at most `doubt` of them
    /// monitors. Takes no memory, and a few thousand additions.
    pub fn count(graph: &Graph, k: u32, doubt: u32) -> u128
        requires { doubt ≤ MAX_DOUBT }
        ensures { (terms : Terms) → terms.k ≡ k → terms.doubt ≡ doubt → HasHypotheses graph.now terms result }
    {
        graph.is_always_valid();
        count_hypotheses(graph.failure_count(), monitor_count(graph), k, doubt)
    }

    /// The table of all hypotheses of at most `k` failure modes and monitors of the graph, at most `doubt` of them monitors.
    /// Where there are more than [`MAX_HYPOTHESES`](crate::MAX_HYPOTHESES) of them, the fault says how many, and none is
    /// listed.
    pub fn new(alloc: Global, graph: &Graph, k: u32, doubt: u32) -> Result<Table, TableFault>
        requires { doubt ≤ MAX_DOUBT }
        ensures table { IfOk result (λ table. (terms : Terms) → terms.k ≡ k → terms.doubt ≡ doubt →
            IsTableOf graph.now terms table) }
        ensures too_many { (terms : Terms) → terms.k ≡ k → terms.doubt ≡ doubt →
            (count : ℕ) → (result ≡ Err (TableFault.TooMany count)) ↔
            ((MAX_HYPOTHESES < count) × HasHypotheses graph.now terms count) }
    {
        graph.is_always_valid();
        let count = count_hypotheses(graph.failure_count(), monitor_count(graph), k, doubt);
        if count > u128::from(MAX_HYPOTHESES) {
            return Err(TableFault::TooMany { count });
        }
        let table = Table::list(alloc, graph, k, doubt)?;
        Ok(table)
    }

    /// How many hypotheses it has: at most [`MAX_HYPOTHESES`](crate::MAX_HYPOTHESES).
    pub fn len(&self) -> u32
        ensures count { result ≡ length self.now.hypotheses }
        ensures reaches { result ≡ length self.now.reaches }
        ensures few { result ≤ MAX_HYPOTHESES }
    {
        self.hypotheses.len() as u32
    }

    /// The hypothesis of this number.
    pub fn hypothesis(&self, number: u32) -> Hypothesis
        requires { number < length self.now.hypotheses }
        ensures { slice_get self.now.hypotheses number ≡ Some result }
    {
        self.hypotheses[number as usize]
    }

    /// The failure modes of the hypothesis of this number.
    pub fn set(&self, number: u32) -> Set
        requires { number < length self.now.hypotheses }
        ensures { option_map (λ (hypothesis : Hypothesis). hypothesis.set) (slice_get self.now.hypotheses number) ≡ Some result }
    {
        self.hypotheses[number as usize].set
    }

    /// The monitors that the hypothesis of this number doubts.
    pub fn doubts(&self, number: u32) -> Doubts
        requires { number < length self.now.hypotheses }
        ensures { option_map (λ (hypothesis : Hypothesis). hypothesis.doubts) (slice_get self.now.hypotheses number) ≡ Some result }
    {
        self.hypotheses[number as usize].doubts
    }

    /// What the hypothesis of this number reaches: what its failure modes do.
    pub fn reach(&self, number: u32) -> &NodeSet
        requires { number < length self.now.hypotheses }
        ensures { slice_get self.now.reaches number ≡ Some result.now }
    {
        &self.reaches[number as usize]
    }

    /// The table, where it is known to be small enough.
    fn list(alloc: Global, graph: &Graph, k: u32, doubt: u32) -> Result<Table, NoMemory>
        requires few_doubts { doubt ≤ MAX_DOUBT }
        requires few { counted_below (length (monitors graph.now)) doubt (length (failures graph.now)) (k + 1) ≤ MAX_HYPOTHESES }
        ensures { IfOk result (λ table. (terms : Terms) → terms.k ≡ k → terms.doubt ≡ doubt →
            IsTableOf graph.now terms table) }
    {
        graph.is_always_valid();
        let monitors = monitors_of(alloc, graph)?;
        let hypotheses = list_hypotheses(alloc, graph.failure_count(), &monitors, k, doubt)?;
        let reaches = reaches_of(alloc, graph, &hypotheses)?;
        Ok(Table {
            hypotheses,
            reaches,
        })
    }
}
