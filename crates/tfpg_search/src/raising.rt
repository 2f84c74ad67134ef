//! Times by raising: a trace that is proposed beside the search, by bounds alone. No constraint is added, and no counted call is made.
//!
//! Each node has a lower and an upper bound: at first the floor and the ceiling that the facts give it, and then what each clause leaves,
//! until nothing changes. The lower bounds are proposed as times. `docs/bounds.md` says why only AND nodes leave a choice then.
//!
//! Nothing is promised of the times. [`Search`](crate::Search) judges them, and shows only what passes.

mod arrivals;
mod choices;
mod dues;
mod windows;

use crate::leaf_system::LeafSystem;
use std::alloc::Global;
use tfpg_base::{NEVER, NoMemory};
use tfpg_graph::Graph;
use tfpg_log::Log;

/// How many looks a try may take for each node.
const LOOKS: u32 = 64;

/// After how many splits of a round a trace is first tried. Small trees are grown whole: a later log may need them.
const FIRST_TRIED: u64 = 30;

/// Whether a trace is tried where a round made so many splits and needs one more: after 30, and where a greater budget is spent.
pub(crate) fn is_tried(splits: u64, budget: u64) -> bool {
    splits == FIRST_TRIED || (splits > FIRST_TRIED && splits == budget)
}

/// The try ends: the lower bound of some node would pass the upper one, or there were too many looks.
#[derive(Drop)]
pub(crate) struct TryEnds;

/// Bounds of each node, in milliseconds, which are only tightened. Takes 24 bytes for each node, and 16 more while a choice is tried.
#[derive(Drop)]
pub(crate) struct Raising<'a> {
    graph: &'a Graph,
    log: &'a Log,
    lows: Vec<u64>,
    highs: Vec<u64>,
    /// How many looks were taken.
    looks: u32,
    /// How many may be.
    most_looks: u32,
    /// For each node the number of the last look at it, and 0 before the first.
    looked: Vec<u32>,
    /// For each node the number of the look that last changed a bound of it.
    changed: Vec<u32>,
}

impl<'a> Raising<'a> {
    /// The floor and the ceiling of each node in this system.
    pub(crate) fn new(
        alloc: Global,
        graph: &'a Graph,
        log: &'a Log,
        leaf: &LeafSystem,
    ) -> Result<Raising<'a>, NoMemory> {
        let nodes = graph.node_count();
        let mut lows = Vec::with_capacity(alloc, nodes as usize)?;
        let mut highs = Vec::with_capacity(alloc, nodes as usize)?;
        for node in 0..nodes {
            if let Some(bounds) = leaf.find_bounds(node) {
                lows.push(bounds.floor())?;
                highs.push(bounds.ceiling())?;
            }
        }
        Ok(Raising {
            graph,
            log,
            lows,
            highs,
            looks: 0,
            most_looks: nodes.saturating_mul(LOOKS),
            looked: vec![in alloc; 0; nodes as usize]?,
            changed: vec![in alloc; 0; nodes as usize]?,
        })
    }

    /// The lower bounds, in the order of the nodes.
    pub(crate) fn times(&self) -> &[u64] {
        self.lows.as_slice()
    }

    /// Tightens the bounds until no clause gives a better one, but for what an AND node leaves to choose. Goes through the nodes upwards and
    /// downwards in turn, with a look at each for which something changed since the last one.
    pub(crate) fn settle(&mut self) -> Result<(), TryEnds> {
        for _ in 0..=self.graph.node_count() {
            if !(self.pass_up()? && self.pass_down()?) {
                return Ok(());
            }
        }
        Err(TryEnds)
    }

    /// Looks at the nodes upwards. Returns whether there was one to look at.
    fn pass_up(&mut self) -> Result<bool, TryEnds> {
        let mut has_looked = false;
        for node in 0..self.graph.node_count() {
            has_looked = self.look_at(node)? || has_looked;
        }
        Ok(has_looked)
    }

    /// Looks at the nodes downwards. Returns whether there was one to look at.
    fn pass_down(&mut self) -> Result<bool, TryEnds> {
        let mut has_looked = false;
        for node in (0..self.graph.node_count()).rev() {
            has_looked = self.look_at(node)? || has_looked;
        }
        Ok(has_looked)
    }

    /// Tightens the bounds of a discrepancy and of its sources by the clauses of the node, where one of these bounds changed since the last
    /// look. Returns whether it did.
    fn look_at(&mut self, node: u32) -> Result<bool, TryEnds> {
        if !self.is_due(node) {
            return Ok(false);
        }
        self.count_look(node)?;
        self.draw_from_arrivals(node)?;
        self.draw_from_dues(node)?;
        Ok(true)
    }

    /// Whether a bound of a discrepancy or of one of its sources changed since the last look at it. The node may be any number.
    fn is_due(&self, node: u32) -> bool {
        let last = number_at(&self.looked, node);
        let edges = windows::edges_into(self.graph, node);
        if !edges.is_empty() && number_at(&self.changed, node) >= last {
            return true;
        }
        for edge in edges {
            if let Some(propagation) = windows::edge_at(self.graph, *edge)
                && number_at(&self.changed, propagation.source) >= last
            {
                return true;
            }
        }
        false
    }

    /// Counts a look at a node.
    fn count_look(&mut self, node: u32) -> Result<(), TryEnds> {
        if self.looks >= self.most_looks {
            return Err(TryEnds);
        }
        self.looks += 1;
        set(&mut self.looked, node, self.looks);
        Ok(())
    }

    /// The lower bound of a node. The node may be any number.
    fn low(&self, node: u32) -> u64 {
        self.lows.get(node as usize).copied().unwrap_or(NEVER)
    }

    /// The upper bound of a node. The node may be any number.
    fn high(&self, node: u32) -> u64 {
        self.highs.get(node as usize).copied().unwrap_or(0)
    }

    /// Raises the lower bound of a node to this time, where that is later.
    fn raise(&mut self, node: u32, time: u64) -> Result<(), TryEnds> {
        if time <= self.low(node) {
            return Ok(());
        }
        if time > self.high(node) {
            return Err(TryEnds);
        }
        set(&mut self.lows, node, time);
        set(&mut self.changed, node, self.looks);
        Ok(())
    }

    /// Lowers the upper bound of a node to this time, where that is earlier.
    fn lower(&mut self, node: u32, time: u64) -> Result<(), TryEnds> {
        if time >= self.high(node) {
            return Ok(());
        }
        if time < self.low(node) {
            return Err(TryEnds);
        }
        set(&mut self.highs, node, time);
        set(&mut self.changed, node, self.looks);
        Ok(())
    }

    /// The instant after now. A bound from there on says nothing above, and below that the node does not become active by now.
    fn after_now(&self) -> u64 {
        self.log.now().saturating_add(1)
    }
}

/// The number of a look that stands here for a node, which may be any number.
fn number_at(numbers: &[u32], node: u32) -> u32 {
    numbers.get(node as usize).copied().unwrap_or(0)
}

/// Changes what stands for a node, where there is such a node.
fn set<T: Copy + Drop>(items: &mut [T], node: u32, item: T) {
    if (node as usize) < items.len() {
        items[node as usize] = item;
    }
}
