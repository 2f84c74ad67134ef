//! Traces: which node became active when.

ghost use Rattle.std.specs.Prelude.{◌≡◌, [], length, IfOk, IfErr, IsTrue, OnOk, OnErr};
ghost use Rattle.tfpg_base.specs.Trace.{IsRisingByNode, TimesAfter, time_of, with_time};
ghost use Rattle.tfpg_base.specs.inside.TraceSearch.{IsInsertedAt, StandsAt};

use crate::{Activation, NoMemory};
use std::alloc::Global;
use std::marker::Model;

/// Which node became active at which millisecond. A node that does not stand in it never became active.
/// Contracts see it as the list of its activations, by rising nodes.
#[derive(Clone, Drop)]
pub struct Trace {
    items: Vec<Activation>,
}

impl Model for Trace {
    ghost use Rattle.std.specs.Prelude.{List};
    ghost use Rattle.tfpg_base.specs.declared.activation.Activation.{Activation};
    ghost use Rattle.tfpg_base.specs.Trace.{IsRisingByNode};

    ghost Value = { List Activation };

    ghost view = { λ trace. trace.items.items };

    ghost invariant = { λ trace. IsRisingByNode trace.items.items };
}

impl Trace {
    /// The trace in which no node becomes active. Takes no memory.
    pub fn new(alloc: Global) -> Trace
        ensures { result ≡ [] }
    {
        Trace {
            items: Vec::new(alloc),
        }
    }

    /// Gives the node that time, in place of the time that it may have. Takes amortized constant time for a node above all
    /// others, time logarithmic in the length for one that has a time, and linear for any other.
    pub fn set(&mut self, node: u32, time: u64) -> Result<(), NoMemory>
        ensures list { OnOk result (self.new ≡ with_time node time self.old) }
        ensures times { OnOk result (TimesAfter self.old self.new node time) }
        ensures err { OnErr result (self.new ≡ self.old) }
    {
        let activation = Activation { node, time };
        match place_of(&self.items, node) {
            Ok(index) => self.items[index] = activation,
            Err(index) => self.items.insert(index, activation)?,
        }
        Ok(())
    }

    /// The time of the node, if it became active. Costs the logarithm of the length.
    pub fn at(&self, node: u32) -> Option<u64>
        ensures { result ≡ time_of self.now node }
    {
        match search(&self.items, node) {
            Ok(index) => Some(self.items[index].time),
            Err(_) => None,
        }
    }

    /// A trace with the same activations. Takes time and memory linear in the length.
    pub fn copy(&self) -> Result<Trace, NoMemory>
        ensures { IfOk result (λ copy. copy ≡ self.now) }
    {
        let mut items = Vec::new(*self.items.allocator());
        items.extend_from_slice(&self.items)?;
        Ok(Trace { items })
    }

    /// The activations, by rising nodes.
    pub fn as_slice(&self) -> &[Activation]
        ensures value { result.now ≡ self.now }
        ensures rising { IsRisingByNode self.now }
    {
        &self.items
    }

    /// Does nothing: brings into a proof that the activations stand by rising nodes.
    pub fn is_always_rising(&self)
        ensures { IsRisingByNode self.now }
    {
        let _opened = &self.items;
    }
}

/// Where the node stands, or where it would. Takes constant time for a node above all others.
fn place_of(items: &[Activation], node: u32) -> Result<usize, usize>
    requires { IsRisingByNode items.now }
    ensures found { IfOk result (StandsAt items.now node) }
    ensures absent { IfErr result (IsInsertedAt items.now node) }
{
    if is_above_all(items, node) {
        return Err(items.len());
    }
    search(items, node)
}

/// Whether the node is above all others.
fn is_above_all(items: &[Activation], node: u32) -> bool
    requires { IsRisingByNode items.now }
    ensures { IsTrue result → IsInsertedAt items.now node (length items.now) }
{
    match items.last() {
        Some(last) => last.node < node,
        None => true,
    }
}

/// Where the node stands, or where it would. Costs the logarithm of the length.
fn search(items: &[Activation], node: u32) -> Result<usize, usize>
    requires { IsRisingByNode items.now }
    ensures found { IfOk result (StandsAt items.now node) }
    ensures absent { IfErr result (IsInsertedAt items.now node) }
{
    items.binary_search_by_key(&node, |activation| activation.node)
}
