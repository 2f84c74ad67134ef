//! The desk, which tells its panels each round.

ghost use Rattle.std.specs.Prelude.{◌≡◌, ◌≤◌, ◌<◌, ◌++◌, ◌∷◌, [], ℕ, map, length, remove, slice_get, Some, option_map, vec_len, vec_capacity, IfOk};
ghost use Rattle.std.specs.List.{range_with_len};
ghost use Rattle.tfpg_evidence.specs.RoundOf.{IsRoundOf};
ghost use Rattle.tfpg_graph.specs.Graph.{sizes_of};
ghost use Rattle.tfpg_panel.specs.Desk.{IsTold, KeepsPanels, lent_of, new_desk, seen_by};
ghost use Rattle.tfpg_panel.specs.Panel.{Hears};
ghost use Rattle.tfpg_panel.specs.inside.Telling.{TellsAt};

use crate::lost_panel::LostPanel;
use crate::panel::{Panel, PanelFault};
use std::alloc::Global;
use std::marker::Model;
use tfpg_base::{MAX_PANEL_NUMBER, NoMemory};
use tfpg_evidence::Round;
use tfpg_graph::Graph;

/// Panels, which are numbered from 1, and those of them that were lost. They are boxed, unless a type is named. Contracts see the panels
/// themselves, and a clause says by `seen_by` what it sees of each.
#[derive(Drop)]
pub struct Desk<P = Box<dyn Panel>> {
    panels: Vec<P>,
    kept: Vec<u64>,
    losses: Vec<LostPanel>,
}

impl<P> Model for Desk<P> {
    ghost use Rattle.std.specs.Prelude.{◌≤◌, ◌+◌, length, vec_capacity};
    ghost use Rattle.tfpg_panel.specs.Desk.{DeskOf, KeepsPanels};

    ghost Value = { DeskOf P };

    ghost view = { λ desk. record {
      panels = desk.panels.items;
      kept = desk.kept.items;
      losses = desk.losses.items;
    } };

    ghost invariant = { λ desk. KeepsPanels (length desk.panels.items) desk.kept.items ×
        (length desk.kept.items + length desk.losses.items ≤ vec_capacity desk.losses) };
}

impl Desk {
    /// A desk of these panels. It keeps them all, has lost none, and has made room for the loss of each.
    pub fn new(alloc: Global, panels: Vec<Box<dyn Panel>>) -> Result<Desk, NoMemory>
        ensures panels { IfOk result (λ desk. desk.panels ≡ panels.items) }
        ensures new { IfOk result (λ desk. seen_by ⟦<Box<dyn Panel> as Panel>⟧.state desk
            ≡ new_desk (map ⟦<Box<dyn Panel> as Panel>⟧.state panels.items)) }
    {
        Desk::of(alloc, panels)
    }
}

impl<P: Panel> Desk<P> {
    /// A desk of these panels of one type, as [`Desk::new`] makes one of boxes.
    pub fn of(alloc: Global, panels: Vec<P>) -> Result<Desk<P>, NoMemory>
        ensures panels { IfOk result (λ desk. desk.panels ≡ panels.items) }
        ensures new { IfOk result (λ desk. seen_by P.state desk ≡ new_desk (map P.state panels.items)) }
    {
        let count = panels.len();
        // A report could not name more, and no memory holds them.
        if count as u64 > MAX_PANEL_NUMBER {
            return Err(NoMemory);
        }
        let kept = numbers_to(alloc, count as u64)?;
        let losses = Vec::with_capacity(alloc, count)?;
        Ok(Desk {
            panels,
            kept,
            losses,
        })
    }

    /// Tells the round of this graph to each kept panel, in the order of their numbers. A panel that is not told it is lost: it stays
    /// on the desk, and is told nothing more. Takes no memory besides what the panels take.
    pub fn tell(&mut self, graph: &Graph, round: &Round)
        requires { IsRoundOf (sizes_of graph.now) round.now }
        ensures told { IsTold round.entry.now (seen_by P.state self.old) (seen_by P.state self.new) }
    {
        self.always_keeps_its_panels();
        let mut place = 0;
        while place < self.kept.len() {
            if self.tell_at(place, graph, round) {
                place += 1;
            }
        }
    }

    /// Tells the round to the kept panel at this place, and returns whether it was told.
    fn tell_at(&mut self, place: usize, graph: &Graph, round: &Round) -> bool
        requires is_round { IsRoundOf (sizes_of graph.now) round.now }
        requires within { place < length self.old.kept }
        ensures { TellsAt round.entry.now place (seen_by P.state self.old) (seen_by P.state self.new) result }
    {
        let number = self.kept[place];
        match tell_panel(&mut self.panels[(number - 1) as usize], graph, round) {
            Ok(()) => true,
            Err(fault) => {
                self.lose(place, round.number, fault);
                false
            }
        }
    }

    /// Puts the kept panel at this place aside, which was not told the round of this number.
    fn lose(&mut self, place: usize, round: u32, fault: PanelFault)
        requires within { place < length self.old.kept }
        ensures same_panels { self.new.panels ≡ self.old.panels }
        ensures kept { self.new.kept ≡ remove self.old.kept place }
        ensures losses { (panel : ℕ) → slice_get self.old.kept place ≡ Some panel →
            self.new.losses ≡ self.old.losses ++ (record { panel = panel; round = round; fault = fault }) ∷ [] }
    {
        let panel = self.kept.remove(place);
        push_in_room(
            &mut self.losses,
            LostPanel {
                panel,
                round,
                fault,
            },
        );
    }

    /// All losses so far, in their order. Takes no memory.
    pub fn losses(&self) -> &[LostPanel]
        ensures { result.now ≡ self.now.losses }
    {
        &self.losses
    }

    /// The numbers of the kept panels, rising. Takes no memory.
    pub fn kept(&self) -> &[u64]
        ensures { result.now ≡ self.now.kept }
    {
        &self.kept
    }

    /// How many panels there are, with the lost ones. Takes no memory.
    pub fn panel_count(&self) -> u64
        ensures { result ≡ length self.now.panels }
    {
        self.panels.len() as u64
    }

    /// What the panel of this number lends of the rounds that it was told. A lost panel lends them as before. Takes no memory.
    pub fn told(&self, panel: u64) -> Option<&[Round]>
        requires { (1 ≤ panel) × (panel ≤ length self.now.panels) }
        ensures { option_map (λ rounds. rounds.now) result ≡ lent_of (seen_by P.state self.now) panel }
    {
        self.panels[(panel - 1) as usize].told()
    }

    /// The numbers of the kept panels rise, and each is that of a panel: a fact for proofs. Does nothing.
    pub fn always_keeps_its_panels(&self)
        ensures { KeepsPanels (length (seen_by P.state self.now).panels) (seen_by P.state self.now).kept }
    {
        let _opened = &self.kept;
    }
}

/// Tells one panel the round.
fn tell_panel<P: Panel>(panel: &mut P, graph: &Graph, round: &Round) -> Result<(), PanelFault>
    requires { IsRoundOf (sizes_of graph.now) round.now }
    ensures { Hears round.entry.now (P.state panel.old) (P.state panel.new) result }
{
    panel.tell(graph, round)
}

/// The numbers from 1 to the count.
fn numbers_to(alloc: Global, count: u64) -> Result<Vec<u64>, NoMemory>
    ensures { IfOk result (λ numbers. numbers.items ≡ range_with_len 1 count) }
{
    let mut numbers = Vec::with_capacity(alloc, count as usize)?;
    for number in 0..count {
        numbers.push(number + 1)?;
    }
    Ok(numbers)
}

/// Pushes a loss where there is room for it. The capacity stays, which `Vec::insert` says and `Vec::push` does not.
fn push_in_room(losses: &mut Vec<LostPanel>, loss: LostPanel)
    requires { vec_len losses.old < vec_capacity losses.old }
    ensures items { losses.new.items ≡ losses.old.items ++ loss ∷ [] }
    ensures capacity { vec_capacity losses.new ≡ vec_capacity losses.old }
{
    let end = losses.len();
    let _ = losses.insert(end, loss);
}
