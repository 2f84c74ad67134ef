//! A system of difference constraints that always knows its latest solution.

ghost use Rattle.std.specs.Prelude.{◌≡◌, ◌+◌, ◌-◌, ◌^◌, ◌<◌, ◌≤◌, [], ◌∷◌, ◌++◌, length, vec_len, vec_capacity, All, IfOk, OnOk, OnErr, IsOk};
ghost use Rattle.tfpg_diff.specs.Solution.{IsLatest};
ghost use Rattle.tfpg_diff.specs.VariableBounds.{VariableBounds};
ghost use Rattle.tfpg_diff.specs.Demands.{Bounded};
ghost use Rattle.tfpg_base.specs.declared.limits.TheConstants.{NEVER};
ghost use Rattle.tfpg_diff.specs.SystemState.{unbounded_from, with_floor, with_ceiling, with_pick, popped_to, Adds, LeavesRoom};

use crate::bounds::{Bounds, unbounded};
use crate::counted_calls::CountedCalls;
use crate::demand::demand_of_pick;
use crate::labels::Labels;
use crate::link::Link;
use crate::passes::{lower_until_met, start, take_back};
use crate::pick::Pick;
use crate::relax::{begin_cycle, is_broken};
use crate::walk::push_tag;
use crate::why::{Conflict, Why};
use std::alloc::Global;
use std::marker::Model;
use std::sync::ledger::{Blank, Ledger};
use tfpg_base::{Constraint, NoMemory, Steps};

/// How many picks a system has at most, so that their number takes 32 bits.
const MAX_PICKS: usize = 0xffff_ffff;

/// How many variables a system has at most, so that their numbers take 32 bits.
const MAX_VARIABLES: u32 = 0x8000_0000;

/// Some variables, their bounds, a stack of picks, and the latest solution of all that. It counts the calls that add to it, whatever
/// counter they are given. For contracts alone it has an identity: the name of an empty token, of which each system has its own.
#[derive(Drop)]
pub struct System {
    bounds: Vec<Bounds>,
    picks: Vec<Pick>,
    labels: Labels,
    cycle: Vec<Why>,
    calls: CountedCalls,
    mark: Blank,
}

impl Model for System {
    ghost use Rattle.std.specs.Prelude.{◌-◌, ◌^◌, min, vec_len, vec_capacity};
    ghost use Rattle.tfpg_diff.specs.SystemState.{SystemState};

    ghost Value = { SystemState };

    ghost use Rattle.tfpg_diff.specs.Demands.{demands_of};
    ghost use Rattle.tfpg_diff.specs.inside.Ready.{IsReady};

    ghost view = { λ s. record {
      demands = record { bounds = s.bounds.items; picks = s.picks.items };
      spare = min (vec_capacity s.picks) (2 ^ 32 - 1) - vec_len s.picks;
      cycle = s.cycle.items;
      calls = s.calls.number;
      identity = s.mark.name;
    } };

    ghost invariant = { λ s. IsReady (demands_of s.bounds.items s.picks.items) s.labels (vec_capacity s.cycle) };
}

impl System {
    /// A system of so many variables, of which nothing is known: each is at least 0 and at most one past the
    /// last millisecond, `10^12 + 1`.
    ///
    /// All the memory of later calls is allocated here, but that of picks: about 76 bytes for each variable, and 800. It is
    /// not there for more than 2^31 variables.
    pub fn new(alloc: Global, count: u32) -> Result<System, NoMemory>
        ensures demands { IfOk result
            (λ system. system.demands ≡ record { bounds = unbounded_from 0 count; picks = [] }) }
        ensures count { IfOk result (λ system. length system.demands.bounds ≡ count) }
        ensures uncounted { IfOk result (λ system. system.calls ≡ 0) }
    {
        if count > MAX_VARIABLES {
            return Err(NoMemory);
        }
        let numbers = count as usize + 1;
        let bounds = unbounded(alloc, count)?;
        let mut labels = Labels::new(alloc, numbers)?;
        let cycle = Vec::with_capacity(alloc, numbers + 2)?;
        start(&bounds, &mut labels);
        Ok(System {
            bounds,
            picks: Vec::new(alloc),
            labels,
            cycle,
            calls: CountedCalls::none(),
            mark: Blank::new(0),
        })
    }

    /// A copy, with the allocator that the system keeps. It demands the same, has counted as many calls and lends no tags. It is another
    /// system. Takes time and memory linear in the variables and the picks.
    pub fn copy(&self) -> Result<System, NoMemory>
        ensures demands { IfOk result (λ copy. copy.demands ≡ self.now.demands) }
        ensures counted { IfOk result (λ copy. copy.calls ≡ self.now.calls) }
        ensures no_tags { IfOk result (λ copy. copy.cycle ≡ []) }
    {
        let bounds = self.bounds.clone()?;
        let picks = self.picks.clone()?;
        let labels = self.labels.copy(picks.len() as u64)?;
        let cycle = Vec::with_capacity(*self.cycle.allocator(), bounds.len() + 3)?;
        Ok(System {
            bounds,
            picks,
            labels,
            cycle,
            calls: self.calls.again(),
            mark: Blank::new(0),
        })
    }

    /// Makes room for so many more picks. Nothing else changes. The system is unchanged, room and all, where memory ran out, or where
    /// there would be 2^32 picks or more.
    pub fn reserve(&mut self, picks: u32) -> Result<(), NoMemory>
        ensures ok { OnOk result (picks ≤ self.new.spare) }
        ensures err { OnErr result (self.new ≡ self.old) }
        ensures same { self.new ≡ record self.old { spare = self.new.spare } }
        ensures spare { self.old.spare ≤ self.new.spare }
        ensures succeeds { picks ≤ self.old.spare → IsOk result }
    {
        if MAX_PICKS - self.picks.len() < picks as usize {
            return Err(NoMemory);
        }
        self.picks.reserve(picks as usize)?;
        Ok(())
    }

    /// How many calls of [`System::raise`], [`System::lower`] and [`System::push`] it has counted, for contracts alone. Does nothing.
    pub fn calls(&self) -> CountedCalls
        ensures { result.number ≡ self.now.calls }
    {
        self.calls.again()
    }

    /// How many variables it has.
    pub fn variable_count(&self) -> u32
        ensures count { result ≡ length self.now.demands.bounds }
        ensures few { result ≤ 2 ^ 31 }
    {
        self.bounds.len() as u32
    }

    /// How many picks stand on the stack.
    pub fn pick_count(&self) -> u64
        ensures count { result ≡ length self.now.demands.picks }
        ensures few { result < 2 ^ 32 }
    {
        self.picks.len() as u64
    }

    /// The present bounds of a variable, each with its tag.
    pub fn bounds(&self, variable: u32) -> Bounds
        requires { variable < length self.now.demands.bounds }
        ensures { Bounded self.now.demands variable result }
    {
        self.bounds[variable as usize]
    }

    /// Lends the latest solution: the time of each variable, in milliseconds, at most `10^12 + 1`.
    pub fn solution(&self) -> &[u64]
        ensures latest { IsLatest self.now.demands result.now }
        ensures within { All (λ time. time ≤ NEVER) result.now }
    {
        &self.labels.values[1..]
    }

    /// Lends the tags of the negative cycle that the last call found, where it returned Conflict.
    pub fn cycle(&self) -> &[Why]
        ensures { result.now ≡ self.now.cycle }
    {
        self.cycle.as_slice()
    }

    /// The variable is at least `least`. A bound that is not tighter than the present one changes nothing. The call
    /// counts as one step.
    ///
    /// Conflict comes exactly where there would be no solution. What the system demands is then unchanged, and [`System::cycle`]
    /// lends the tags of a negative cycle. It costs one comparison, and at a conflict a walk along the links.
    pub fn raise<L: Ledger>(
        &mut self,
        variable: u32,
        least: u64,
        tag: u64,
        work: &mut Steps<L>,
    ) -> Result<(), Conflict>
        requires { variable < length self.old.demands.bounds }
        ensures adds { Adds self.old (with_floor self.old.demands variable least tag) result self.new }
        ensures variables { length self.new.demands.bounds ≡ length self.old.demands.bounds }
        ensures spare { self.new.spare ≡ self.old.spare }
        ensures step { work.new ≡ work.old + 1 }
        ensures counted { self.new.calls ≡ self.old.calls + 1 }
        ensures identity { self.new.identity ≡ self.old.identity }
    {
        work.tick();
        self.add_floor(variable, least, tag)
    }

    /// The variable is at most `most`. A bound that is not tighter than the present one changes nothing. The call
    /// counts as one step.
    ///
    /// Conflict comes exactly where there would be no solution. What the system demands is then unchanged, and [`System::cycle`]
    /// lends the tags of a negative cycle. Where the value of the variable is above that it costs at most one pass
    /// over the picks for each number, and at a conflict at most as much again.
    pub fn lower<L: Ledger>(
        &mut self,
        variable: u32,
        most: u64,
        tag: u64,
        work: &mut Steps<L>,
    ) -> Result<(), Conflict>
        requires { variable < length self.old.demands.bounds }
        ensures adds { Adds self.old (with_ceiling self.old.demands variable most tag) result self.new }
        ensures variables { length self.new.demands.bounds ≡ length self.old.demands.bounds }
        ensures spare { self.new.spare ≡ self.old.spare }
        ensures step { work.new ≡ work.old + 1 }
        ensures counted { self.new.calls ≡ self.old.calls + 1 }
        ensures identity { self.new.identity ≡ self.old.identity }
    {
        work.tick();
        self.add_ceiling(variable, most, tag)
    }

    /// Pushes a constraint on the stack. Its bound may be any number. The call counts as one step.
    ///
    /// Conflict comes exactly where there would be no solution. What the system demands is then unchanged, and [`System::cycle`]
    /// lends the tags of a negative cycle. Where the values break the constraint it costs at most one pass over the
    /// picks for each number, and at a conflict at most as much again.
    pub fn push<L: Ledger>(
        &mut self,
        constraint: Constraint,
        tag: u64,
        work: &mut Steps<L>,
    ) -> Result<(), Conflict>
        requires spare { 1 ≤ self.old.spare }
        requires left { constraint.left ≤ length self.old.demands.bounds }
        requires right { constraint.right ≤ length self.old.demands.bounds }
        ensures adds { Adds self.old (with_pick self.old.demands constraint tag) result self.new }
        ensures spare { LeavesRoom self.old.spare result self.new.spare }
        ensures step { work.new ≡ work.old + 1 }
        ensures counted { self.new.calls ≡ self.old.calls + 1 }
        ensures identity { self.new.identity ≡ self.old.identity }
    {
        work.tick();
        self.add_pick(Pick { constraint, tag })
    }

    /// Pops the picks after the first so many off the stack. The bounds stay. It takes back what these picks lowered. Where the
    /// trail of that does not reach so far, as after an upper bound was lowered, it computes the solution afresh.
    pub fn pop_to(&mut self, len: u64)
        requires { len ≤ length self.old.demands.picks }
        ensures demands { self.new.demands ≡ popped_to self.old.demands len }
        ensures spare { self.new.spare ≡ self.old.spare + (length self.old.demands.picks - len) }
        ensures counted { self.new.calls ≡ self.old.calls }
        ensures identity { self.new.identity ≡ self.old.identity }
    {
        let len = len as usize;
        if len == self.picks.len() {
            return;
        }
        self.picks.truncate(len);
        take_back(&self.bounds, &self.picks, &mut self.labels, &mut self.cycle);
    }

    /// Raises a lower bound, and counts the call.
    fn add_floor(&mut self, variable: u32, least: u64, tag: u64) -> Result<(), Conflict>
        requires { variable < length self.old.demands.bounds }
        ensures adds { Adds self.old (with_floor self.old.demands variable least tag) result self.new }
        ensures variables { length self.new.demands.bounds ≡ length self.old.demands.bounds }
        ensures spare { self.new.spare ≡ self.old.spare }
        ensures counted { self.new.calls ≡ self.old.calls + 1 }
        ensures identity { self.new.identity ≡ self.old.identity }
    {
        self.calls = self.calls.and_one();
        let index = variable as usize;
        let old = self.bounds[index];
        if least <= old.floor() {
            return Ok(());
        }
        if self.labels.values[index + 1] < least {
            begin_cycle(
                &self.bounds,
                &self.picks,
                &self.labels,
                variable + 1,
                0,
                Why::Given(tag),
                &mut self.cycle,
            );
            return Err(Conflict);
        }
        self.bounds[index] = old.with_floor(least, tag);
        Ok(())
    }

    /// Lowers an upper bound, and counts the call.
    fn add_ceiling(&mut self, variable: u32, ceiling: u64, tag: u64) -> Result<(), Conflict>
        requires { variable < length self.old.demands.bounds }
        ensures adds { Adds self.old (with_ceiling self.old.demands variable ceiling tag) result self.new }
        ensures variables { length self.new.demands.bounds ≡ length self.old.demands.bounds }
        ensures spare { self.new.spare ≡ self.old.spare }
        ensures counted { self.new.calls ≡ self.old.calls + 1 }
        ensures identity { self.new.identity ≡ self.old.identity }
    {
        self.calls = self.calls.and_one();
        let old = self.bounds[variable as usize];
        if old.ceiling() <= ceiling {
            return Ok(());
        }
        if ceiling < old.floor() {
            self.cycle.clear();
            push_tag(&mut self.cycle, Why::Given(tag));
            push_tag(&mut self.cycle, old.floor_why());
            return Err(Conflict);
        }
        self.tighten_ceiling(variable, ceiling, tag)
    }

    /// Lowers an upper bound to one that is tighter, and not below the lower bound.
    fn tighten_ceiling(&mut self, variable: u32, ceiling: u64, tag: u64) -> Result<(), Conflict>
        requires variable { variable < length self.old.demands.bounds }
        requires tighter { (bounds : VariableBounds) → Bounded self.old.demands variable bounds →
            (ceiling < bounds.ceiling) × (bounds.floor ≤ ceiling) }
        ensures adds { Adds self.old (with_ceiling self.old.demands variable ceiling tag) result self.new }
        ensures variables { length self.new.demands.bounds ≡ length self.old.demands.bounds }
        ensures spare { self.new.spare ≡ self.old.spare }
        ensures uncounted { self.new.calls ≡ self.old.calls }
        ensures identity { self.new.identity ≡ self.old.identity }
    {
        let index = variable as usize;
        let old = self.bounds[index];
        self.bounds[index] = old.with_ceiling(ceiling, tag);
        // What the trail saved may lie above the new ceiling, also what the call itself saves.
        let before = self.picks.len() as u32;
        self.labels.trail.restart(u64::from(before));
        if self.labels.values[index + 1] <= ceiling {
            return Ok(());
        }
        self.labels
            .lower(variable + 1, ceiling, Link::Ceiling, before);
        match lower_until_met(
            &self.bounds,
            &self.picks,
            &mut self.labels,
            before,
            &mut self.cycle,
        ) {
            Ok(()) => {
                self.labels.trail.restart(u64::from(before));
                Ok(())
            }
            Err(Conflict) => {
                self.bounds[index] = old;
                take_back(&self.bounds, &self.picks, &mut self.labels, &mut self.cycle);
                Err(Conflict)
            }
        }
    }

    /// Pushes a pick, for which there is room, and counts the call.
    fn add_pick(&mut self, pick: Pick) -> Result<(), Conflict>
        requires spare { 1 ≤ self.old.spare }
        requires left { pick.constraint.left ≤ length self.old.demands.bounds }
        requires right { pick.constraint.right ≤ length self.old.demands.bounds }
        ensures adds { Adds self.old (with_pick self.old.demands pick.constraint pick.tag) result self.new }
        ensures spare { LeavesRoom self.old.spare result self.new.spare }
        ensures counted { self.new.calls ≡ self.old.calls + 1 }
        ensures identity { self.new.identity ≡ self.old.identity }
    {
        self.calls = self.calls.and_one();
        let before = self.picks.len() as u32;
        push_in_room(&mut self.picks, pick);
        if !is_broken(&self.labels.values, demand_of_pick(&pick)) {
            return Ok(());
        }
        match lower_until_met(
            &self.bounds,
            &self.picks,
            &mut self.labels,
            before,
            &mut self.cycle,
        ) {
            Ok(()) => Ok(()),
            Err(Conflict) => {
                let _ = self.picks.pop();
                take_back(&self.bounds, &self.picks, &mut self.labels, &mut self.cycle);
                Err(Conflict)
            }
        }
    }
}

/// Pushes a pick where there is room for it. The capacity stays, which `Vec::insert` says and `Vec::push` does not.
fn push_in_room(picks: &mut Vec<Pick>, pick: Pick)
    requires { vec_len picks.old < vec_capacity picks.old }
    ensures items { picks.new.items ≡ picks.old.items ++ pick ∷ [] }
    ensures capacity { vec_capacity picks.new ≡ vec_capacity picks.old }
    ensures len { vec_len picks.new ≡ vec_len picks.old + 1 }
{
    let end = picks.len();
    let _ = picks.insert(end, pick);
}
