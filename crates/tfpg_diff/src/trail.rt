//! What calls lowered, so that it can be taken back.

ghost use Rattle.std.specs.Prelude.{◌≡◌, ◌⊎◌, ◌+◌, ◌<◌, ◌≤◌, [], ◌∷◌, ◌++◌, reverse, IfOk, MatchOption};
ghost use Rattle.tfpg_diff.specs.inside.Undone.{IsOlder};

use crate::link::Link;
use std::alloc::{AllocError, Global};

/// The value and the link of a number before its value was lowered.
#[derive(Clone, Copy, PartialEq, Eq)]
pub(crate) struct Saved {
    pub(crate) value: u64,
    pub(crate) link: Link,
    pub(crate) number: u32,
    /// How many picks there were before the call that lowered it.
    pub(crate) before: u32,
}

/// What was lowered since there were `reach` picks, the last at the end.
#[derive(Drop)]
pub(crate) struct Trail {
    pub(crate) saved: Vec<Saved>,
    pub(crate) reach: u64,
}

impl Trail {
    /// A trail with room for so much. All its memory is allocated here.
    pub(crate) fn new(alloc: Global, room: usize) -> Result<Trail, AllocError>
        ensures { IfOk result (λ trail. trail.saved.items ≡ []) }
    {
        Ok(Trail {
            saved: Vec::with_capacity(alloc, room)?,
            reach: 0,
        })
    }

    /// Forgets all that was lowered. From now on it reaches back to so many picks.
    pub(crate) fn restart(&mut self, reach: u64)
        ensures saved { self.new.saved.items ≡ [] }
        ensures reach { self.new.reach ≡ reach }
    {
        self.saved.clear();
        self.reach = reach;
    }

    /// Saves what a number had, where the trail reaches back that far. Where there is no room it forgets all, and
    /// reaches back that far no more.
    pub(crate) fn save(&mut self, saved: Saved)
        ensures reach { self.old.reach ≤ self.new.reach }
        ensures saved { self.new.reach ≤ saved.before → self.new.saved.items ≡ self.old.saved.items ++ saved ∷ [] }
        ensures others { saved.before < self.new.reach →
            (self.new.saved.items ≡ self.old.saved.items) ⊎ (self.new.saved.items ≡ []) }
    {
        if u64::from(saved.before) < self.reach {
            return;
        }
        if self.saved.len() == self.saved.capacity() {
            self.restart(u64::from(saved.before) + 1);
            return;
        }
        let _ = self.saved.push(saved);
    }

    /// Takes off what was saved last, unless that was before there were so many picks.
    pub(crate) fn pop_since(&mut self, count: u32) -> Option<Saved>
        ensures reach { self.new.reach ≡ self.old.reach }
        ensures popped { MatchOption result
            ((self.new.saved.items ≡ self.old.saved.items) × IsOlder count (reverse self.old.saved.items))
            (λ saved. (self.old.saved.items ≡ self.new.saved.items ++ saved ∷ []) × (count ≤ saved.before)) }
    {
        let last = *self.saved.last()?;
        if last.before < count {
            return None;
        }
        self.saved.pop()
    }
}
