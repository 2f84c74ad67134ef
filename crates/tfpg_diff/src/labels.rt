//! The values of all numbers, with what they come from.

ghost use Rattle.std.specs.Prelude.{◌≡◌, ℕ, ◌+◌, ◌<◌, ◌≤◌, [], length, All, IfOk, vec_len, slice_index, slice_set};
ghost use Rattle.tfpg_diff.specs.declared.trail.Saved.{Saved as SavedOf};
ghost use Rattle.tfpg_diff.specs.inside.Undone.{undone_to, IsTrail, Remembers};

use crate::link::Link;
use crate::trail::{Saved, Trail};
use std::alloc::{AllocError, Global};

/// For each number its value in milliseconds, and its link. A link stands for a demand with that number on its left, and the
/// value is no less than that demand allows. The right side of the demand is the number's parent, and zero is the root. Zero
/// has the value 0, and its link is not read. The trail says what was lowered.
#[derive(Drop)]
pub(crate) struct Labels {
    pub(crate) values: Vec<u64>,
    pub(crate) links: Vec<Link>,
    pub(crate) trail: Trail,
}

/// For how many more changes the trail has room, so that it is of use in a small system.
const SPARE_CHANGES: usize = 32;

impl Labels {
    /// The value 0 for each of so many numbers, and the upper bound as its link. The trail has room for one change of each
    /// second number, and some more.
    pub(crate) fn new(alloc: Global, numbers: usize) -> Result<Labels, AllocError>
        ensures values { IfOk result (λ labels. vec_len labels.values ≡ numbers) }
        ensures links { IfOk result (λ labels. vec_len labels.links ≡ numbers) }
        ensures zero { IfOk result (λ labels. slice_index labels.values.items 0 ≡ 0) }
        ensures trail { IfOk result (λ labels. labels.trail.saved.items ≡ []) }
    {
        Ok(Labels {
            values: vec![in alloc; 0; numbers]?,
            links: vec![in alloc; Link::Ceiling; numbers]?,
            trail: Trail::new(alloc, numbers / 2 + SPARE_CHANGES)?,
        })
    }

    /// A copy for a system of so many picks. Its trail is empty, and reaches back to these picks.
    pub(crate) fn copy(&self, picks: u64) -> Result<Labels, AllocError>
        ensures values { IfOk result (λ labels. labels.values.items ≡ self.now.values.items) }
        ensures links { IfOk result (λ labels. labels.links.items ≡ self.now.links.items) }
        ensures trail { IfOk result (λ labels. labels.trail.saved.items ≡ []) }
        ensures reach { IfOk result (λ labels. labels.trail.reach ≡ picks) }
    {
        let values = self.values.clone()?;
        let links = self.links.clone()?;
        let mut trail = Trail::new(*values.allocator(), values.len() / 2 + SPARE_CHANGES)?;
        trail.restart(picks);
        Ok(Labels {
            values,
            links,
            trail,
        })
    }

    /// Lowers the value of a number, which comes from this link from now on. The trail saves what it had, as there were so many
    /// picks before the call.
    pub(crate) fn lower(&mut self, number: u32, value: u64, link: Link, before: u32)
        requires values { number < length self.old.values.items }
        requires links { number < length self.old.links.items }
        ensures values { self.new.values.items ≡ slice_set self.old.values.items number value }
        ensures links { self.new.links.items ≡ slice_set self.old.links.items number link }
        ensures remembers { Remembers before self.old self.new }
    {
        let index = number as usize;
        let saved = Saved {
            value: self.values[index],
            link: self.links[index],
            number,
            before,
        };
        self.trail.save(saved);
        self.values[index] = value;
        self.links[index] = link;
    }

    /// Takes back what was lowered since there were so many picks, as far as the trail reaches. It costs as much as lowering
    /// that did, without its tests.
    pub(crate) fn undo_to(&mut self, count: u32)
        requires values { length self.old.links.items ≡ length self.old.values.items }
        requires inside { All (λ (saved : SavedOf). saved.number < length self.old.values.items) self.old.trail.saved.items }
        ensures reach { self.new.trail.reach ≡ self.old.trail.reach }
        ensures back { (picks : ℕ) → picks ≤ count → undone_to picks self.new ≡ undone_to picks self.old }
        ensures trail { IsTrail count (length self.new.values.items) self.new.trail.saved.items }
    {
        while let Some(saved) = self.trail.pop_since(count) {
            let index = saved.number as usize;
            self.values[index] = saved.value;
            self.links[index] = saved.link;
        }
    }
}
