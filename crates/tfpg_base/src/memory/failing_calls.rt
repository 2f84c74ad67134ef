//! The calls that are to fail.

ghost use Rattle.std.specs.Prelude.{◌≡◌, ◌≤◌, ◌↔◌, IsTrue, Contains};
ghost use Rattle.tfpg_base.specs.Memory.{count_after};
ghost use Rattle.tfpg_base.specs.Outside.{Rose};

use crate::FaultCount;

/// Counts calls and faults. The calls with these numbers, from 1, are to fail.
#[derive(Drop)]
pub(crate) struct FailingCalls<'a> {
    pub(crate) failing: &'a [u64],
    pub(crate) calls: u64,
    pub(crate) faults: FaultCount,
}

impl<'a> FailingCalls<'a> {
    /// No call came yet, and those with these numbers are to fail.
    pub(crate) fn new(failing: &'a [u64]) -> FailingCalls<'a>
        ensures failing { result.failing.now ≡ failing.now }
        ensures calls { result.calls ≡ 0 }
        ensures faults { result.faults.count ≡ 0 }
    {
        FailingCalls {
            failing,
            calls: 0,
            faults: FaultCount::new(),
        }
    }

    /// Counts a call, and says whether it is to fail.
    pub(crate) fn next_fails(&mut self) -> bool
        ensures counted { self.new.calls ≡ count_after self.old.calls }
        ensures fails { IsTrue result ↔ Contains self.old.failing.now (count_after self.old.calls) }
        ensures same_faults { self.new.faults ≡ self.old.faults }
        ensures same_failing { self.new.failing.now ≡ self.old.failing.now }
    {
        self.calls = self.calls.saturating_add(1);
        self.failing.contains(&self.calls)
    }

    /// Counts a fault.
    pub(crate) fn raise(&mut self)
        ensures counted { self.new.faults.count ≡ count_after self.old.faults.count }
        ensures rose { Rose self.old.faults.count self.new.faults.count }
        ensures same_calls { self.new.calls ≡ self.old.calls }
        ensures same_failing { self.new.failing.now ≡ self.old.failing.now }
    {
        self.faults.raise();
    }
}
