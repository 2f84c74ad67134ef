//! A count of faults.

ghost use Rattle.std.specs.Prelude.{◌≡◌, ◌≤◌};
ghost use Rattle.tfpg_base.specs.Memory.{count_after};
ghost use Rattle.tfpg_base.specs.Outside.{Rose};

/// How often something of the outside has failed. At its last value, `u64::MAX`, the count stands still.
#[derive(Drop)]
pub struct FaultCount {
    /// The number of faults.
    pub count: u64,
}

impl FaultCount {
    /// A count of no fault.
    pub fn new() -> FaultCount
        ensures { result.count ≡ 0 }
    {
        FaultCount { count: 0 }
    }

    /// Counts a fault.
    pub fn raise(&mut self)
        ensures counted { self.new.count ≡ count_after self.old.count }
        ensures rose { Rose self.old.count self.new.count }
        ensures never_falls { self.old.count ≤ self.new.count }
    {
        self.count = self.count.saturating_add(1);
    }
}
