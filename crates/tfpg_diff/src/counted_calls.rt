//! How many calls a system has counted, where contracts alone see it.

ghost use Rattle.std.specs.Prelude.{◌≡◌, ◌+◌, ℕ};

use std::marker::Model;

/// How many counted calls there were, for contracts alone: it has no bytes, and takes no time. A caller may count by any counter
/// that it likes; a system itself keeps this.
#[derive(Drop)]
pub struct CountedCalls {
    pub ghost number: { ℕ },
}

impl Model for CountedCalls {
    ghost use base.Fml.{ftrue};

    ghost also_owns = { λ _. ftrue };
}

impl CountedCalls {
    /// None yet.
    #[inline(always)]
    pub(crate) fn none() -> CountedCalls
        ensures { result.number ≡ 0 }
    {
        CountedCalls {}
    }

    /// One more.
    #[inline(always)]
    pub(crate) fn and_one(&self) -> CountedCalls
        ensures { result.number ≡ self.now.number + 1 }
    {
        let _ = self;
        CountedCalls {}
    }

    /// As many.
    #[inline(always)]
    pub(crate) fn again(&self) -> CountedCalls
        ensures { result.number ≡ self.now.number }
    {
        let _ = self;
        CountedCalls {}
    }
}
