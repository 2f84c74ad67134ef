//! Hypotheses: what may have failed.

ghost use Rattle.std.specs.Prelude.{◌≡◌, ◌<◌, ◌↔◌, [], IsTrue};
ghost use Rattle.tfpg_base.specs.Hypothesis.{believing, IsProperPart};
ghost use Rattle.tfpg_base.specs.Set.{with_member, IsSubset};
ghost use Rattle.tfpg_base.specs.declared.limits.TheConstants.{MAX_NODE_NUMBERS};

use crate::doubts::Doubts;
use crate::set::Set;
use std::marker::Model;

/// The failure modes of a hypothesis, and the monitors that it does not believe. Contracts see the record of both lists.
#[derive(Clone, Copy)]
pub struct Hypothesis {
    pub set: Set,
    pub doubts: Doubts,
}

impl Model for Hypothesis {
    ghost use Rattle.std.specs.Prelude.{refl};
    ghost use Rattle.tfpg_base.specs.Hypothesis.{Hypothesis as Members};

    ghost Value = { Members };

    ghost view = { λ hypothesis. record { set = hypothesis.set; doubts = hypothesis.doubts } };

    ghost inverse = { λ members. record { set = members.set; doubts = members.doubts } };

    ghost inverse_ok = { λ hypothesis fits. refl };
}

impl Hypothesis {
    /// These failure modes, with no doubt in a monitor.
    pub fn believing(set: Set) -> Hypothesis
        ensures { result ≡ believing set }
    {
        Hypothesis {
            set,
            doubts: Doubts::empty(),
        }
    }

    /// The same failure modes, with the doubt in the monitor of this node.
    pub fn doubting(self, node: u32) -> Hypothesis
        requires { node < MAX_NODE_NUMBERS }
        ensures { result ≡ record { set = self.set; doubts = with_member node self.doubts } }
    {
        Hypothesis {
            set: self.set,
            doubts: self.doubts.with(node),
        }
    }

    /// Whether there is no member.
    pub fn is_empty(self) -> bool
        ensures { IsTrue result ↔ (self ≡ believing []) }
    {
        self.set.is_empty() && self.doubts.is_empty()
    }

    /// Whether both have the same members.
    pub fn is_same(self, other: Hypothesis) -> bool
        ensures { IsTrue result ↔ (self ≡ other) }
    {
        self.set == other.set && self.doubts.is_same(other.doubts)
    }

    /// Whether each member is one of the other hypothesis, and the two are not the same.
    pub fn is_proper_part(self, of: Hypothesis) -> bool
        ensures { IsTrue result ↔ IsProperPart self of }
    {
        self.is_part(of) && !self.is_same(of)
    }

    fn is_part(self, of: Hypothesis) -> bool
        ensures { IsTrue result ↔ (IsSubset self.set of.set × IsSubset self.doubts of.doubts) }
    {
        self.set.is_subset(of.set) && self.doubts.is_subset(of.doubts)
    }
}
