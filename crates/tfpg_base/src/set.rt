//! Sets of failure modes.

ghost use Rattle.std.specs.Prelude.{◌≡◌, ◌⊎◌, ◌<◌, ◌^◌, ◌↔◌, [], ◌∷◌, ℕ, IsTrue, Contains, MatchOption, length, bytes_eq};
ghost use Rattle.std.specs.Cmp.{partial_equiv_from_equiv};
ghost use Rattle.std.specs.Cmp.Lexicographic.{nat_list_eq_equiv};
ghost use Rattle.tfpg_base.specs.Set.{with_member, IsSubset, IsProperSubset, IsSet};
ghost use Rattle.tfpg_base.specs.SetBits.{bits_of};
ghost use Rattle.tfpg_base.specs.declared.limits.TheConstants.{MAX_MEMBERS};

use crate::MAX_MEMBERS;
use crate::bits::split_lowest;
use std::marker::Model;

/// A set of failure modes, each by its position among the failure modes of the graph, which is below
/// [`MAX_MEMBERS`](crate::MAX_MEMBERS).
/// Contracts see it as the rising list of these positions.
#[derive(Clone, Copy)]
pub struct Set {
    bits: u64,
}

impl Model for Set {
    ghost use Rattle.std.specs.Prelude.{ℕ, List, ◌<◌, ◌^◌};
    ghost use Rattle.std.proofs.Common.{ap};
    ghost use Rattle.tfpg_base.specs.SetBits.{members_of, bits_of};
    ghost use Rattle.tfpg_base.specs.inside.BitsOfMembers.{bits_of-members_of};

    ghost Value = { List ℕ };

    ghost view = { λ set. members_of set.bits };

    ghost invariant = { λ set. set.bits < 2 ^ 64 };

    ghost inverse = { λ members. record { bits = bits_of members } };

    ghost inverse_ok = { λ set small.
        ap (λ (bits : ℕ). record { bits = bits }) (bits_of-members_of set.bits small) };
}

impl PartialEq for Set {
    ghost eq = { bytes_eq };

    ghost laws = { partial_equiv_from_equiv nat_list_eq_equiv };

    fn eq(&self, other: &Set) -> bool {
        self.bits == other.bits
    }
}

impl Eq for Set {
    ghost laws = { nat_list_eq_equiv };
}

impl Set {
    /// The set without a member.
    pub fn empty() -> Set
        ensures { result ≡ [] }
    {
        Set { bits: 0 }
    }

    /// The members as bits: bit `p` is position `p`.
    pub fn bits(self) -> u64
        ensures worth { result ≡ bits_of self }
        ensures set { IsSet self }
    {
        self.bits
    }

    /// The set with this member.
    pub fn with(self, place: u32) -> Set
        requires { place < MAX_MEMBERS }
        ensures list { result ≡ with_member place self }
        ensures members { (other : ℕ) → Contains result other ↔ ((place ≡ other) ⊎ Contains self other) }
        ensures set { IsSet result }
    {
        Set {
            bits: self.bits | 1 << place,
        }
    }

    /// Whether the place is a member.
    pub fn has(self, place: u32) -> bool
        ensures member { IsTrue result ↔ Contains self place }
        ensures set { IsSet self }
    {
        place < MAX_MEMBERS && self.bits >> place & 1 == 1
    }

    /// The least member, and the set of the others.
    pub fn split_first(self) -> Option<(u32, Set)>
        ensures { MatchOption result (self ≡ []) (λ parts. self ≡ parts.0 ∷ parts.1) }
    {
        if self.bits == 0 {
            return None;
        }
        let (place, bits) = split_lowest(self.bits);
        Some((place, Set { bits }))
    }

    /// How many members there are.
    pub fn len(self) -> u32
        ensures count { result ≡ length self }
        ensures set { IsSet self }
    {
        self.bits.count_ones()
    }

    /// Whether there is no member.
    pub fn is_empty(self) -> bool
        ensures { IsTrue result ↔ (self ≡ []) }
    {
        self.bits == 0
    }

    /// Whether each member is one of the other set, and the sets are not equal.
    pub fn is_proper_part(self, of: Set) -> bool
        ensures { IsTrue result ↔ IsProperSubset self of }
    {
        self.is_subset(of) && self != of
    }

    /// Whether each member is one of the other set.
    pub(crate) fn is_subset(self, of: Set) -> bool
        ensures { IsTrue result ↔ IsSubset self of }
    {
        self.bits & of.bits == self.bits
    }
}
