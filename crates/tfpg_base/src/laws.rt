//! What the definitions of this crate come to, as functions that do nothing: each says its law in its clauses.

ghost use Rattle.std.specs.Prelude.{◌≡◌, ◌<◌, ◌^◌, ℕ};
ghost use Rattle.tfpg_base.specs.Set.{IsSet};
ghost use Rattle.tfpg_base.specs.SetBits.{members_of, bits_of};

/// What 64 bits keep is a set, and the set determines the bits.
pub fn bits_keep_a_set()
    ensures set { (bits : ℕ) → IsSet (members_of bits) }
    ensures bits { (bits : ℕ) → bits < 2 ^ 64 → bits_of (members_of bits) ≡ bits }
{}
