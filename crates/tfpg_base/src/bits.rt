//! Words of 64 bits that keep a set.

ghost use Rattle.std.specs.Prelude.{◌≡◌, ◌<◌, ◌^◌, ◌∷◌};
ghost use Rattle.tfpg_base.specs.SetBits.{members_of};

/// The index of the lowest bit that is set, and the word without it.
pub(crate) fn split_lowest(word: u64) -> (u32, u64)
    requires { 0 < word }
    ensures members { members_of word ≡ result.0 ∷ members_of result.1 }
    ensures index { result.0 < 64 }
    ensures rest { result.1 < 2 ^ 64 }
{
    let index = word.trailing_zeros();
    (index, word & !(1 << index))
}
