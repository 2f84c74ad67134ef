//! The word for the modes of an edge: `*` for all, `-` for none, or names with commas between.

ghost use Rattle.std.specs.Prelude.{◌≡◌, ◌≤◌, ◌<◌, ◌+◌, ◌^◌, [], map, length, drop, true, false, bytes_eq, codes, IfOk, IfSome, IfNone, filter_map};
ghost use Rattle.std.specs.List.{list_any};
ghost use Rattle.tfpg_base.specs.SetBits.{bits_of};
ghost use Rattle.tfpg_graph.specs.Graph.{mode_named};
ghost use Rattle.tfpg_graph.specs.Declares.{modes_listed, modes_of_word};
ghost use Rattle.tfpg_graph.specs.Causes.{has_twice};
ghost use Rattle.tfpg_graph.specs.inside.reading.EdgeNames.{NameNewModes};

use crate::declared::Declared;
use crate::edge::all_modes;
use crate::limits::MAX_MODES;
use std::alloc::Global;
use tfpg_base::{NoMemory, Set, parts_at_commas};

/// The names that the word lists, in order. Takes memory for them.
pub(crate) fn listed_modes<'a>(alloc: Global, word: &'a [u8]) -> Result<Vec<&'a [u8]>, NoMemory>
    ensures { IfOk result (λ names. map (λ name. name.now) names.items ≡ modes_listed word.now) }
{
    if word == b"*".as_slice() || word == b"-".as_slice() {
        return Ok(Vec::new(alloc));
    }
    parts_at_commas(alloc, word)
}

/// Whether a name stands twice. Takes time quadratic in their number, and is called only for a line with a fault.
pub(crate) fn has_twice(names: &[&[u8]]) -> bool
    ensures { result ≡ has_twice (map (λ name. name.now) names.now) }
{
    for index in 0..names.len() {
        if first_stands_again(&names[index..]) {
            return true;
        }
    }
    false
}

/// Whether the first of some names stands again among the others.
fn first_stands_again(names: &[&[u8]]) -> bool
    ensures again { result ≡ true → has_twice (map (λ name. name.now) names.now) ≡ true }
    ensures once { result ≡ false → has_twice (map (λ name. name.now) names.now) ≡
        has_twice (map (λ name. name.now) (drop 1 names.now)) }
{
    match names.split_first() {
        None => false,
        Some((first, others)) => is_named_among(first, others),
    }
}

fn is_named_among(name: &[u8], names: &[&[u8]]) -> bool
    ensures { result ≡ list_any (λ other. bytes_eq name.now other.now) names.now }
{
    names.iter().any(|other| name == *other)
}

/// The bits of the modes of these names, where each name is that of a mode and none stands twice. Takes one look-up for
/// each name, up to the first for which that is not so.
pub(crate) fn bits_of_names(declared: &Declared, names: &[&[u8]]) -> Option<u64>
    requires few { length declared.now.modes ≤ MAX_MODES }
    ensures found { IfSome result (λ _. NameNewModes declared.now [] (map (λ name. name.now) names.now)) }
    ensures bits { IfSome result (λ bits. bits
        ≡ bits_of (filter_map (mode_named declared.now) (map (λ name. name.now) names.now))) }
    ensures refused { IfNone result (NameNewModes declared.now [] (map (λ name. name.now) names.now) → ⊥) }
{
    let mut modes = Set::empty();
    for name in names {
        let mode = declared.find_mode(name)?;
        if modes.has(mode) {
            return None;
        }
        modes = modes.with(mode);
    }
    Some(modes.bits())
}

/// The bits of the modes that the word says, where these are the bits of those that it lists.
pub(crate) fn modes_of(declared: &Declared, word: &[u8], listed: u64) -> u64
    requires listed { listed ≡ bits_of (filter_map (mode_named declared.now) (modes_listed word.now)) }
    requires modes { NameNewModes declared.now [] (modes_listed word.now) }
    requires some_mode { bytes_eq word.now (codes "-") ≡ false }
    requires some { 0 < length declared.now.modes }
    requires few { length declared.now.modes ≤ MAX_MODES }
    ensures bits { result ≡ modes_of_word declared.now word.now }
    ensures some { 0 < result }
    ensures own { result < 2 ^ length declared.now.modes }
{
    if word == b"*".as_slice() {
        all_modes(declared.mode_count())
    } else {
        listed
    }
}
