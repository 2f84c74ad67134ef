//! The names of vehicles.

ghost use Rattle.std.specs.Prelude.{◌≡◌, true, false, IfOk, bytes_eq, drop, map};
ghost use Rattle.std.specs.List.{list_all, list_any};
ghost use Rattle.tfpg_base.specs.Words.{comma_parts, is_name};
ghost use Rattle.tfpg_words.specs.Names.{are_distinct, are_few, are_names};

use std::alloc::Global;
use tfpg_base::{MAX_VEHICLES, NoMemory, parts_at_commas, read_name};

/// Whether the word has the names of vehicles, with commas between: 1 to [`MAX_VEHICLES`], each of the form of a name, and no two
/// alike. Takes memory for its parts.
pub(crate) fn has_names(alloc: Global, word: &str) -> Result<bool, NoMemory>
    ensures { IfOk result (λ has. has ≡ are_names (comma_parts word.now)) }
{
    let parts = parts_at_commas(alloc, word.as_bytes())?;
    Ok(are_names(parts.as_slice()))
}

/// Whether these are names for vehicles. Compares each two of them, where they are few.
fn are_names(names: &[&[u8]]) -> bool
    ensures { result ≡ are_names (map (λ name. name.now) names.now) }
{
    if !are_few(names.len()) {
        return false;
    }
    if !have_form(names) {
        return false;
    }
    are_distinct(names)
}

/// Whether so many are few, and some.
fn are_few(count: usize) -> bool
    ensures { result ≡ are_few count }
{
    count >= 1 && count <= MAX_VEHICLES
}

/// Whether each is of the form of a name.
fn have_form(names: &[&[u8]]) -> bool
    ensures { result ≡ list_all (λ name. is_name name.now) names.now }
{
    names.iter().all(|name| read_name(name))
}

/// Whether no two are alike.
fn are_distinct(names: &[&[u8]]) -> bool
    ensures { result ≡ are_distinct (map (λ name. name.now) names.now) }
{
    for index in 0..names.len() {
        if first_stands_again(&names[index..]) {
            return false;
        }
    }
    true
}

/// Whether the first of some names stands again among the others.
fn first_stands_again(names: &[&[u8]]) -> bool
    ensures again { result ≡ true → are_distinct (map (λ name. name.now) names.now) ≡ false }
    ensures once { result ≡ false → are_distinct (map (λ name. name.now) names.now) ≡
        are_distinct (map (λ name. name.now) (drop 1 names.now)) }
{
    match names.split_first() {
        None => false,
        Some((first, others)) => is_among(others, first),
    }
}

/// Whether one of the names is this word.
fn is_among(names: &[&[u8]], word: &[u8]) -> bool
    ensures { result ≡ list_any (λ name. bytes_eq name.now word.now) names.now }
{
    names.iter().any(|name| *name == word)
}
