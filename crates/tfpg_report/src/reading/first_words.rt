//! What the first of some words is read as, with the words after it.

ghost use Rattle.std.specs.Prelude.{◌≡◌, ◌≤◌, ◌<◌, IfSome, map, option_map, length};
ghost use Rattle.tfpg_report.specs.inside.FirstWords.{number_within, small, number_first, small_first, node_first, edge_first, after_word, number_after, small_after, set_last};

use super::named_graph::NamedGraph;
use tfpg_base::{Number, read_number};

/// The number that the word spells, at most this limit.
pub(crate) fn number_within(word: &[u8], limit: u64) -> Option<u64>
    ensures number { result ≡ number_within limit word.now }
    ensures within { IfSome result (λ number. number ≤ limit) }
{
    match read_number(word, limit) {
        Number::Value(number) => Some(number),
        _ => None,
    }
}

/// The number that the word spells, which has 32 bits.
pub(crate) fn small(word: &[u8]) -> Option<u32>
    ensures { result ≡ small word.now }
{
    let number = number_within(word, 4_294_967_295)?;
    Some(number as u32)
}

/// The number that the first word spells, at most this limit, and the words after it.
pub(crate) fn number_first<'a, 'w>(
    words: &'w [&'a [u8]],
    limit: u64,
) -> Option<(u64, &'w [&'a [u8]])>
    ensures number { option_map (λ found. (found.0, map (λ word. word.now) found.1.now)) result
        ≡ number_first limit (map (λ word. word.now) words.now) }
    ensures within { IfSome result (λ found. found.0 ≤ limit) }
{
    let (word, others) = words.split_first()?;
    Some((number_within(word, limit)?, others))
}

/// The number of 32 bits that the first word spells, and the words after it.
pub(crate) fn small_first<'a, 'w>(words: &'w [&'a [u8]]) -> Option<(u32, &'w [&'a [u8]])>
    ensures { option_map (λ found. (found.0, map (λ word. word.now) found.1.now)) result
        ≡ small_first (map (λ word. word.now) words.now) }
{
    let (word, others) = words.split_first()?;
    Some((small(word)?, others))
}

/// The node that the first word names, and the words after it.
pub(crate) fn node_first<'a, 'w>(
    graph: &NamedGraph<'_>,
    words: &'w [&'a [u8]],
) -> Option<(u32, &'w [&'a [u8]])>
    ensures node { option_map (λ found. (found.0, map (λ word. word.now) found.1.now)) result
        ≡ node_first graph.now (map (λ word. word.now) words.now) }
    ensures within { IfSome result (λ found. found.0 < length graph.now.nodes) }
{
    let (word, others) = words.split_first()?;
    Some((graph.find(word)?, others))
}

/// The edge from the node that the first word names to that of the second, and the words after them.
pub(crate) fn edge_first<'a, 'w>(
    graph: &NamedGraph<'_>,
    words: &'w [&'a [u8]],
) -> Option<(u32, &'w [&'a [u8]])>
    ensures { option_map (λ found. (found.0, map (λ word. word.now) found.1.now)) result
        ≡ edge_first graph.now (map (λ word. word.now) words.now) }
{
    let (source, words) = node_first(graph, words)?;
    let (target, words) = node_first(graph, words)?;
    let edge = graph.edge_between(source, target)?;
    Some((edge, words))
}

/// The words after this one, which is the first.
pub(crate) fn after_word<'a, 'w>(words: &'w [&'a [u8]], word: &[u8]) -> Option<&'w [&'a [u8]]>
    ensures { option_map (λ others. map (λ word. word.now) others.now) result
        ≡ after_word word.now (map (λ word. word.now) words.now) }
{
    match words {
        [first, others @ ..] if *first == word => Some(others),
        _ => None,
    }
}

/// The number after this word, at most this limit, and the words after it.
pub(crate) fn number_after<'a, 'w>(
    words: &'w [&'a [u8]],
    word: &[u8],
    limit: u64,
) -> Option<(u64, &'w [&'a [u8]])>
    ensures number { option_map (λ found. (found.0, map (λ word. word.now) found.1.now)) result
        ≡ number_after word.now limit (map (λ word. word.now) words.now) }
    ensures within { IfSome result (λ found. found.0 ≤ limit) }
{
    number_first(after_word(words, word)?, limit)
}

/// The number of 32 bits after this word, and the words after it.
pub(crate) fn small_after<'a, 'w>(
    words: &'w [&'a [u8]],
    word: &[u8],
) -> Option<(u32, &'w [&'a [u8]])>
    ensures { option_map (λ found. (found.0, map (λ word. word.now) found.1.now)) result
        ≡ small_after word.now (map (λ word. word.now) words.now) }
{
    small_first(after_word(words, word)?)
}

/// The word after `set`, which is the last.
pub(crate) fn set_last<'a>(words: &[&'a [u8]]) -> Option<&'a [u8]>
    ensures { option_map (λ word. word.now) result ≡ set_last (map (λ word. word.now) words.now) }
{
    match words {
        [keyword, word] if *keyword == b"set".as_slice() => Some(*word),
        _ => None,
    }
}
