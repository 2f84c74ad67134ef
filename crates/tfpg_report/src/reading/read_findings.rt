//! The lines of what was found of a hypothesis: ranked with a trace, open, or rejected.

ghost use Rattle.std.specs.Prelude.{◌≡◌, ◌∷◌, ◌==◌, map, option_map, position, codes};
ghost use Rattle.tfpg_report.specs.inside.LinesRead.{at_in, without_first, robust_in, robust_first, ranked_first, ranked_in, numbered_in, plain_line_in};
ghost use Rattle.tfpg_report.specs.inside.WordsRead.{AreWordsRead, AreNumberedRead};

use super::LineRefusal;
use super::first_words::{
    after_word, node_first, number_first, set_last, small, small_after, small_first,
};
use super::named_graph::NamedGraph;
use super::read_steps::step_line_in;
use super::set_word::set_in;
use crate::ReportLine;
use std::alloc::Global;
use tfpg_base::{Activation, Hypothesis, MAX_TIME};

/// What the line of a ranked hypothesis says before its set.
#[derive(Clone, Copy)]
pub(crate) struct RankedNumbers {
    pub(crate) number: u32,
    pub(crate) cost: u64,
    pub(crate) alarmed: u32,
    pub(crate) monitored: u32,
}

/// The line of these words.
pub(crate) fn line_in(
    alloc: Global,
    graph: &NamedGraph<'_>,
    words: &[&[u8]],
) -> Result<ReportLine, LineRefusal>
    ensures { AreWordsRead graph.now (map (λ word. word.now) words.now) result }
{
    graph.is_always_valid();
    let Some((keyword, words)) = words.split_first() else {
        return Err(LineRefusal::NotALine);
    };
    if *keyword == b"ranked".as_slice() {
        ranked_in(alloc, graph, words)
    } else if *keyword == b"open".as_slice() {
        open_in(alloc, graph, words)
    } else if *keyword == b"rejected".as_slice() {
        rejected_in(alloc, graph, words)
    } else {
        plain_line_in(graph, keyword, words).ok_or(LineRefusal::NotALine)
    }
}

/// The line without a set, of this keyword and these words after it.
fn plain_line_in(graph: &NamedGraph<'_>, keyword: &[u8], words: &[&[u8]]) -> Option<ReportLine>
    ensures { result ≡ plain_line_in graph.now keyword.now (map (λ word. word.now) words.now) }
{
    if keyword == b"at".as_slice() {
        at_in(graph, words)
    } else {
        step_line_in(graph, keyword, words)
    }
}

/// The line of an activation.
fn at_in(graph: &NamedGraph<'_>, words: &[&[u8]]) -> Option<ReportLine>
    ensures { result ≡ at_in graph.now (map (λ word. word.now) words.now) }
{
    let (node, words) = node_first(graph, words)?;
    let (time, words) = number_first(words, MAX_TIME)?;
    match words {
        [] => Some(ReportLine::At(Activation { node, time })),
        _ => None,
    }
}

/// The line of a ranked hypothesis.
fn ranked_in(
    alloc: Global,
    graph: &NamedGraph<'_>,
    words: &[&[u8]],
) -> Result<ReportLine, LineRefusal>
    ensures { AreWordsRead graph.now (codes "ranked" ∷ map (λ word. word.now) words.now) result }
{
    graph.is_always_valid();
    let Some((ranked, set)) = ranked_words(words) else {
        return Err(LineRefusal::NotALine);
    };
    let Some(hypothesis) = set_in(alloc, graph, set)? else {
        return Err(LineRefusal::NotALine);
    };
    Ok(ReportLine::Ranked {
        number: ranked.number,
        cost: ranked.cost,
        alarmed: ranked.alarmed,
        monitored: ranked.monitored,
        hypothesis,
    })
}

/// The numbers of a ranked hypothesis, and the text of its set.
fn ranked_words<'a>(words: &[&'a [u8]]) -> Option<(RankedNumbers, &'a [u8])>
    ensures { option_map (λ found. (found.0, found.1.now)) result
        ≡ ranked_in (map (λ word. word.now) words.now) }
{
    let (numbers, words) = ranked_first(words)?;
    let set = set_last(words)?;
    Some((numbers, set))
}

/// The numbers of a ranked hypothesis, and the words after them.
fn ranked_first<'a, 'w>(words: &'w [&'a [u8]]) -> Option<(RankedNumbers, &'w [&'a [u8]])>
    ensures { option_map (λ found. (found.0, map (λ word. word.now) found.1.now)) result
        ≡ ranked_first (map (λ word. word.now) words.now) }
{
    let (number, words) = small_first(words)?;
    let (cost, words) = small_after(words, b"cost")?;
    let ((alarmed, monitored), words) = robust_first(words)?;
    let numbers = RankedNumbers {
        number,
        cost: u64::from(cost),
        alarmed,
        monitored,
    };
    Some((numbers, words))
}

/// The two counts after `robust`, and the words after them.
fn robust_first<'a, 'w>(words: &'w [&'a [u8]]) -> Option<((u32, u32), &'w [&'a [u8]])>
    ensures { option_map (λ found. (found.0, map (λ word. word.now) found.1.now)) result
        ≡ robust_first (map (λ word. word.now) words.now) }
{
    let words = after_word(words, b"robust")?;
    let (word, others) = words.split_first()?;
    let robust = robust_in(word)?;
    Some((robust, others))
}

/// How many of the monitored nodes have an alarm, and how many there are: two numbers with a slash between.
fn robust_in(word: &[u8]) -> Option<(u32, u32)>
    ensures { result ≡ robust_in word.now }
{
    let slash = slash_in(word)?;
    let (alarmed, others) = word.split_at(slash);
    let (_slash, monitored) = others.split_first()?;
    let alarmed = small(alarmed)?;
    let monitored = small(monitored)?;
    Some((alarmed, monitored))
}

/// The index of the first slash.
fn slash_in(word: &[u8]) -> Option<usize>
    ensures { result ≡ position (λ byte. byte == 47) word.now }
{
    word.iter().position(|byte| *byte == b'/')
}

/// The line of an open hypothesis.
fn open_in(
    alloc: Global,
    graph: &NamedGraph<'_>,
    words: &[&[u8]],
) -> Result<ReportLine, LineRefusal>
    ensures { AreWordsRead graph.now (codes "open" ∷ map (λ word. word.now) words.now) result }
{
    graph.is_always_valid();
    let (number, hypothesis) = numbered_in(alloc, graph, words)?;
    Ok(ReportLine::Open { number, hypothesis })
}

/// The line of a hypothesis that the round rejected.
fn rejected_in(
    alloc: Global,
    graph: &NamedGraph<'_>,
    words: &[&[u8]],
) -> Result<ReportLine, LineRefusal>
    ensures { AreWordsRead graph.now (codes "rejected" ∷ map (λ word. word.now) words.now) result }
{
    graph.is_always_valid();
    let (number, hypothesis) = numbered_in(alloc, graph, words)?;
    Ok(ReportLine::Rejected { number, hypothesis })
}

/// The number of a hypothesis, and the hypothesis.
fn numbered_in(
    alloc: Global,
    graph: &NamedGraph<'_>,
    words: &[&[u8]],
) -> Result<(u32, Hypothesis), LineRefusal>
    ensures { AreNumberedRead graph.now (map (λ word. word.now) words.now) result }
{
    graph.is_always_valid();
    let Some((number, set)) = numbered_words(words) else {
        return Err(LineRefusal::NotALine);
    };
    match set_in(alloc, graph, set)? {
        Some(hypothesis) => Ok((number, hypothesis)),
        None => Err(LineRefusal::NotALine),
    }
}

/// The number of a hypothesis, and the text of its set.
fn numbered_words<'a>(words: &[&'a [u8]]) -> Option<(u32, &'a [u8])>
    ensures { option_map (λ found. (found.0, found.1.now)) result
        ≡ numbered_in (map (λ word. word.now) words.now) }
{
    let (number, words) = small_first(words)?;
    let set = set_last(words)?;
    Some((number, set))
}
