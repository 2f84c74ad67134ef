//! The lines that begin or end a block: the first line of a report, that of a refused line, the first and the last of a
//! round, and that of a lost panel.

ghost use Rattle.std.specs.Prelude.{◌≡◌, map};
ghost use Rattle.tfpg_report.specs.inside.LinesRead.{head_in, new_head_in, old_head_in, refusal_named, cause_named, time_back_in, cause_in, refused_in, loss_in, panel_in, round_in, counts_in, block_line_in};

use super::first_words::{number_after, number_first, small_after, small_first};
use crate::{RefusedLine, ReportLine};
use tfpg_base::{MAX_BUDGET, MAX_DOUBT, MAX_K, MAX_LINE_NUMBER, MAX_PANEL_NUMBER, MAX_TIME, Terms};
use tfpg_evidence::Counts;
use tfpg_log::Refusal;

/// The line that begins or ends a block, of this keyword and these words after it.
pub(crate) fn block_line_in(keyword: &[u8], words: &[&[u8]]) -> Option<ReportLine>
    ensures { result ≡ block_line_in keyword.now (map (λ word. word.now) words.now) }
{
    if keyword == b"refused".as_slice() {
        refused_in(words)
    } else if keyword == b"round".as_slice() {
        round_in(words)
    } else if keyword == b"counts".as_slice() {
        counts_in(words)
    } else if keyword == b"panel".as_slice() {
        panel_in(words)
    } else if keyword == b"report".as_slice() {
        head_in(words)
    } else {
        None
    }
}

/// The first line of a report, by its version.
fn head_in(words: &[&[u8]]) -> Option<ReportLine>
    ensures { result ≡ head_in (map (λ word. word.now) words.now) }
{
    let (version, words) = words.split_first()?;
    if *version == b"2".as_slice() {
        new_head_in(words)
    } else if *version == b"1".as_slice() {
        old_head_in(words)
    } else {
        None
    }
}

/// The first line, by the words after its version.
fn new_head_in(words: &[&[u8]]) -> Option<ReportLine>
    ensures { result ≡ new_head_in (map (λ word. word.now) words.now) }
{
    let (k, words) = number_after(words, b"k", MAX_K)?;
    let (doubt, words) = number_after(words, b"doubt", MAX_DOUBT)?;
    let (budget, words) = number_after(words, b"budget", MAX_BUDGET)?;
    if budget == 0 {
        return None;
    }
    match words {
        [] => Some(ReportLine::Head(Terms {
            k: k as u32,
            doubt: doubt as u32,
            budget,
        })),
        _ => None,
    }
}

/// The first line in its older form, by the words after its version.
fn old_head_in(words: &[&[u8]]) -> Option<ReportLine>
    ensures { result ≡ old_head_in (map (λ word. word.now) words.now) }
{
    let (k, words) = number_after(words, b"k", MAX_K)?;
    let (budget, words) = number_after(words, b"budget", MAX_BUDGET)?;
    if budget == 0 {
        return None;
    }
    match words {
        [] => Some(ReportLine::OldHead {
            k: k as u32,
            budget,
        }),
        _ => None,
    }
}

/// The line of a refused line.
fn refused_in(words: &[&[u8]]) -> Option<ReportLine>
    ensures { result ≡ refused_in (map (λ word. word.now) words.now) }
{
    let (line, words) = number_first(words, MAX_LINE_NUMBER)?;
    let cause = cause_in(words)?;
    Some(ReportLine::Refused { line, cause })
}

/// Why a line is refused.
fn cause_in(words: &[&[u8]]) -> Option<RefusedLine>
    ensures { result ≡ cause_in (map (λ word. word.now) words.now) }
{
    let (name, words) = words.split_first()?;
    if *name == b"TimeBack".as_slice() {
        return time_back_in(words);
    }
    let cause = cause_named(name)?;
    match words {
        [] => Some(cause),
        _ => None,
    }
}

/// The cause that has the time of the last event after its name.
fn time_back_in(words: &[&[u8]]) -> Option<RefusedLine>
    ensures { result ≡ time_back_in (map (λ word. word.now) words.now) }
{
    let (last, words) = number_first(words, MAX_TIME)?;
    match words {
        [] => Some(RefusedLine::Offer(Refusal::TimeBack { last })),
        _ => None,
    }
}

/// The cause that this word alone names.
fn cause_named(name: &[u8]) -> Option<RefusedLine>
    ensures { result ≡ cause_named name.now }
{
    if name == b"TooLong".as_slice() {
        return Some(RefusedLine::TooLong);
    }
    let refusal = refusal_named(name)?;
    Some(RefusedLine::Offer(refusal))
}

/// The refusal of the log that this word alone names.
fn refusal_named(name: &[u8]) -> Option<Refusal>
    ensures { result ≡ refusal_named name.now }
{
    if name == b"BadLine".as_slice() {
        Some(Refusal::BadLine)
    } else if name == b"BadNumber".as_slice() {
        Some(Refusal::BadNumber)
    } else if name == b"TimeTooLarge".as_slice() {
        Some(Refusal::TimeTooLarge)
    } else if name == b"UnknownName".as_slice() {
        Some(Refusal::UnknownName)
    } else if name == b"NotMonitored".as_slice() {
        Some(Refusal::NotMonitored)
    } else if name == b"NotAMode".as_slice() {
        Some(Refusal::NotAMode)
    } else if name == b"LogFull".as_slice() {
        Some(Refusal::LogFull)
    } else if name == b"ModesFull".as_slice() {
        Some(Refusal::ModesFull)
    } else {
        None
    }
}

/// The line of a lost panel.
fn panel_in(words: &[&[u8]]) -> Option<ReportLine>
    ensures { result ≡ panel_in (map (λ word. word.now) words.now) }
{
    let (panel, words) = number_first(words, MAX_PANEL_NUMBER)?;
    let memory = loss_in(words)?;
    Some(ReportLine::Panel { panel, memory })
}

/// Whether memory ran out for a panel.
fn loss_in(words: &[&[u8]]) -> Option<bool>
    ensures { result ≡ loss_in (map (λ word. word.now) words.now) }
{
    match words {
        [word] if *word == b"lost".as_slice() => Some(false),
        [word] if *word == b"memory".as_slice() => Some(true),
        _ => None,
    }
}

/// The first line of a round.
fn round_in(words: &[&[u8]]) -> Option<ReportLine>
    ensures { result ≡ round_in (map (λ word. word.now) words.now) }
{
    let (number, words) = small_first(words)?;
    let (line, words) = number_first(words, MAX_LINE_NUMBER)?;
    let (now, words) = number_first(words, MAX_TIME)?;
    match words {
        [] => Some(ReportLine::Round { number, line, now }),
        _ => None,
    }
}

/// The last line of a round.
fn counts_in(words: &[&[u8]]) -> Option<ReportLine>
    ensures { result ≡ counts_in (map (λ word. word.now) words.now) }
{
    let (ranked, words) = small_after(words, b"ranked")?;
    let (covered, words) = small_after(words, b"covered")?;
    let (rejected, words) = small_after(words, b"rejected")?;
    let (unsettled, words) = small_after(words, b"open")?;
    match words {
        [] => Some(ReportLine::Counts(Counts {
            ranked,
            covered,
            rejected,
            unsettled,
        })),
        _ => None,
    }
}
