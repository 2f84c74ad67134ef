//! The spans of a log, by the changes of mode that begin them.
//!
//! Of several changes at one time only the last begins a span, and a change to the mode that already holds begins none. So
//! the changes here have rising times, and each has another mode than the one before it. Span 0 begins at 0, in mode 0.
//! Each further span begins at the instant after its change.

ghost use Rattle.std.specs.Prelude.{◌≡◌, ◌+◌, ◌≤◌, ◌<◌, ◌==◌, nat_le, length, if◌then◌else◌, Some, None, IsOk, OnOk, vec_len, vec_capacity};
ghost use Rattle.std.specs.List.Sorted.{IsNonDecreasingBy};
ghost use Rattle.tfpg_log.specs.declared.mode_change.ModeChange.{ModeChange};
ghost use Rattle.tfpg_log.specs.inside.SpanIndex.{begin_of_span, mode_of_span, end_of_span, span_in, IsInSpan, kept_at, with_change};

use crate::mode_change::ModeChange;
use crate::span::Span;
use tfpg_base::NoMemory;

/// The number of the span of the instant. Takes time logarithmic in the number of changes.
pub(crate) fn span_number(changes: &[ModeChange], instant: u64) -> usize
    requires { IsNonDecreasingBy (λ (change : ModeChange). change.time) changes.now }
    ensures { IsInSpan changes.now result instant }
{
    changes.partition_point(|change| change.time < instant)
}

/// The mode of the span.
pub(crate) fn mode_of_span(changes: &[ModeChange], number: usize) -> u32
    requires { number ≤ length changes.now }
    ensures { result ≡ mode_of_span changes.now number }
{
    if number == 0 {
        return 0;
    }
    changes[number - 1].mode
}

/// The span of this number up to a horizon, where there is one that begins by it.
pub(crate) fn span_in(changes: &[ModeChange], number: usize, horizon: u64) -> Option<Span>
    ensures { result ≡ span_in changes.now number horizon }
{
    if number > changes.len() {
        return None;
    }
    let lo = begin_by(changes, number, horizon)?;
    let hi = end_of_span(changes, number, horizon);
    let mode = mode_of_span(changes, number);
    Some(Span { lo, hi, mode })
}

/// The first instant of the span, where it is by the horizon.
pub(crate) fn begin_by(changes: &[ModeChange], number: usize, horizon: u64) -> Option<u64>
    requires { number ≤ length changes.now }
    ensures { result ≡ (if nat_le (begin_of_span changes.now number) horizon
        then Some (begin_of_span changes.now number) else None) }
{
    if number == 0 {
        return Some(0);
    }
    let time = changes[number - 1].time;
    if time < horizon { Some(time + 1) } else { None }
}

/// The last instant, up to the horizon, of a span that begins by it.
pub(crate) fn end_of_span(changes: &[ModeChange], number: usize, horizon: u64) -> u64
    ensures { result ≡ end_of_span changes.now number horizon }
{
    if number < changes.len() && changes[number].time < horizon {
        return changes[number].time;
    }
    horizon
}

/// Takes one more change, of a time that no earlier change is after. Where there is room for it, this does not fail.
pub(crate) fn take_change(
    changes: &mut Vec<ModeChange>,
    time: u64,
    mode: u32,
) -> Result<(), NoMemory>
    ensures room { vec_len changes.old < vec_capacity changes.old → IsOk result }
    ensures changes { OnOk result (changes.new.items ≡ with_change changes.old.items time mode) }
{
    drop_change_at(changes, time);
    if mode_of_span(changes, changes.len()) != mode {
        changes.push(ModeChange { time, mode })?;
    }
    Ok(())
}

/// Drops the last change, where it is of this time.
fn drop_change_at(changes: &mut Vec<ModeChange>, time: u64)
    ensures changes { changes.new.items ≡ kept_at changes.old.items time }
    ensures len { vec_len changes.new ≤ vec_len changes.old }
    ensures capacity { vec_capacity changes.new ≡ vec_capacity changes.old }
{
    if is_last_at(changes, time) {
        changes.pop();
    }
}

/// Whether the last change is of this time.
fn is_last_at(changes: &[ModeChange], time: u64) -> bool
    ensures { result ≡ (begin_of_span changes.now (length changes.now) == time + 1) }
{
    let count = changes.len();
    count > 0 && changes[count - 1].time == time
}
