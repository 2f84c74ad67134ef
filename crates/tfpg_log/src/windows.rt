//! Windows: maximal runs of spans in whose modes something is active.

ghost use Rattle.std.specs.Prelude.{◌≡◌, ◌≤◌, IsTrue, length, option_and_then};
ghost use Rattle.tfpg_log.specs.Log.{Logbook, now_of, mode_at};
ghost use Rattle.tfpg_log.specs.Spans.{span_at, window_round};
ghost use Rattle.tfpg_log.specs.inside.SpanIndex.{begin_of_span, mode_of_span, BeginSpans};
ghost use Rattle.tfpg_log.specs.inside.ActiveModes.{has_mode, is_active_before, is_active_after, IsRunStart, IsRunEnd};

use crate::active_modes::ActiveModes;
use crate::mode_change::ModeChange;
use crate::span::Window;
use crate::spans::{begin_by, end_of_span, mode_of_span, span_in};

/// The window round the span of this number, up to a horizon. There is none where no such span begins by the horizon, or
/// where its mode is none of these. Goes through the spans of the window.
pub(crate) fn window_round(
    changes: &[ModeChange],
    modes: &ActiveModes,
    number: u32,
    horizon: u64,
) -> Option<Window>
    ensures { (log : Logbook) → BeginSpans (mode_at log) changes.now → horizon ≤ now_of log →
        result ≡ option_and_then (λ span. window_round log
        (λ instant. has_mode modes.now (mode_at log instant)) span horizon)
        (span_at log number horizon) }
{
    let span = span_in(changes, number as usize, horizon)?;
    if !modes.has(span.mode) {
        return None;
    }
    let first = run_start(changes, modes, number as usize);
    let last = run_end(changes, modes, number as usize, horizon);
    let lo = begin_by(changes, first, horizon)?;
    let hi = end_of_span(changes, last, horizon);
    Some(Window {
        first: first as u32,
        lo,
        hi,
    })
}

/// The first span of the run up to the span of this number.
fn run_start(changes: &[ModeChange], modes: &ActiveModes, number: usize) -> usize
    requires counted { number ≤ length changes.now }
    requires active { IsTrue (has_mode modes.now (mode_of_span changes.now number)) }
    ensures { IsRunStart modes.now changes.now number result }
{
    let mut first = number;
    while is_active_before(changes, modes, first) {
        first -= 1;
    }
    first
}

/// The last span of the run from the span of this number on, among those that begin by the horizon.
fn run_end(changes: &[ModeChange], modes: &ActiveModes, number: usize, horizon: u64) -> usize
    requires counted { number ≤ length changes.now }
    requires begun { begin_of_span changes.now number ≤ horizon }
    requires active { IsTrue (has_mode modes.now (mode_of_span changes.now number)) }
    ensures { IsRunEnd modes.now changes.now number horizon result }
{
    let mut last = number;
    while is_active_after(changes, modes, last, horizon) {
        last += 1;
    }
    last
}

/// Whether there is a span before that of this number, and its mode is one of these.
fn is_active_before(changes: &[ModeChange], modes: &ActiveModes, number: usize) -> bool
    requires { number ≤ length changes.now }
    ensures { result ≡ is_active_before modes.now changes.now number }
{
    number > 0 && modes.has(mode_of_span(changes, number - 1))
}

/// Whether a span after that of this number begins by the horizon, and its mode is one of these.
fn is_active_after(changes: &[ModeChange], modes: &ActiveModes, number: usize, horizon: u64) -> bool
    ensures { result ≡ is_active_after modes.now changes.now number horizon }
{
    number < changes.len() && changes[number].time < horizon && modes.has(changes[number].mode)
}
