//! The spans of one mode of a script.

ghost use Rattle.std.specs.Prelude.{◌≡◌, ◌≤◌, ◌+◌, ◌^◌, ◌++◌, All, AllPairs, IfOk, OnOk};
ghost use Rattle.tfpg_base.specs.declared.limits.TheConstants.{MAX_TIME};
ghost use Rattle.tfpg_sim.specs.inside.Arrivals.{AreNearSpans};
ghost use Rattle.tfpg_sim.specs.Script.{time_of_entry};
ghost use Rattle.tfpg_sim.specs.Simulation.{script_log};
ghost use Rattle.tfpg_sim.specs.inside.ModeSpans.{AreSpans, closed_by, current_after};

use crate::entry::Entry;
use std::alloc::Global;
use tfpg_base::NoMemory;
use tfpg_log::Span;

/// The spans of one mode from 0 to the stop, in order. Goes through the lines of the script.
pub(crate) fn spans_of(alloc: Global, entries: &[Entry], stop: u64) -> Result<Vec<Span>, NoMemory>
    requires order { AllPairs (λ a b. time_of_entry a ≤ time_of_entry b) entries.now }
    requires stop { All (λ entry. time_of_entry entry ≤ stop) entries.now }
    requires small { stop ≤ MAX_TIME }
    ensures spans { IfOk result (λ spans. AreSpans (script_log entries.now) (stop + 1) 0 spans.items) }
    ensures small { IfOk result (λ spans. AreNearSpans spans.items) }
{
    let mut spans = Vec::new(alloc);
    let mut current = Span {
        lo: 0,
        hi: stop,
        mode: 0,
    };
    for entry in entries {
        current = take_entry(&mut spans, current, *entry)?;
    }
    if current.lo <= stop {
        spans.push(current)?;
    }
    Ok(spans)
}

/// The span from the line on. A change of mode ends the span before it, unless that has no instant.
fn take_entry(spans: &mut Vec<Span>, current: Span, entry: Entry) -> Result<Span, NoMemory>
    requires { time_of_entry entry ≤ MAX_TIME }
    ensures closed { OnOk result (spans.new.items ≡ spans.old.items ++ closed_by current entry) }
    ensures current { IfOk result (λ next. next ≡ current_after current entry) }
{
    match entry {
        Entry::Mode { time, mode } => {
            if current.lo <= time {
                spans.push(Span {
                    lo: current.lo,
                    hi: time,
                    mode: current.mode,
                })?;
            }
            Ok(Span {
                lo: time + 1,
                hi: current.hi,
                mode,
            })
        }
        Entry::Start { .. } | Entry::Sweep { .. } | Entry::Tick { .. } | Entry::Stop { .. } => {
            Ok(current)
        }
    }
}
