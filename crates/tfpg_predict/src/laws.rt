//! What the definitions of this crate come to, as functions that do nothing: each says its law in its clauses.

ghost use Rattle.std.specs.Prelude.{◌≡◌, [], ◌∷◌};
ghost use Rattle.tfpg_log.specs.declared.event.Event.TheVariants.{Alarm, Silent, Sweep, Tick, Mode};
ghost use Rattle.tfpg_log.specs.LogOfLines.{log_of_events};
ghost use Rattle.tfpg_predict.specs.Kept.{kept_events};
ghost use Rattle.tfpg_predict.specs.KeptRows.{two_alarms};

/// What is kept of some logs of a small graph, in which A is the node 1 and E the node 2.
///
/// - `silence`: a silence alone is kept.
/// - `sweep`: a sweep before the first alarm of A is the last silence of A and of E, and is kept as these.
/// - `alarms`: of three alarms the one in the middle is not kept, nor are ticks; a change of mode is.
/// - `later`: of a sweep and a later silence of E only the silence of A by the sweep is kept, and that later silence.
pub fn kept_events_of_small_logs()
    ensures silence { kept_events two_alarms (log_of_events (Silent 10 1 ∷ [])) ≡ Silent 10 1 ∷ [] }
    ensures sweep { kept_events two_alarms (log_of_events (Sweep 10 ∷ Alarm 12 1 ∷ []))
        ≡ Silent 10 1 ∷ Silent 10 2 ∷ Alarm 12 1 ∷ [] }
    ensures alarms { kept_events two_alarms
        (log_of_events (Alarm 5 1 ∷ Mode 6 0 ∷ Alarm 7 1 ∷ Tick 8 ∷ Alarm 9 1 ∷ []))
        ≡ Alarm 5 1 ∷ Mode 6 0 ∷ Alarm 9 1 ∷ [] }
    ensures later { kept_events two_alarms (log_of_events (Sweep 10 ∷ Silent 11 2 ∷ []))
        ≡ Silent 10 1 ∷ Silent 11 2 ∷ [] }
{}
