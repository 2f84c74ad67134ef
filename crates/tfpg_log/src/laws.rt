//! What the definitions of this crate come to, as functions that do nothing: each says its law in its clause.

ghost use Rattle.std.specs.Prelude.{◌≡◌, ℕ, ◌+◌, ◌≤◌, ◌↔◌, List, [], ◌∷◌, ◌++◌, length, All, IsTrue, false, Option, Some};
ghost use Rattle.std.specs.List.{flat_map};
ghost use Rattle.tfpg_base.specs.declared.activation.Activation.{Activation};
ghost use Rattle.tfpg_base.specs.Lines.{lines_of, HasNoLineEnd, is_too_long};
ghost use Rattle.tfpg_base.specs.Trace.{time_of};
ghost use Rattle.tfpg_base.specs.Words.{line_of};
ghost use Rattle.tfpg_graph.specs.declared.edge.Edge.{Edge};
ghost use Rattle.tfpg_graph.specs.Graph.{Tfpg, is_active_in, is_monitored, edges_into};
ghost use Rattle.tfpg_graph.specs.Reach.{Reaches};
ghost use Rattle.tfpg_graph.specs.Valid.{IsValid};
ghost use Rattle.tfpg_log.specs.declared.event.Event.{Event};
ghost use Rattle.tfpg_log.specs.declared.event.Offered.TheVariants.{Accepted};
ghost use Rattle.tfpg_log.specs.declared.interval.Interval.{Interval};
ghost use Rattle.tfpg_log.specs.declared.span.Span.{Span};
ghost use Rattle.tfpg_log.specs.declared.span.Window.{Window};
ghost use Rattle.tfpg_log.specs.Log.{Logbook, GoesOn, IsLogOf, IsOrdered, now_of, event_at, alarm_of, alarm_event, alarm_interval, inactive_until, mode_at, quiet_at, is_active_at};
ghost use Rattle.tfpg_log.specs.Quiet.{IsLastQuiet};
ghost use Rattle.tfpg_log.specs.LastAlarm.{IsLastAlarm};
ghost use Rattle.tfpg_log.specs.Rules.{IsActive, HasAge, IsAge};
ghost use Rattle.tfpg_log.specs.Spans.{span_number, span_at, are_active_at, window_of, joint_of};
ghost use Rattle.tfpg_log.specs.Runs.{IsSpanOf, IsWindowRound};
ghost use Rattle.tfpg_log.specs.Explains.{Explains, Fits, ShowsAlarm, ShowsSilence};
ghost use Rattle.tfpg_log.specs.Accepted.{reply_to};
ghost use Rattle.tfpg_log.specs.AcceptedLog.{AreAccepted};
ghost use Rattle.tfpg_log.specs.EventLines.{IsNextEvent, AreNextEvents, event_words, event_line};
ghost use Rattle.tfpg_log.specs.LogOfLines.{log_of_events, log_after, log_of_lines};
ghost use Rattle.tfpg_log.specs.LogStatements.{LogStatement, SaysLogStatement, log_statement_of};

mod larger_sets;
mod window_laws;

pub use larger_sets::a_larger_set_explains_as_well;
pub use window_laws::{
    age_is_first_reached_in_each_window, age_is_the_time_in_the_window,
    ages_at_once_are_the_time_in_the_joint_window, an_active_edge_has_one_window,
    joint_window_is_what_all_have_in_common,
};

/// A line of a log is read as a statement exactly where it is written with the words of that statement.
pub fn a_line_is_read_as_it_is_written()
    ensures { (line time : List ℕ) (statement : LogStatement) →
        (log_statement_of line ≡ Some (time, statement)) ↔ SaysLogStatement line time statement }
{}

/// The line of an event that may come next in a log is accepted as this event. It is not too long, and no byte of it ends a
/// line.
pub fn the_line_of_an_event_is_accepted()
    ensures accepted { (graph : Tfpg) (log : Logbook) (event : Event) →
        IsValid graph → IsNextEvent graph log event →
        reply_to graph log (line_of (event_words graph event)) ≡ Accepted event }
    ensures short { (graph : Tfpg) (log : Logbook) (event : Event) →
        IsValid graph → IsNextEvent graph log event → is_too_long (line_of (event_words graph event)) ≡ false }
    ensures clean { (graph : Tfpg) (log : Logbook) (event : Event) →
        IsValid graph → IsNextEvent graph log event → HasNoLineEnd (line_of (event_words graph event)) }
{}

/// The lines of events that may each come next after those before are accepted, one by one, and make the log of these
/// events.
pub fn the_lines_of_events_make_their_log()
    ensures log { (graph : Tfpg) (events : List Event) → IsValid graph → AreNextEvents graph events →
        log_of_lines graph (lines_of (flat_map (event_line graph) events)) ≡ log_of_events events }
    ensures each { (graph : Tfpg) (events : List Event) → IsValid graph → AreNextEvents graph events →
        AreAccepted graph (lines_of (flat_map (event_line graph) events)) }
{}

/// The log of a list of lines grows by one line at a time. It is of its graph, and its times never fall.
pub fn a_log_of_lines_is_of_its_graph()
    ensures grows { (graph : Tfpg) (lines : List (List ℕ)) (line : List ℕ) →
        log_of_lines graph (lines ++ line ∷ []) ≡ log_after graph (log_of_lines graph lines) line }
    ensures of { (graph : Tfpg) (lines : List (List ℕ)) → IsLogOf graph (log_of_lines graph lines) }
    ensures ordered { (graph : Tfpg) (lines : List (List ℕ)) → IsOrdered (log_of_lines graph lines) }
{}

/// The event that is a node's first alarm is an alarm of it at the time of its first alarm, and no alarm of the node has a
/// lower number. There is such an event exactly where the node has an alarm.
pub fn an_alarm_event_is_the_first_alarm()
    ensures event { (log : Logbook) (node number : ℕ) → alarm_event log node ≡ Some number →
        (time : ℕ) × (event_at log number ≡ Some (Event.Alarm time node)) × (alarm_of log node ≡ Some time) }
    ensures first { (log : Logbook) (node number time : ℕ) →
        event_at log number ≡ Some (Event.Alarm time node) →
        (first : ℕ) × (alarm_event log node ≡ Some first) × (first ≤ number) }
    ensures there { (log : Logbook) (node time : ℕ) → alarm_of log node ≡ Some time →
        (number : ℕ) × (alarm_event log node ≡ Some number) }
{}

/// Of the alarms of a node the first has the least time, and the last the greatest, since times never fall.
pub fn alarms_come_between_the_first_and_the_last()
    ensures first { (log : Logbook) → IsOrdered log → (node first number time : ℕ) →
        alarm_of log node ≡ Some first → event_at log number ≡ Some (Event.Alarm time node) → first ≤ time }
    ensures last { (log : Logbook) (node number : ℕ) → IsLastAlarm log node (Some number) →
        IsOrdered log → (time other earlier : ℕ) → event_at log number ≡ Some (Event.Alarm time node) →
        event_at log other ≡ Some (Event.Alarm earlier node) → earlier ≤ time }
{}

/// Of the events that say up to which instant a node is not active the last says so of the greatest instant, since times
/// never fall.
pub fn the_last_silence_has_the_greatest_time()
    ensures { (graph : Tfpg) (log : Logbook) (node number : ℕ) → IsLastQuiet graph log node (Some number) →
        IsOrdered log → (time other earlier : ℕ) → quiet_at graph log number node ≡ Some time →
        quiet_at graph log other node ≡ Some earlier → earlier ≤ time }
{}

/// What a trace shows of alarms and silences is what the look-ups of a log say. It shows an alarm of a monitored node that
/// became active at one of the instants that the alarm leaves, and a silence of a node that is not active by the instant up
/// to which the silence says so. If a look-up finds nothing, no more is asked.
pub fn what_is_shown_is_what_is_looked_up()
    ensures alarm { (graph : Tfpg) (log : Logbook) (trace : List Activation) (node time : ℕ) →
        ShowsAlarm graph log trace node time
        ↔ (IsTrue (is_monitored graph node)
        × ((interval : Interval) → alarm_interval graph log node time ≡ Some interval →
        (active : ℕ) × (time_of trace node ≡ Some active)
        × (interval.earliest ≤ active) × (active ≤ interval.latest))) }
    ensures silence { (graph : Tfpg) (log : Logbook) (trace : List Activation) (node time : ℕ) →
        ShowsSilence graph log trace node time
        ↔ ((until : ℕ) → inactive_until graph log node time ≡ Some until → IsActive trace node until → ⊥) }
{}

/// Nothing outside a set's reach becomes active: a trace that explains a log from a set activates only nodes that the
/// set reaches.
pub fn nothing_outside_reach()
    ensures { (graph : Tfpg) (log : Logbook) (set : List ℕ) (trace : List Activation) →
        IsValid graph → Explains graph log set trace →
        All (λ activation. Reaches graph set activation.node) trace }
{}

/// Without a failure mode nothing becomes active: the one trace that explains a log from the empty set is the empty
/// trace. So the empty set fits a log only where that trace explains it.
pub fn nothing_without_failures()
    ensures trace { (graph : Tfpg) (log : Logbook) (trace : List Activation) →
        IsValid graph → Explains graph log [] trace → trace ≡ [] }
    ensures fits { (graph : Tfpg) (log : Logbook) →
        IsValid graph → Fits graph log [] → Explains graph log [] [] }
{}

/// An edge has an age exactly where its source is active and the edge is active in the mode of the instant. There is then
/// one greatest age, and what is said of the age is that it is at least so much. It is at most the time since the source
/// became active, and from one instant to the next it grows by one, where the edge is active in the mode of the next.
pub fn age_is_the_greatest()
    ensures begins { (log : Logbook) (trace : List Activation) (edge : Edge) (instant : ℕ) →
        HasAge log trace edge instant 0
        ↔ (IsActive trace edge.source instant × IsTrue (is_active_at log edge instant)) }
    ensures lesser { (log : Logbook) (trace : List Activation) (edge : Edge) (instant age : ℕ) →
        HasAge log trace edge instant (age + 1) → HasAge log trace edge instant age }
    ensures bounded { (log : Logbook) (trace : List Activation) (edge : Edge) (instant age start : ℕ) →
        time_of trace edge.source ≡ Some start → HasAge log trace edge instant age → start + age ≤ instant }
    ensures found { (log : Logbook) (trace : List Activation) (edge : Edge) (instant : ℕ) →
        HasAge log trace edge instant 0 → (age : ℕ) × IsAge log trace edge instant age }
    ensures only_one { (log : Logbook) (trace : List Activation) (edge : Edge) (instant one other : ℕ) →
        IsAge log trace edge instant one → IsAge log trace edge instant other → one ≡ other }
    ensures grows { (log : Logbook) (trace : List Activation) (edge : Edge) (instant age : ℕ) →
        HasAge log trace edge (instant + 1) (age + 1)
        ↔ (HasAge log trace edge instant age × IsTrue (is_active_at log edge (instant + 1))) }
{}

/// A span is a maximal run of instants of one mode, and up to now each instant lies in the span of its number.
pub fn spans_are_runs_of_one_mode()
    ensures run { (log : Logbook) (number horizon : ℕ) (span : Span) →
        (span_at log number horizon ≡ Some span) ↔ IsSpanOf log number horizon span }
    ensures everywhere { (log : Logbook) (instant horizon : ℕ) → instant ≤ horizon → horizon ≤ now_of log →
        (span : Span) × (span_at log (span_number log instant) horizon ≡ Some span)
        × (span.lo ≤ instant) × (instant ≤ span.hi) }
{}

/// A window is a maximal run of spans in whose modes an edge is active, or all edges into a node are, and there is one
/// round each such span.
pub fn windows_are_runs_of_spans()
    ensures of_edge { (log : Logbook) (edge : Edge) (number horizon : ℕ) (window : Window) →
        (window_of log edge number horizon ≡ Some window)
        ↔ IsWindowRound log (is_active_at log edge) number horizon window }
    ensures of_edge_found { (log : Logbook) (edge : Edge) (number horizon : ℕ) (span : Span) →
        span_at log number horizon ≡ Some span → IsTrue (is_active_in edge span.mode) →
        (window : Window) × (window_of log edge number horizon ≡ Some window) }
    ensures of_node { (graph : Tfpg) (log : Logbook) (node number horizon : ℕ) (window : Window) →
        (joint_of graph log node number horizon ≡ Some window)
        ↔ IsWindowRound log (are_active_at graph log node) number horizon window }
    ensures of_node_found { (graph : Tfpg) (log : Logbook) (node number horizon : ℕ) (span : Span) →
        span_at log number horizon ≡ Some span →
        All (λ edge. IsTrue (is_active_in edge span.mode)) (edges_into graph node) →
        (window : Window) × (joint_of graph log node number horizon ≡ Some window) }
{}

/// A log that goes on keeps its past: what comes later has a time of at least the old now, and a change of mode holds
/// only after its own instant. So now does not fall; each instant up to the old now keeps its mode, the number of its
/// span, and the ages that edges have there in a trace; and at each horizon up to the old now each span and each window
/// stays as it was. Each event keeps its number, each node's first alarm its time and its number, and an event that was
/// there says the same of when nodes are not active. So the last alarm and the last silence of a node are the same or
/// later ones.
pub fn a_log_that_goes_on_keeps_the_past()
    ensures event { (earlier later : Logbook) → GoesOn earlier later →
        (number : ℕ) (event : Event) → event_at earlier number ≡ Some event →
        event_at later number ≡ Some event }
    ensures alarm { (earlier later : Logbook) → GoesOn earlier later →
        (node time : ℕ) → alarm_of earlier node ≡ Some time → alarm_of later node ≡ Some time }
    ensures alarm_event { (earlier later : Logbook) → GoesOn earlier later →
        (node number : ℕ) → alarm_event earlier node ≡ Some number → alarm_event later node ≡ Some number }
    ensures last_alarm { (earlier later : Logbook) → GoesOn earlier later →
        (node number : ℕ) → IsLastAlarm earlier node (Some number) →
        (last : Option ℕ) → IsLastAlarm later node last →
        (other : ℕ) × (last ≡ Some other) × (number ≤ other) }
    ensures silence { (graph : Tfpg) (earlier later : Logbook) → GoesOn earlier later →
        (number node : ℕ) → number ≤ length earlier.events →
        quiet_at graph later number node ≡ quiet_at graph earlier number node }
    ensures last_silence { (graph : Tfpg) (earlier later : Logbook) → GoesOn earlier later →
        (node number : ℕ) → IsLastQuiet graph earlier node (Some number) →
        (last : Option ℕ) → IsLastQuiet graph later node last →
        (other : ℕ) × (last ≡ Some other) × (number ≤ other) }
    ensures now { (earlier later : Logbook) → IsOrdered later → GoesOn earlier later →
        now_of earlier ≤ now_of later }
    ensures mode { (earlier later : Logbook) → IsOrdered later → GoesOn earlier later →
        (instant : ℕ) → instant ≤ now_of earlier → mode_at later instant ≡ mode_at earlier instant }
    ensures number { (earlier later : Logbook) → IsOrdered later → GoesOn earlier later →
        (instant : ℕ) → instant ≤ now_of earlier → span_number later instant ≡ span_number earlier instant }
    ensures span { (earlier later : Logbook) → IsOrdered later → GoesOn earlier later →
        (number horizon : ℕ) → horizon ≤ now_of earlier →
        span_at later number horizon ≡ span_at earlier number horizon }
    ensures window { (earlier later : Logbook) → IsOrdered later → GoesOn earlier later →
        (number horizon : ℕ) → horizon ≤ now_of earlier →
        (edge : Edge) → window_of later edge number horizon ≡ window_of earlier edge number horizon }
    ensures joint { (earlier later : Logbook) → IsOrdered later → GoesOn earlier later →
        (number horizon : ℕ) → horizon ≤ now_of earlier →
        (graph : Tfpg) (node : ℕ) → joint_of graph later node number horizon
        ≡ joint_of graph earlier node number horizon }
    ensures age { (earlier later : Logbook) → IsOrdered later → GoesOn earlier later →
        (trace : List Activation) (edge : Edge) (instant age : ℕ) → instant ≤ now_of earlier →
        HasAge later trace edge instant age ↔ HasAge earlier trace edge instant age }
{}
