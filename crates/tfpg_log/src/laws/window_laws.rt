//! What windows say of the ages of edges, with no counting back through instants, as functions that do nothing: each
//! says its law in its clauses.

ghost use Rattle.std.specs.Prelude.{◌≡◌, ℕ, ◌+◌, ◌-◌, ◌<◌, ◌≤◌, ◌↔◌, max, List, All, Contains, IsTrue, Some};
ghost use Rattle.tfpg_base.specs.declared.activation.Activation.{Activation};
ghost use Rattle.tfpg_base.specs.Trace.{time_of};
ghost use Rattle.tfpg_graph.specs.declared.edge.Edge.{Edge};
ghost use Rattle.tfpg_graph.specs.Graph.{Tfpg, edges_into};
ghost use Rattle.tfpg_log.specs.declared.span.Window.{Window};
ghost use Rattle.tfpg_log.specs.Log.{Logbook, now_of, is_active_at};
ghost use Rattle.tfpg_log.specs.Rules.{IsActive, HasAge, IsAge};
ghost use Rattle.tfpg_log.specs.Spans.{span_number, are_active_at, window_of, joint_of};
ghost use Rattle.tfpg_log.specs.AgeInWindow.{HasAgeInWindow};

/// An edge has one window round each instant at which it is active, and none round another.
///
/// - `window`, `inside`: there is a window round the span of an instant exactly where the edge is active in the mode of
///   the instant, and the instant lies in that window.
/// - `throughout`: a window is the one round the span of each of its instants.
/// - `begins`: at each horizon from the instant on, its window begins at the same instant.
pub fn an_active_edge_has_one_window()
    ensures window { (log : Logbook) (edge : Edge) (instant horizon : ℕ) →
        instant ≤ horizon → horizon ≤ now_of log → IsTrue (is_active_at log edge instant) →
        (window : Window) × (window_of log edge (span_number log instant) horizon ≡ Some window)
        × (window.lo ≤ instant) × (instant ≤ window.hi) }
    ensures inside { (log : Logbook) (edge : Edge) (instant horizon : ℕ) (window : Window) →
        instant ≤ horizon → window_of log edge (span_number log instant) horizon ≡ Some window →
        (window.lo ≤ instant) × (instant ≤ window.hi) × IsTrue (is_active_at log edge instant) }
    ensures throughout { (log : Logbook) (edge : Edge) (number horizon instant : ℕ) (window : Window) →
        window_of log edge number horizon ≡ Some window → window.lo ≤ instant → instant ≤ window.hi →
        window_of log edge (span_number log instant) horizon ≡ Some window }
    ensures begins { (log : Logbook) (edge : Edge) (instant horizon further : ℕ) (window other : Window) →
        instant ≤ horizon → window_of log edge (span_number log instant) horizon ≡ Some window →
        instant ≤ further → window_of log edge (span_number log instant) further ≡ Some other →
        window.lo ≡ other.lo }
{}

/// The age of an edge is the time since the later of two: the beginning of its window, and the time of its source.
///
/// - `at_least`: at an instant in a window the edge has an age of at least so much exactly where the window began, and
///   its source became active, so long before.
/// - `exactly`: at each instant up to a horizon that is not after now, the edge has an age of at least so much exactly
///   where there is a window round the span of the instant that began so long before, and its source became active so
///   long before.
/// - `only_there`: it has an age only where it is active and its source became active so long before.
/// - `age`: at an instant in a window, from the time of its source on, the age is the time since the later of the two.
/// - `stays`: an age of at least so much, once it is reached, stays to the end of the window.
pub fn age_is_the_time_in_the_window()
    ensures at_least { (log : Logbook) (trace : List Activation) (edge : Edge)
        (number horizon instant age start : ℕ) (window : Window) →
        window_of log edge number horizon ≡ Some window → window.lo ≤ instant → instant ≤ window.hi →
        time_of trace edge.source ≡ Some start →
        HasAge log trace edge instant age ↔ ((window.lo + age ≤ instant) × (start + age ≤ instant)) }
    ensures exactly { (log : Logbook) (trace : List Activation) (edge : Edge) (instant horizon age : ℕ) →
        instant ≤ horizon → horizon ≤ now_of log →
        HasAge log trace edge instant age
        ↔ HasAgeInWindow (window_of log edge (span_number log instant) horizon) trace edge instant age }
    ensures only_there { (log : Logbook) (trace : List Activation) (edge : Edge) (instant age : ℕ) →
        HasAge log trace edge instant age →
        IsTrue (is_active_at log edge instant)
        × (start : ℕ) × (time_of trace edge.source ≡ Some start) × (start + age ≤ instant) }
    ensures age { (log : Logbook) (trace : List Activation) (edge : Edge)
        (number horizon instant start : ℕ) (window : Window) →
        window_of log edge number horizon ≡ Some window → window.lo ≤ instant → instant ≤ window.hi →
        time_of trace edge.source ≡ Some start → start ≤ instant →
        IsAge log trace edge instant (instant - max window.lo start) }
    ensures stays { (log : Logbook) (trace : List Activation) (edge : Edge)
        (number horizon instant later age : ℕ) (window : Window) →
        window_of log edge number horizon ≡ Some window → window.lo ≤ instant →
        instant ≤ later → later ≤ window.hi →
        HasAge log trace edge instant age → HasAge log trace edge later age }
{}

/// In each window an age of at least so much is first reached so long after the later of two, the beginning of the
/// window and the time of the source, where the window has room for it. So a node is active at all instants at which an
/// edge has such an age exactly where it is active at the first of them: `in_one`, of the instants of one window;
/// `in_all`, of all instants up to a horizon that is not after now.
pub fn age_is_first_reached_in_each_window()
    ensures in_one { (log : Logbook) (trace : List Activation) (edge : Edge)
        (number horizon age start node : ℕ) (window : Window) →
        window_of log edge number horizon ≡ Some window → time_of trace edge.source ≡ Some start →
        ((instant : ℕ) → window.lo ≤ instant → instant ≤ window.hi →
        HasAge log trace edge instant age → IsActive trace node instant)
        ↔ (max window.lo start + age ≤ window.hi → IsActive trace node (max window.lo start + age)) }
    ensures in_all { (log : Logbook) (trace : List Activation) (edge : Edge) (horizon age start node : ℕ) →
        horizon ≤ now_of log → time_of trace edge.source ≡ Some start →
        ((instant : ℕ) → instant ≤ horizon →
        HasAge log trace edge instant age → IsActive trace node instant)
        ↔ ((number : ℕ) (window : Window) → window_of log edge number horizon ≡ Some window →
        max window.lo start + age ≤ window.hi → IsActive trace node (max window.lo start + age)) }
{}

/// A joint window is what the windows of all edges into a node have in common.
///
/// - `window`, `inside`: there is a joint window round the span of an instant exactly where all edges into the node are
///   active in the mode of the instant, and the instant lies in that window.
/// - `throughout`: a joint window is the one round the span of each of its instants.
/// - `of_each`: it lies in the window of each edge into the node, round the same span.
/// - `begins`: it begins at 0, or with the window of some edge into the node.
/// - `ends`: it ends at the horizon, or with the window of some edge into the node.
pub fn joint_window_is_what_all_have_in_common()
    ensures window { (graph : Tfpg) (log : Logbook) (node instant horizon : ℕ) →
        instant ≤ horizon → horizon ≤ now_of log → IsTrue (are_active_at graph log node instant) →
        (joint : Window) × (joint_of graph log node (span_number log instant) horizon ≡ Some joint)
        × (joint.lo ≤ instant) × (instant ≤ joint.hi) }
    ensures inside { (graph : Tfpg) (log : Logbook) (node instant horizon : ℕ) (joint : Window) →
        instant ≤ horizon → joint_of graph log node (span_number log instant) horizon ≡ Some joint →
        (joint.lo ≤ instant) × (instant ≤ joint.hi) × IsTrue (are_active_at graph log node instant) }
    ensures throughout { (graph : Tfpg) (log : Logbook) (node number horizon instant : ℕ) (joint : Window) →
        joint_of graph log node number horizon ≡ Some joint → joint.lo ≤ instant → instant ≤ joint.hi →
        joint_of graph log node (span_number log instant) horizon ≡ Some joint }
    ensures of_each { (graph : Tfpg) (log : Logbook)
        (node number horizon : ℕ) (joint : Window) (edge : Edge) →
        joint_of graph log node number horizon ≡ Some joint → Contains (edges_into graph node) edge →
        (window : Window) × (window_of log edge number horizon ≡ Some window)
        × (window.lo ≤ joint.lo) × (joint.hi ≤ window.hi) }
    ensures begins { (graph : Tfpg) (log : Logbook) (node number horizon : ℕ) (joint : Window) →
        joint_of graph log node number horizon ≡ Some joint → 0 < joint.lo →
        (edge : Edge) × Contains (edges_into graph node) edge
        × (window : Window) × (window_of log edge number horizon ≡ Some window) × (window.lo ≡ joint.lo) }
    ensures ends { (graph : Tfpg) (log : Logbook) (node number horizon : ℕ) (joint : Window) →
        joint_of graph log node number horizon ≡ Some joint → joint.hi < horizon →
        (edge : Edge) × Contains (edges_into graph node) edge
        × (window : Window) × (window_of log edge number horizon ≡ Some window) × (window.hi ≡ joint.hi) }
{}

/// The ages of the edges into a node, at an instant in a joint window of it.
///
/// - `all_at_least`: all edges have an age of at least so much exactly where the joint window began so long before, and
///   each source was active by then.
/// - `each_its_own`: one of the edges has an age of at least so much exactly where its own window round the same span
///   began, and its source became active, so long before.
pub fn ages_at_once_are_the_time_in_the_joint_window()
    ensures all_at_least { (graph : Tfpg) (log : Logbook) (trace : List Activation)
        (node number horizon instant age : ℕ) (joint : Window) →
        joint_of graph log node number horizon ≡ Some joint → joint.lo ≤ instant → instant ≤ joint.hi →
        age ≤ instant →
        All (λ edge. HasAge log trace edge instant age) (edges_into graph node)
        ↔ ((joint.lo + age ≤ instant)
        × All (λ edge. IsActive trace edge.source (instant - age)) (edges_into graph node)) }
    ensures each_its_own { (graph : Tfpg) (log : Logbook) (trace : List Activation)
        (node number horizon instant age : ℕ) (joint : Window) (edge : Edge) →
        joint_of graph log node number horizon ≡ Some joint → joint.lo ≤ instant → instant ≤ joint.hi →
        Contains (edges_into graph node) edge →
        HasAge log trace edge instant age ↔ HasAgeInWindow (window_of log edge number horizon) trace edge instant age }
{}
