//! The set of failure modes that a script starts.

ghost use Rattle.std.specs.Prelude.{◌≡◌, ◌<◌, All, IfSome, IsTrue};
ghost use Rattle.tfpg_base.specs.declared.limits.TheConstants.{MAX_MEMBERS};
ghost use Rattle.tfpg_graph.specs.Graph.{is_kind_at, is_failure, position_of_failure};
ghost use Rattle.tfpg_sim.specs.Script.{IsEntryOf};
ghost use Rattle.tfpg_sim.specs.SimulatedLog.{set_of, with_started};

use crate::entry::Entry;
use tfpg_base::Set;
use tfpg_graph::Graph;

/// The set of the failure modes that the script starts.
pub(crate) fn started_set(graph: &Graph, entries: &[Entry]) -> Set
    requires { All (IsEntryOf graph.now) entries.now }
    ensures { result ≡ set_of graph.now entries.now }
{
    let mut set = Set::empty();
    for entry in entries {
        set = with_started(graph, set, *entry);
    }
    set
}

/// The set with the failure mode that the line starts.
fn with_started(graph: &Graph, set: Set, entry: Entry) -> Set
    requires { IsEntryOf graph.now entry }
    ensures { result ≡ with_started graph.now set entry }
{
    match entry {
        Entry::Start { node, .. } => match position_of(graph, node) {
            Some(position) => set.with(position),
            None => set,
        },
        Entry::Mode { .. } | Entry::Sweep { .. } | Entry::Tick { .. } | Entry::Stop { .. } => set,
    }
}

/// The position of the failure mode.
fn position_of(graph: &Graph, node: u32) -> Option<u32>
    requires { IsTrue (is_kind_at is_failure graph.now node) }
    ensures position { result ≡ position_of_failure graph.now node }
    ensures small { IfSome result (λ position. position < MAX_MEMBERS) }
{
    graph.is_always_valid();
    graph.place_of(node)
}
