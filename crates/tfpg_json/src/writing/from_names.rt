//! Names as texts: they have no bytes but those of ASCII.

ghost use Rattle.std.specs.Prelude.{◌≡◌, ◌<◌, IfOk, IsTrue, Some, length, slice_get, string_bytes};
ghost use Rattle.tfpg_base.specs.Words.{is_name};
ghost use Rattle.tfpg_graph.specs.Graph.{failures, failure_word, name_at, name_word};
ghost use Rattle.tfpg_graph.specs.Members.{doubt_word};

use std::alloc::Global;
use tfpg_base::NoMemory;
use tfpg_graph::Graph;

/// The name of a node.
pub(crate) fn node_name(graph: &Graph, node: u32) -> &str
    requires { node < length graph.now.nodes }
    ensures at { name_at graph.now node ≡ Some result.now }
    ensures word { result.now ≡ name_word graph.now node }
{
    graph.is_always_valid();
    name_text(graph.name(node))
}

/// The name of a failure mode, by its position.
pub(crate) fn failure_name(graph: &Graph, position: u32) -> &str
    requires { position < length (failures graph.now) }
    ensures { result.now ≡ failure_word graph.now position }
{
    node_name(graph, graph.failure_node(position))
}

/// The word for a monitor that is not believed, by its node: its name with a `!` before it.
pub(crate) fn doubt_word(alloc: Global, graph: &Graph, node: u32) -> Result<String, NoMemory>
    requires { node < length graph.now.nodes }
    ensures { IfOk result (λ word. string_bytes word ≡ doubt_word graph.now node) }
{
    let mut word = String::from_str(alloc, "!")?;
    word.push_str(node_name(graph, node))?;
    Ok(word)
}

/// The name of a mode.
pub(crate) fn mode_name(graph: &Graph, mode: u32) -> &str
    requires { mode < length graph.now.modes }
    ensures { slice_get graph.now.modes mode ≡ Some result.now }
{
    graph.is_always_valid();
    name_text(graph.mode_name(mode))
}

/// A name as a text.
fn name_text(name: &[u8]) -> &str
    requires { IsTrue (is_name name.now) }
    ensures { result.now ≡ name.now }
{
    str::from_utf8(name).unwrap()
}
