//! The text of a map.

ghost use Rattle.std.specs.Prelude.{◌≡◌, ◌<◌, All, IfOk, length};
ghost use Rattle.tfpg_base.specs.Hypothesis.{believing};
ghost use Rattle.tfpg_graph.specs.Graph.{AreFailures};
ghost use Rattle.tfpg_map.specs.MapText.{map_text};

use std::alloc::Global;
use tfpg_base::{Hypothesis, NoMemory, Set, Trace};
use tfpg_graph::Graph;
use tfpg_report::{append_activations, append_set_line};

/// The text of a map that ignores no monitor: the line of the set, and then the line of each activation, by rising nodes. It
/// has the form that `explain` reads.
pub fn map_text(alloc: Global, graph: &Graph, set: Set, trace: &Trace) -> Result<Vec<u8>, NoMemory>
    requires members { AreFailures graph.now set }
    requires within { All (λ activation. activation.node < length graph.now.nodes) trace.now }
    ensures { IfOk result (λ text. text.items ≡ map_text graph.now (believing set) trace.now) }
{
    let mut text = Vec::new(alloc);
    append_set_line(graph, &[b"set "], Hypothesis::believing(set), &mut text)?;
    append_activations(graph, trace.as_slice(), &mut text)?;
    Ok(text)
}
