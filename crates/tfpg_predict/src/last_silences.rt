//! The last silence of each node.

ghost use Rattle.std.specs.Prelude.{◌≡◌, length, map, IfOk};
ghost use Rattle.std.specs.List.{range_with_len};
ghost use Rattle.tfpg_predict.specs.inside.KeptEvents.{last_silence};

use std::alloc::Global;
use tfpg_base::NoMemory;
use tfpg_graph::Graph;
use tfpg_log::Log;

/// For each node the number of the last event that is a silence of it, where there is one. Takes time linear in the product of
/// the nodes and the events at most.
pub(crate) fn last_silences(
    alloc: Global,
    graph: &Graph,
    log: &Log,
) -> Result<Vec<Option<u32>>, NoMemory>
    ensures { IfOk result (λ last. last.items
        ≡ map (last_silence graph.now log.now) (range_with_len 0 (length graph.now.nodes))) }
{
    let mut last = Vec::new(alloc);
    for node in 0..graph.node_count() {
        last.push(last_silence(graph, log, node))?;
    }
    Ok(last)
}

/// The number of the last event that is a silence of the node, where there is one.
fn last_silence(graph: &Graph, log: &Log, node: u32) -> Option<u32>
    ensures { result ≡ last_silence graph.now log.now node }
{
    let mut number = log.len();
    while number > 0 {
        if log.silence_at(graph, number, node).is_some() {
            return Some(number);
        }
        number -= 1;
    }
    None
}
