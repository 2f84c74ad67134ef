//! The monitored nodes of a graph.

ghost use Rattle.std.specs.Prelude.{◌≡◌, length, IfOk};
ghost use Rattle.tfpg_hyp.specs.Table.{monitors};

use std::alloc::Global;
use tfpg_base::NoMemory;
use tfpg_graph::Graph;

/// How many nodes are monitored.
pub(crate) fn monitor_count(graph: &Graph) -> u32
    ensures { result ≡ length (monitors graph.now) }
{
    let mut count = 0;
    for node in 0..graph.node_count() {
        if graph.is_monitored(node) {
            count += 1;
        }
    }
    count
}

/// The nodes that are monitored, in order.
pub(crate) fn monitors_of(alloc: Global, graph: &Graph) -> Result<Vec<u32>, NoMemory>
    ensures { IfOk result (λ nodes. nodes.items ≡ monitors graph.now) }
{
    let mut nodes = Vec::new(alloc);
    for node in 0..graph.node_count() {
        if graph.is_monitored(node) {
            nodes.push(node)?;
        }
    }
    Ok(nodes)
}
