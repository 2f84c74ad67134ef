//! A graph with a probe.

ghost use Rattle.std.specs.Prelude.{◌≡◌, IfOk};
ghost use Rattle.tfpg_graph.specs.Probe.{TakesProbe, with_probe, probe_edge};

use crate::edge::{Edge, all_modes};
use crate::graph::Graph;
use crate::kind::{Kind, Lag};
use std::alloc::Global;
use tfpg_base::NoMemory;

impl Graph {
    /// The graph with a probe: one more node, an OR node with this name and this lag in milliseconds, and one more edge, which
    /// leads to it from the source, takes no time and is active in all modes. So the probe becomes active at the same instant
    /// as the source. The numbers of all other nodes and edges stay. Takes time and memory linear in the graph.
    pub fn with_probe(
        &self,
        alloc: Global,
        name: &[u8],
        source: u32,
        lag: Lag,
    ) -> Result<Graph, NoMemory>
        requires { TakesProbe self.now name.now source lag }
        ensures { IfOk result (λ graph. graph ≡ with_probe self.now name.now source lag) }
    {
        self.is_always_valid();
        let edge = self.probe_edge(source);
        let copy = self.copy()?;
        let declared = copy.into_declared();
        let with_node = declared.with_node(alloc, name, Kind::Or { lag: Some(lag) })?;
        let with_edge = with_node.with_edge(edge)?;
        Ok(Graph::new(with_edge))
    }

    /// The edge from the source to the probe.
    fn probe_edge(&self, source: u32) -> Edge
        ensures { result ≡ probe_edge self.now source }
    {
        self.is_always_valid();
        Edge {
            source,
            target: self.node_count(),
            tmin: 0,
            tmax: Some(0),
            modes: all_modes(self.mode_count()),
        }
    }
}
