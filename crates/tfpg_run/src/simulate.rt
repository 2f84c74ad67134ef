//! The command `simulate`: from the names of a graph file and a script file to the log or the map that the script makes.

ghost use Rattle.std.specs.Prelude.{◌≡◌, ◌<◌, All, IfOk, IfErr, OnOk, if◌then◌else◌, length};
ghost use Rattle.tfpg_base.specs.Hypothesis.{believing};
ghost use Rattle.tfpg_base.specs.Outside.{SourceState};
ghost use Rattle.tfpg_graph.specs.Graph.{AreFailures};
ghost use Rattle.tfpg_map.specs.MapText.{map_text};
ghost use Rattle.tfpg_sim.specs.ScriptFaults.{IsSimFault};
ghost use Rattle.tfpg_run.specs.simulate.Simulating.{HasSimulation, SimulateEnds};
ghost use Rattle.tfpg_panel.specs.Desk.{DeskState};
ghost use Rattle.tfpg_run.specs.World.{world};

use crate::end::End;
use crate::fetching::fetch_graph_and_text;
use std::alloc::Global;
use tfpg_base::{NoMemory, Shelf, Sink};
use tfpg_graph::Graph;
use tfpg_log::laws::a_log_of_lines_is_of_its_graph;
use tfpg_map::map_text;
use tfpg_sim::{SimFault, Simulated, simulate};
use tfpg_streams::write_all;

/// Simulates the script of the one file on the graph of the other, with delays and latenesses drawn by the number, and
/// writes the log; or, where the trace is asked for, the map of the set and the trace.
pub(crate) fn simulate_files<F: Shelf, K: Sink>(
    alloc: Global,
    graph_name: &str,
    script_name: &str,
    draw: u64,
    trace: bool,
    shelf: &mut F,
    out: &mut K,
) -> Result<(), End>
    ensures done { (input : SourceState) (desk : DeskState) → OnOk result (SimulateEnds (HasSimulation draw trace)
        graph_name.now script_name.now
        (world (F.state shelf.old) input (K.state out.old) desk)
        (world (F.state shelf.new) input (K.state out.new) desk) End.Done) }
    ensures stopped { (input : SourceState) (desk : DeskState) → IfErr result (SimulateEnds (HasSimulation draw trace)
        graph_name.now script_name.now
        (world (F.state shelf.old) input (K.state out.old) desk)
        (world (F.state shelf.new) input (K.state out.new) desk)) }
{
    let (graph, script) = fetch_graph_and_text(alloc, shelf, graph_name, script_name)?;
    let text = simulation_text(alloc, &graph, &script, draw, trace)?;
    write_all(out, &text)?;
    Ok(())
}

/// The text of the simulation of the script on the graph.
fn simulation_text(
    alloc: Global,
    graph: &Graph,
    script: &[u8],
    draw: u64,
    trace: bool,
) -> Result<Vec<u8>, SimFault>
    ensures text { IfOk result (λ text. HasSimulation draw trace graph.now script.now text.items) }
    ensures fault { IfErr result (IsSimFault graph.now script.now) }
{
    let simulated = simulate(alloc, graph, script, draw)?;
    graph.is_always_valid();
    let _rising = simulated.set.len();
    a_log_of_lines_is_of_its_graph();
    Ok(text_of(alloc, graph, simulated, trace)?)
}

/// The text of a simulation: its map where the trace is asked for, else its log.
fn text_of(
    alloc: Global,
    graph: &Graph,
    simulated: Simulated,
    trace: bool,
) -> Result<Vec<u8>, NoMemory>
    requires members { AreFailures graph.now simulated.set }
    requires within { All (λ activation. activation.node < length graph.now.nodes) simulated.trace }
    ensures { IfOk result (λ text. text.items ≡ (if trace then map_text graph.now (believing simulated.set) simulated.trace else simulated.log)) }
{
    if trace {
        map_text(alloc, graph, simulated.set, &simulated.trace)
    } else {
        Ok(simulated.log.into_vec())
    }
}
