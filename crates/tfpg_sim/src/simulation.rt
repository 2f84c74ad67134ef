//! The simulator.

ghost use Rattle.std.specs.Prelude.{IfOk, IfErr};
ghost use Rattle.tfpg_base.specs.Lines.{lines_of};
ghost use Rattle.tfpg_log.specs.Explains.{Explains};
ghost use Rattle.tfpg_log.specs.LogOfLines.{log_of_lines};
ghost use Rattle.tfpg_log.specs.AcceptedLog.{AreAccepted};
ghost use Rattle.tfpg_sim.specs.ScriptFaults.{IsSimFault};
ghost use Rattle.tfpg_sim.specs.Simulated.{IsSimulationOf};

use crate::alarms::log_events;
use crate::draws::draw_all;
use crate::entry::time_so_far;
use crate::fault::SimFault;
use crate::log_lines::log_text;
use crate::script::read_script;
use crate::simulated::Simulated;
use crate::started_set::started_set;
use crate::trace::trace_of;
use std::alloc::Global;
use tfpg_graph::Graph;

/// Simulates the script on the graph, with delays and latenesses drawn by the number.
///
/// A script is refused with the number of its first line at fault. Each line of the log is accepted, in their order, and
/// the trace explains the log from the set. Goes through no instants: the trace costs, for each edge,
/// the edges into its target times the changes of mode, and the log a walk over its lines for each alarm.
pub fn simulate(
    alloc: Global,
    graph: &Graph,
    script: &[u8],
    number: u64,
) -> Result<Simulated, SimFault>
    ensures simulated { IfOk result (IsSimulationOf graph.now script.now number) }
    ensures accepted { IfOk result (λ simulated. AreAccepted graph.now (lines_of simulated.log)) }
    ensures explained { IfOk result (λ simulated.
        Explains graph.now (log_of_lines graph.now (lines_of simulated.log)) simulated.set simulated.trace) }
    ensures fault { IfErr result (IsSimFault graph.now script.now) }
{
    graph.is_always_valid();
    let entries = read_script(alloc, graph, script)?;
    let draws = draw_all(alloc, graph, number)?;
    let trace = trace_of(alloc, graph, &entries, &draws.delays)?;
    let stop = time_so_far(&entries);
    let events = log_events(alloc, &entries, &trace, &draws.latenesses, stop)?;
    let log = log_text(alloc, graph, &events)?;
    let set = started_set(graph, &entries);
    Ok(Simulated { set, trace, log })
}
