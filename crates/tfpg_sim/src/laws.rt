//! What the definitions of this crate come to, as functions that do nothing: each says its law in its clause.

ghost use Rattle.std.specs.Prelude.{◌≡◌, ℕ, ◌≤◌, ◌<◌, List, Err, length};
ghost use Rattle.tfpg_base.specs.declared.limits.TheConstants.{MAX_CASE_SIZE};
ghost use Rattle.tfpg_base.specs.declared.activation.Activation.{Activation};
ghost use Rattle.tfpg_base.specs.Set.{IsSet};
ghost use Rattle.tfpg_graph.specs.Graph.{Tfpg, failures};
ghost use Rattle.tfpg_graph.specs.Valid.{IsValid};
ghost use Rattle.tfpg_base.specs.Lines.{lines_of};
ghost use Rattle.tfpg_log.specs.Explains.{Explains};
ghost use Rattle.tfpg_log.specs.LogOfLines.{log_of_lines};
ghost use Rattle.tfpg_log.specs.Rules.{KeepsMay, KeepsMust};
ghost use Rattle.tfpg_sim.specs.declared.entry.Entry.{Entry};
ghost use Rattle.tfpg_sim.specs.declared.simulated.Simulated.{Simulated};
ghost use Rattle.tfpg_log.specs.AcceptedLog.{AreAccepted};
ghost use Rattle.tfpg_sim.specs.Simulated.{IsSimulationOf};
ghost use Rattle.tfpg_sim.specs.Script.{IsScriptFault, time_so_far};
ghost use Rattle.tfpg_sim.specs.Draws.{delays, latenesses};
ghost use Rattle.tfpg_sim.specs.SimulatedLog.{log_events};
ghost use Rattle.tfpg_sim.specs.Generated.{generated_graph, generated_script};
ghost use Rattle.tfpg_sim.specs.declared.limits.TheConstants.{FAILURE_COUNT};
ghost use Rattle.tfpg_sim.specs.Simulation.{IsSimulated, script_log};

mod only_ones;

pub use only_ones::{a_simulation_is_the_only_one, what_is_generated_is_the_only_one};

/// The simulated trace keeps the propagation rules at each instant up to the stop, in the modes of the script: since each
/// delay lies between the least and the greatest one of its edge.
pub fn a_simulated_trace_keeps_the_rules()
    ensures { (graph : Tfpg) (entries : List Entry) (number : ℕ) (trace : List Activation) → IsValid graph →
        IsSimulated graph entries (delays graph number) trace →
        (node instant : ℕ) → node < length graph.nodes → instant ≤ time_so_far entries →
        KeepsMay graph (script_log entries) trace node instant ×
        KeepsMust graph (script_log entries) trace node instant }
{}

/// The lines of a simulated log are all accepted, in their order, and make its events: the script's own with the alarms
/// among them. The simulated trace explains their log from the simulated set.
pub fn a_simulated_log_is_accepted_and_explained()
    ensures accepted { (graph : Tfpg) (script : List ℕ) (number : ℕ) (simulated : Simulated) →
        IsValid graph → IsSimulationOf graph script number simulated →
        AreAccepted graph (lines_of simulated.log) }
    ensures events { (graph : Tfpg) (script : List ℕ) (number : ℕ) (simulated : Simulated) →
        IsValid graph → (is : IsSimulationOf graph script number simulated) →
        (log_of_lines graph (lines_of simulated.log)).events ≡
        log_events is.entries simulated.trace (latenesses graph number) (time_so_far is.entries) }
    ensures explained { (graph : Tfpg) (script : List ℕ) (number : ℕ) (simulated : Simulated) →
        IsValid graph → IsSimulationOf graph script number simulated →
        Explains graph (log_of_lines graph (lines_of simulated.log)) simulated.set simulated.trace }
{}

/// A generated graph is valid: each edge leads to a later node, which is a discrepancy.
pub fn a_generated_graph_is_valid()
    ensures { (number size : ℕ) → 1 ≤ size → size ≤ MAX_CASE_SIZE → IsValid (generated_graph number size) }
{}

/// A generated script is never at fault on its graph, which has 16 failure modes. It starts one of them or two, whatever the number
/// that its delays are drawn by, and its log has a line.
pub fn a_generated_script_is_right()
    ensures failures { (number size : ℕ) → length (failures (generated_graph number size)) ≡ FAILURE_COUNT }
    ensures right { (number size line : ℕ) → 1 ≤ size → size ≤ MAX_CASE_SIZE →
        IsScriptFault (generated_graph number size) (lines_of (generated_script number size)) line → ⊥ }
    ensures set { (number size draw : ℕ) (simulated : Simulated) → 1 ≤ size → size ≤ MAX_CASE_SIZE →
        IsSimulationOf (generated_graph number size) (generated_script number size) draw simulated →
        IsSet simulated.set × (length simulated.set ≤ 2) }
    ensures log { (number size draw : ℕ) (simulated : Simulated) → 1 ≤ size → size ≤ MAX_CASE_SIZE →
        IsSimulationOf (generated_graph number size) (generated_script number size) draw simulated →
        0 < length (lines_of simulated.log) }
{}
