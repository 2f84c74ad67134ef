//! There is only one simulation of a graph, a script and a number, and only one of what is generated.

ghost use Rattle.std.specs.Prelude.{◌≡◌, ℕ, List};
ghost use Rattle.tfpg_graph.specs.Graph.{Tfpg};
ghost use Rattle.tfpg_graph.specs.Valid.{IsValid};
ghost use Rattle.tfpg_sim.specs.declared.generating.Generated.{Generated};
ghost use Rattle.tfpg_sim.specs.declared.simulated.Simulated.{Simulated};
ghost use Rattle.tfpg_sim.specs.Generated.{generated_graph, generated_script};
ghost use Rattle.tfpg_sim.specs.Simulated.{IsSimulationOf};

/// A simulation is the only one of its graph, script and number: set, trace and log.
pub fn a_simulation_is_the_only_one()
    ensures { (graph : Tfpg) (script : List ℕ) (number : ℕ) (one other : Simulated) → IsValid graph →
        IsSimulationOf graph script number one → IsSimulationOf graph script number other → one ≡ other }
{}

/// What is generated is the only one of its number and size: graph and script.
pub fn what_is_generated_is_the_only_one()
    ensures { (number size : ℕ) (one other : Generated) →
        one.graph ≡ generated_graph number size → one.script ≡ generated_script number size →
        other.graph ≡ generated_graph number size → other.script ≡ generated_script number size →
        one ≡ other }
{}
