//! The command `generate`: from a number and a size to what a diagnosis says of the system that they draw.

ghost use Rattle.std.specs.Prelude.{◌≡◌, ◌≤◌, [], IfOk, IfErr, OnOk, Ok, Err, length};
ghost use Rattle.tfpg_base.specs.declared.limits.TheConstants.{MAX_CASE_SIZE};
ghost use Rattle.tfpg_graph.specs.Graph.{failures};
ghost use Rattle.tfpg_sim.specs.declared.limits.TheConstants.{FAILURE_COUNT};
ghost use Rattle.tfpg_run.specs.EndsOf.{EndsBy, end_of_output_fault};
ghost use Rattle.tfpg_streams.specs.Outputs.{TextEnds};
ghost use Rattle.tfpg_run.specs.generate.Generating.{HasSummary};
ghost use Rattle.tfpg_run.specs.generate.Terms.{generated_terms};
ghost use Rattle.tfpg_diagnose.specs.Diagnosed.{HasDiagnosed};
ghost use Rattle.tfpg_run.specs.inside.generate.Drawn.{IsDrawn};

mod summary;

use crate::end::End;
use crate::limits::{GENERATED_BUDGET, GENERATED_K};
use std::alloc::Global;
use std::sync::ledger::Ledger;
use summary::summary_of;
use tfpg_base::{NoMemory, Sink, Steps, Terms};
use tfpg_diagnose::Diagnosis;
use tfpg_graph::Graph;
use tfpg_hyp::TableFault;
use tfpg_hyp::laws::rounds_say_which_sets_fit;
use tfpg_sim::laws::a_generated_script_is_right;
use tfpg_sim::{Generated, SimFault, Simulated, generate, simulate};
use tfpg_streams::{OutputFault, write_all};

/// A drawn graph, and the simulation of the script that was drawn with it.
#[derive(Drop)]
struct Drawn {
    graph: Graph,
    simulated: Simulated,
}

/// Draws a system by the number and the size, diagnoses it, and writes the summary.
pub(crate) fn generate_summary<K: Sink, L: Ledger>(
    alloc: Global,
    number: u64,
    size: u32,
    out: &mut K,
    work: &mut Steps<L>,
) -> Result<(), End>
    requires some { 1 ≤ size }
    requires few { size ≤ MAX_CASE_SIZE }
    ensures done { OnOk result (EndsBy (TextEnds (HasSummary number size) (K.state out.old) (K.state out.new))
        end_of_output_fault End.Done) }
    ensures stopped { IfErr result (EndsBy (TextEnds (HasSummary number size) (K.state out.old) (K.state out.new))
        end_of_output_fault) }
{
    Ok(write_summary(alloc, number, size, out, work)?)
}

/// Draws a graph and a script by the number and the size, simulates the script with the same number, diagnoses the log, and
/// writes three lines: what was drawn, what the last round says, and what it says of the simulated set.
fn write_summary<K: Sink, L: Ledger>(
    alloc: Global,
    number: u64,
    size: u32,
    out: &mut K,
    work: &mut Steps<L>,
) -> Result<(), OutputFault>
    requires some { 1 ≤ size }
    requires few { size ≤ MAX_CASE_SIZE }
    ensures done { OnOk result (TextEnds (HasSummary number size) (K.state out.old) (K.state out.new) (Ok tt)) }
    ensures stopped { IfErr result (λ fault. TextEnds (HasSummary number size) (K.state out.old) (K.state out.new)
        (Err fault)) }
{
    let text = drawn_summary(alloc, number, size, work)?;
    write_all(out, &text)?;
    Ok(())
}

/// The three lines.
fn drawn_summary<L: Ledger>(
    alloc: Global,
    number: u64,
    size: u32,
    work: &mut Steps<L>,
) -> Result<Vec<u8>, NoMemory>
    requires some { 1 ≤ size }
    requires few { size ≤ MAX_CASE_SIZE }
    ensures { IfOk result (λ text. HasSummary number size text.items) }
{
    rounds_say_which_sets_fit();
    let Drawn { graph, simulated } = draw_simulation(alloc, number, size)?;
    let mut diagnosis = new_diagnosis(alloc, graph)?;
    diagnosis.take_text(alloc, simulated.log.as_slice(), work)?;
    summary_of(alloc, number, size, &diagnosis, simulated.set)
}

/// Draws a graph and a script, and simulates the script. A drawn script is never at fault.
fn draw_simulation(alloc: Global, number: u64, size: u32) -> Result<Drawn, NoMemory>
    requires some { 1 ≤ size }
    requires few { size ≤ MAX_CASE_SIZE }
    ensures { IfOk result (λ drawn. IsDrawn number size drawn.graph drawn.simulated) }
{
    a_generated_script_is_right();
    let Generated { graph, script } = generate(alloc, number, size)?;
    match simulate(alloc, &graph, script.as_slice(), number) {
        Ok(simulated) => Ok(Drawn { graph, simulated }),
        Err(SimFault::NoMemory) => Err(NoMemory),
        Err(SimFault::BadScript { .. }) => unreachable!(),
    }
}

/// A diagnosis of no line. Of 16 failure modes there are 137 sets of at most 2, which are not too many.
fn new_diagnosis(alloc: Global, graph: Graph) -> Result<Diagnosis, NoMemory>
    requires { length (failures graph) ≡ FAILURE_COUNT }
    ensures { IfOk result (HasDiagnosed graph generated_terms []) }
{
    let terms = Terms {
        k: GENERATED_K,
        doubt: 0,
        budget: GENERATED_BUDGET,
    };
    match Diagnosis::new(alloc, graph, terms) {
        Ok(diagnosis) => Ok(diagnosis),
        Err(TableFault::NoMemory) => Err(NoMemory),
        Err(TableFault::TooMany { .. }) => unreachable!(),
    }
}
