//! The generator: a graph and a script for it, drawn by a number.

ghost use Rattle.std.specs.Prelude.{◌≡◌, ◌≤◌, IfOk};
ghost use Rattle.tfpg_base.specs.declared.limits.TheConstants.{MAX_CASE_SIZE};
ghost use Rattle.tfpg_graph.specs.Valid.{IsValid};
ghost use Rattle.tfpg_sim.specs.Generated.{generated_graph, generated_script};

mod draft;
mod drawn_name;
mod draws;
mod graph_text;
mod script_text;

use crate::generating::draft::draw_draft;
use crate::generating::graph_text::drawn_graph;
use crate::generating::script_text::draw_script;
use crate::limits::GRAPH_STREAM;
use rand_pcg::Lcg64Xsh32;
use std::alloc::Global;
use tfpg_base::{Bytes, NoMemory};
use tfpg_graph::Graph;

/// A drawn graph, and a script that starts one or two of its failure modes.
#[derive(Drop)]
pub struct Generated {
    /// Sixteen failure modes, four times the size in discrepancies, and two modes.
    pub graph: Graph,
    /// The lines of the script.
    pub script: Bytes,
}

/// Draws a graph and a script by the number: the same for the same number and size.
///
/// Each discrepancy has one or two sources with a lower number, so the graph is valid. Takes time and memory linear in the
/// size, but for look-ups by name.
pub fn generate(alloc: Global, number: u64, size: u32) -> Result<Generated, NoMemory>
    requires some { 1 ≤ size }
    requires few { size ≤ MAX_CASE_SIZE }
    ensures graph { IfOk result (λ generated. generated.graph ≡ generated_graph number size) }
    ensures valid { IfOk result (λ generated. IsValid generated.graph) }
    ensures script { IfOk result (λ generated. generated.script ≡ generated_script number size) }
{
    let mut state = Lcg64Xsh32::new(number, GRAPH_STREAM);
    let draft = draw_draft(alloc, 4 * size, &mut state)?;
    let script = draw_script(alloc, &mut state)?;
    let graph = drawn_graph(alloc, &draft)?;
    Ok(Generated { graph, script })
}
