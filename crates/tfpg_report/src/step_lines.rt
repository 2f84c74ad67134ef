//! The lines of a step.

ghost use Rattle.std.specs.Prelude.{◌≡◌, ◌++◌, ◌∷◌, [], All, codes, decimal, flat_map, length};
ghost use Rattle.tfpg_base.specs.Append.{Appends};
ghost use Rattle.tfpg_evidence.specs.RoundOf.{IsReasonOf, IsStepOf};
ghost use Rattle.tfpg_base.specs.TextLine.{text_line};
ghost use Rattle.tfpg_graph.specs.Graph.{sizes_of};
ghost use Rattle.tfpg_report.specs.inside.Texts.{reason_text, step_text};

use crate::reason_line::append_reason;
use crate::split_line::append_split;
use itoa::Buffer;
use tfpg_base::{NoMemory, append_line};
use tfpg_evidence::{Reason, Step};
use tfpg_graph::Graph;

/// Appends the lines of a step.
pub(crate) fn append_step(graph: &Graph, step: &Step, into: &mut Vec<u8>) -> Result<(), NoMemory>
    requires { IsStepOf (sizes_of graph.now) step.now }
    ensures { Appends result into.old.items into.new.items (step_text graph.now step.now) }
{
    match step {
        Step::Split(clause) => append_split(graph, *clause, into),
        Step::Cycle(reasons) => append_cycle(graph, reasons.as_slice(), into),
        Step::Again => append_line(into, &[b"again"]),
    }
}

/// Appends the lines of a step that closes a leaf by these reasons.
fn append_cycle(graph: &Graph, reasons: &[Reason], into: &mut Vec<u8>) -> Result<(), NoMemory>
    requires { All (IsReasonOf (sizes_of graph.now)) reasons.now }
    ensures { Appends result into.old.items into.new.items
        (text_line (codes "cycle" ∷ decimal (length reasons.now) ∷ [])
        ++ flat_map (reason_text graph.now) reasons.now) }
{
    let mut digits = Buffer::new();
    append_line(into, &[b"cycle", digits.format(reasons.len()).as_bytes()])?;
    append_reasons(graph, reasons, into)
}

/// Appends the lines of the reasons.
fn append_reasons(graph: &Graph, reasons: &[Reason], into: &mut Vec<u8>) -> Result<(), NoMemory>
    requires { All (IsReasonOf (sizes_of graph.now)) reasons.now }
    ensures { Appends result into.old.items into.new.items (flat_map (reason_text graph.now) reasons.now) }
{
    for reason in reasons {
        append_reason(graph, *reason, into)?;
    }
    Ok(())
}
