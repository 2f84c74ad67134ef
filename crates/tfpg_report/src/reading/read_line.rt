//! What a line of a report says.

ghost use Rattle.std.specs.Prelude.{◌≡◌, IfOk, IsErrOf};
ghost use Rattle.tfpg_report.specs.ReportLines.{Says};
ghost use Rattle.tfpg_report.specs.declared.report_line.ReportLine.{ReportLine as ALine};

use super::named_graph::NamedGraph;
use super::read_findings::line_in;
use crate::ReportLine;
use std::alloc::Global;
use tfpg_base::{NoMemory, Words};
use tfpg_graph::Graph;
use tfpg_log::is_too_long;

/// Why a line of a report is not read.
#[derive(Clone, Copy, PartialEq, Eq)]
pub enum LineRefusal {
    /// It says nothing that a line of a report can say.
    NotALine,
    /// Out of memory.
    NoMemory,
}

/// What a line of a report says. Takes time linear in its length, and memory for the members of its set alone.
///
/// # Errors
///
/// `NotALine` exactly where the line says nothing: its words have none of the shapes of a report's lines, it names what the
/// graph has not, a number is not of the form or above its limit, or it is too long.
pub fn read_report_line(
    alloc: Global,
    graph: &Graph,
    line: &[u8],
) -> Result<ReportLine, LineRefusal>
    ensures says { IfOk result (λ read. Says graph.now read line.now) }
    ensures none { IsErrOf result LineRefusal.NotALine → (read : ALine) →
        Says graph.now read line.now → ⊥ }
{
    read_named_line(alloc, &NamedGraph::unguessed(graph), line)
}

/// What a line of a report says, as `read_report_line` reads it.
pub(crate) fn read_named_line(
    alloc: Global,
    graph: &NamedGraph<'_>,
    line: &[u8],
) -> Result<ReportLine, LineRefusal>
    ensures says { IfOk result (λ read. Says graph.now read line.now) }
    ensures none { IsErrOf result LineRefusal.NotALine → (read : ALine) →
        Says graph.now read line.now → ⊥ }
{
    graph.is_always_valid();
    if is_too_long(line) {
        return Err(LineRefusal::NotALine);
    }
    match &Words::of(line) {
        Some(words) => line_in(alloc, graph, words.as_slice()),
        None => Err(LineRefusal::NotALine),
    }
}

impl From<NoMemory> for LineRefusal {
    ghost use Rattle.tfpg_report.specs.declared.reading.read_line.LineRefusal.TheVariants as refusal;

    ghost from_gives = { λ _ e. e ≡ refusal.NoMemory };

    fn from(_e: NoMemory) -> LineRefusal {
        LineRefusal::NoMemory
    }
}
