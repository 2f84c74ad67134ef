//! The lines of a forecast.

ghost use Rattle.tfpg_base.specs.Append.{Appends};
ghost use Rattle.tfpg_graph.specs.Graph.{sizes_of};
ghost use Rattle.tfpg_answers.specs.Forecasts.{outlook_text};
ghost use Rattle.tfpg_answers.specs.inside.Forecasting.{IsAskable, IsOutlookOf};

use itoa::Buffer;
use std::alloc::Global;
use tfpg_base::{NoMemory, append_line};
use tfpg_evidence::Finding;
use tfpg_graph::Graph;
use tfpg_predict::Outlook;
use tfpg_report::{append_activations, append_set, append_steps};

/// Appends the line of the finding with this outlook, then the trace that attains its time, and then the lines of its steps, with the
/// names of the probed graph.
pub(super) fn append_outlook(
    alloc: Global,
    graph: &Graph,
    probed: &Graph,
    finding: &Finding,
    outlook: &Outlook,
    into: &mut Vec<u8>,
) -> Result<(), NoMemory>
    requires askable { IsAskable graph.now finding.now }
    requires named { IsOutlookOf (sizes_of graph.now) (sizes_of probed.now) outlook.now }
    ensures { Appends result into.old.items into.new.items
        (outlook_text graph.now probed.now finding.entry.now outlook.entry.now) }
{
    let mut set = Vec::new(alloc);
    append_set(graph, finding.hypothesis(), &mut set)?;
    let mut number_digits = Buffer::new();
    let mut time_digits = Buffer::new();
    let number = number_digits.format(finding.number).as_bytes();
    match outlook {
        Outlook::Earliest {
            time,
            trace,
            earlier,
        } => {
            let time = time_digits.format(*time).as_bytes();
            append_line(
                into,
                &[b"forecast", number, b"set", &set, b"earliest", time],
            )?;
            append_activations(graph, trace.as_slice(), into)?;
            append_steps(probed, earlier.as_slice(), into)
        }
        Outlook::Never { steps } => {
            append_line(into, &[b"forecast", number, b"set", &set, b"never"])?;
            append_steps(probed, steps.as_slice(), into)
        }
        Outlook::Unsettled { bound, steps } => {
            let bound = time_digits.format(*bound).as_bytes();
            append_line(
                into,
                &[b"forecast", number, b"set", &set, b"unsettled", bound],
            )?;
            append_steps(probed, steps.as_slice(), into)
        }
    }
}
