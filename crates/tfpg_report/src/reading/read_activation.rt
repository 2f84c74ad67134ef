//! The line of an activation, read at once. Most lines of a report with traces are such lines.

ghost use Rattle.std.specs.Prelude.{◌≡◌, ◌≤◌, ◌++◌, ◌∷◌, IfSome, codes, length};
ghost use Rattle.tfpg_report.specs.ReportLines.{Says};
ghost use Rattle.tfpg_report.specs.declared.report_line.ReportLine.TheVariants.{At};

use super::first_words::number_within;
use super::named_graph::NamedGraph;
use tfpg_base::{Activation, MAX_TIME};
use tfpg_log::is_too_long;

/// The activation that the line says, if it says one.
pub(crate) fn activation_in(graph: &NamedGraph<'_>, line: &[u8]) -> Option<Activation>
    ensures { IfSome result (λ activation. Says graph.now (At activation) line.now) }
{
    graph.is_always_valid();
    if is_too_long(line) {
        return None;
    }
    let (name, digits) = name_and_digits(line)?;
    let node = graph.find(name)?;
    let time = number_within(digits, MAX_TIME)?;
    Some(Activation { node, time })
}

/// What stands before and after a space in what follows `at` and a space.
fn name_and_digits(line: &[u8]) -> Option<(&[u8], &[u8])>
    ensures { IfSome result (λ parts. line.now ≡ codes "at " ++ (parts.0.now ++ 32 ∷ parts.1.now)) }
{
    let words = line.strip_prefix(b"at ".as_slice())?;
    let index = first_space(words)?;
    let (name, others) = words.split_at(index);
    let (space, digits) = others.split_first()?;
    if *space == b' ' {
        Some((name, digits))
    } else {
        None
    }
}

/// The index of the first space.
fn first_space(words: &[u8]) -> Option<usize>
    ensures { IfSome result (λ index. index ≤ length words.now) }
{
    words.iter().position(|byte| *byte == b' ')
}
