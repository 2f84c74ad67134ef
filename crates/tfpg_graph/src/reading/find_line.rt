//! The number of the line that declares a node or an edge. It is sought only where the whole text has a fault.

ghost use Rattle.std.specs.Prelude.{◌≡◌, ◌<◌, count_by};
ghost use Rattle.tfpg_base.specs.Lines.{parts_of};
ghost use Rattle.tfpg_graph.specs.Text.{version_of};
ghost use Rattle.tfpg_graph.specs.Faults.{says, IsLineSaying};
ghost use Rattle.tfpg_graph.specs.inside.reading.StatementSeen.{test_of};

use crate::reading::statement::{Statement, statement_of};
use crate::version::Version;

/// Which lines are counted.
#[derive(Clone, Copy)]
pub(crate) enum Declaring {
    Node,
    Edge,
}

/// The number, counted from 1, of the line that declares the node or edge of this number. Takes time linear in the
/// text, which is given without a line end at its end and is of this version.
pub(crate) fn line_declaring(
    text: &[u8],
    version: Version,
    declaring: Declaring,
    number: u32,
) -> u64
    requires version { version ≡ version_of (parts_of text.now) }
    requires there { number < count_by (says version (test_of declaring)) (parts_of text.now) }
    ensures { IsLineSaying (test_of declaring) (parts_of text.now) number result }
{
    let mut declared = 0;
    let mut line_number: u64 = 0;
    for line in text.split(|byte| *byte == b'\n') {
        line_number += 1;
        if is_declaring(line, version, declaring) {
            if declared == number {
                return line_number;
            }
            declared += 1;
        }
    }
    unreachable!()
}

fn is_declaring(line: &[u8], version: Version, declaring: Declaring) -> bool
    ensures { result ≡ says version (test_of declaring) line.now }
{
    match (statement_of(line, version), declaring) {
        (Some(Statement::Node { name: _, words: _ }), Declaring::Node) => true,
        (Some(Statement::Edge(_)), Declaring::Edge) => true,
        _ => false,
    }
}
