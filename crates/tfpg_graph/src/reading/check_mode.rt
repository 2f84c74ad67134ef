//! What is tested of a line that declares a mode.

ghost use Rattle.std.specs.Prelude.{◌≡◌, IfNone};
ghost use Rattle.tfpg_graph.specs.Statements.{DeclaresMode};
ghost use Rattle.tfpg_base.specs.Choice.{first_of};
ghost use Rattle.tfpg_graph.specs.Causes.{causes};
ghost use Rattle.tfpg_graph.specs.inside.reading.Turns.{is_misplaced};
ghost use Rattle.tfpg_graph.specs.inside.declaring.Declaring.{CanDeclareMode};

use crate::cause::GraphCause;
use crate::declared::Declared;
use crate::limits::MAX_MODES;
use tfpg_base::read_name;

/// The cause of a line that declares a mode of this name, where there is one. Takes one look-up by name.
pub(crate) fn mode_cause(declared: &Declared, name: &[u8]) -> Option<GraphCause>
    ensures first { result ≡ first_of
        (causes (is_misplaced declared.now (DeclaresMode name.now)) declared.now (DeclaresMode name.now)) }
    ensures clear { IfNone result (CanDeclareMode declared.now name.now) }
{
    if declared.node_count() > 0 || declared.edge_count() > 0 {
        Some(GraphCause::BadLine)
    } else if !read_name(name) {
        Some(GraphCause::BadName)
    } else if declared.find_mode(name).is_some() {
        Some(GraphCause::DuplicateName)
    } else if declared.mode_count() >= MAX_MODES {
        Some(GraphCause::TooManyModes)
    } else {
        None
    }
}
