//! What is tested of a line that declares a node.

ghost use Rattle.std.specs.Prelude.{◌≡◌, ◌<◌, [], length, None, IsTrue, IfOk, IfNone};
ghost use Rattle.tfpg_base.specs.Words.{is_name};
ghost use Rattle.tfpg_graph.specs.Graph.{is_failure, failures, node_named};
ghost use Rattle.tfpg_graph.specs.Statements.{DeclaresNode};
ghost use Rattle.tfpg_graph.specs.Declares.{kind_of_words};
ghost use Rattle.tfpg_base.specs.Choice.{first_of};
ghost use Rattle.tfpg_graph.specs.Causes.{causes};
ghost use Rattle.tfpg_graph.specs.inside.reading.StatementSeen.{node_words_of};
ghost use Rattle.tfpg_graph.specs.inside.reading.LineCauses.{node_name_causes, node_room_causes};
ghost use Rattle.tfpg_graph.specs.inside.reading.Turns.{is_misplaced, ReadAs};
ghost use Rattle.tfpg_graph.specs.inside.declaring.Declaring.{CanDeclareNode};

use crate::cause::GraphCause;
use crate::declared::Declared;
use crate::kind::Kind;
use crate::limits::{MAX_FAILURES, MAX_NODES};
use crate::reading::read_numbers::read_kind;
use crate::reading::statement::NodeWords;
use tfpg_base::read_name;

/// The kind of the node that a line declares with this name and these words, or the cause of the line. Takes one
/// look-up by name.
pub(crate) fn read_node(
    declared: &Declared,
    name: &[u8],
    words: NodeWords<'_>,
) -> Result<Kind, GraphCause>
    ensures first { ReadAs
        (first_of (causes (is_misplaced declared.now (DeclaresNode name.now (node_words_of words.entry)))
        declared.now (DeclaresNode name.now (node_words_of words.entry))))
        (kind_of_words (node_words_of words.entry))
        result }
    ensures clear { IfOk result (CanDeclareNode declared.now name.now) }
{
    if let Some(cause) = node_name_cause(declared, name) {
        return Err(cause);
    }
    let kind = read_kind(words)?;
    if let Some(cause) = node_room_cause(declared, kind) {
        return Err(cause);
    }
    Ok(kind)
}

/// The cause that the line is out of order, or that its name is wrong, where there is one.
fn node_name_cause(declared: &Declared, name: &[u8]) -> Option<GraphCause>
    ensures first { result ≡ first_of (node_name_causes declared.now name.now) }
    ensures before_edges { IfNone result (declared.now.edges ≡ []) }
    ensures named { IfNone result (IsTrue (is_name name.now)) }
    ensures new { IfNone result (node_named declared.now name.now ≡ None) }
{
    if declared.mode_count() == 0 || declared.edge_count() > 0 {
        Some(GraphCause::BadLine)
    } else if !read_name(name) {
        Some(GraphCause::BadName)
    } else if declared.find(name).is_some() {
        Some(GraphCause::DuplicateName)
    } else {
        None
    }
}

/// The cause that there is no room for a node of this kind, where that is so.
fn node_room_cause(declared: &Declared, kind: Kind) -> Option<GraphCause>
    ensures first { result ≡ first_of (node_room_causes declared.now (is_failure kind)) }
    ensures room { IfNone result (length declared.now.nodes < MAX_NODES) }
    ensures failure_room { IfNone result
        (IsTrue (is_failure kind) → length (failures declared.now) < MAX_FAILURES) }
{
    if declared.node_count() >= MAX_NODES {
        Some(GraphCause::TooManyNodes)
    } else if kind.is_failure() && declared.failure_count() >= MAX_FAILURES {
        Some(GraphCause::TooManyFailures)
    } else {
        None
    }
}
