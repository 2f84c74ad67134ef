//! What is tested of a line that declares an edge.

ghost use Rattle.std.specs.Prelude.{◌≡◌, ◌<◌, ◌≤◌, ◌∷◌, ◌&&◌, ℕ, List, length, map, Some, None, IfOk, IfErr, IfSome, IfNone, false, bytes_eq, codes};
ghost use Rattle.std.specs.List.{list_all};
ghost use Rattle.tfpg_base.specs.Words.{is_name};
ghost use Rattle.tfpg_graph.specs.Graph.{Tfpg, node_named};
ghost use Rattle.tfpg_graph.specs.Declares.{modes_listed, edge_declared};
ghost use Rattle.tfpg_base.specs.Choice.{first_of};
ghost use Rattle.tfpg_graph.specs.Causes.{causes};
ghost use Rattle.tfpg_graph.specs.inside.reading.LineCauses.{edge_name_causes, end_causes, edge_room_causes};
ghost use Rattle.tfpg_graph.specs.inside.reading.EdgeNames.{AreNamed, HasWrongName};
ghost use Rattle.tfpg_graph.specs.inside.reading.StatementSeen.{edge_said};
ghost use Rattle.tfpg_graph.specs.inside.reading.Turns.{is_misplaced, ReadAs};
ghost use Rattle.tfpg_graph.specs.inside.declaring.Declaring.{CanDeclareEdge, CanJoin, HasEdgeRoom};

use crate::cause::GraphCause;
use crate::declared::Declared;
use crate::edge::Edge;
use crate::limits::{MAX_EDGES, MAX_INCOMING, MAX_MODES};
use crate::reading::list_modes::{bits_of_names, has_twice, modes_of};
use crate::reading::read_numbers::read_delays;
use crate::reading::statement::EdgeWords;
use tfpg_base::read_name;

/// The edge that a line declares with these words, or the cause of the line. The names are those that the word for
/// its modes lists. Takes two look-ups by name, and one for each mode, and where one of the names is wrong, time quadratic
/// in their number.
pub(crate) fn read_edge(
    declared: &Declared,
    words: EdgeWords<'_>,
    modes: &[&[u8]],
) -> Result<Edge, GraphCause>
    requires listed { map (λ name. name.now) modes.now ≡ modes_listed words.modes.now }
    ensures first { ReadAs
        (first_of (causes (is_misplaced declared.now (edge_said words.entry))
        declared.now (edge_said words.entry)))
        (edge_declared declared.now (edge_said words.entry))
        result }
    ensures clear { IfOk result (CanDeclareEdge declared.now) }
{
    let (source, target, listed) = read_names(declared, words, modes)?;
    let (tmin, tmax) = read_delays(words.tmin, words.tmax)?;
    if let Some(cause) = end_cause(declared, words, source, target) {
        return Err(cause);
    }
    if let Some(cause) = edge_room_cause(declared, words.modes, target) {
        return Err(cause);
    }
    Ok(Edge {
        source,
        target,
        tmin,
        tmax,
        modes: modes_of(declared, words.modes, listed),
    })
}

/// What its names say, or the cause that the line is out of order, or that one of its names is wrong.
fn read_names(
    declared: &Declared,
    words: EdgeWords<'_>,
    modes: &[&[u8]],
) -> Result<(u32, u32, u64), GraphCause>
    requires listed { map (λ name. name.now) modes.now ≡ modes_listed words.modes.now }
    ensures named { IfOk result (AreNamed declared.now
        words.entry.source.now words.entry.target.now words.entry.modes.now) }
    ensures clear { IfOk result (λ _. first_of (edge_name_causes
        declared.now words.entry.source.now words.entry.target.now words.entry.modes.now) ≡ None) }
    ensures some { IfOk result (λ _. 0 < length declared.now.modes) }
    ensures few { IfOk result (λ _. length declared.now.modes ≤ MAX_MODES) }
    ensures refused { IfErr result (λ cause. first_of (edge_name_causes
        declared.now words.entry.source.now words.entry.target.now words.entry.modes.now) ≡ Some cause) }
{
    if declared.mode_count() == 0 {
        return Err(GraphCause::BadLine);
    }
    match find_names(declared, words, modes) {
        Some(named) => Ok(named),
        None => Err(name_cause(words, modes)),
    }
}

/// The two nodes that it names, and the bits of the modes that it lists, where each name is declared and no mode is
/// named twice.
fn find_names(declared: &Declared, words: EdgeWords<'_>, modes: &[&[u8]]) -> Option<(u32, u32, u64)>
    requires listed { map (λ name. name.now) modes.now ≡ modes_listed words.modes.now }
    requires few { length declared.now.modes ≤ MAX_MODES }
    ensures named { IfSome result (AreNamed declared.now
        words.entry.source.now words.entry.target.now words.entry.modes.now) }
    ensures refused { IfNone result (HasWrongName declared.now
        words.entry.source.now words.entry.target.now words.entry.modes.now) }
{
    let source = declared.find(words.source)?;
    let target = declared.find(words.target)?;
    let listed = bits_of_names(declared, modes)?;
    Some((source, target, listed))
}

/// The cause that one of its names is wrong, where one is.
fn name_cause(words: EdgeWords<'_>, modes: &[&[u8]]) -> GraphCause
    requires listed { map (λ name. name.now) modes.now ≡ modes_listed words.modes.now }
    ensures { (graph : Tfpg) → 0 < length graph.modes
        → HasWrongName graph words.entry.source.now words.entry.target.now words.entry.modes.now
        → first_of (edge_name_causes graph
        words.entry.source.now words.entry.target.now words.entry.modes.now) ≡ Some result }
{
    if !has_names(words, modes) {
        GraphCause::BadName
    } else if has_twice(modes) {
        GraphCause::DuplicateName
    } else {
        GraphCause::UnknownName
    }
}

/// Whether each of its words in the place of a name is one.
fn has_names(words: EdgeWords<'_>, modes: &[&[u8]]) -> bool
    requires listed { map (λ name. name.now) modes.now ≡ modes_listed words.modes.now }
    ensures { result ≡ list_all is_name
        (words.entry.source.now ∷ words.entry.target.now ∷ modes_listed words.entry.modes.now) }
{
    has_end_names(words) && are_names(modes)
}

fn has_end_names(words: EdgeWords<'_>) -> bool
    ensures { result ≡ (is_name words.entry.source.now && is_name words.entry.target.now) }
{
    read_name(words.source) && read_name(words.target)
}

fn are_names(words: &[&[u8]]) -> bool
    ensures { result ≡ list_all (λ word. is_name word.now) words.now }
{
    words.iter().all(|word| read_name(word))
}

/// The cause of its two ends, which are these nodes, where there is one.
fn end_cause(
    declared: &Declared,
    words: EdgeWords<'_>,
    source: u32,
    target: u32,
) -> Option<GraphCause>
    requires source { node_named declared.now words.source.now ≡ Some source }
    requires target { node_named declared.now words.target.now ≡ Some target }
    requires source_in { source < length declared.now.nodes }
    requires target_in { target < length declared.now.nodes }
    ensures first { result ≡ first_of
        (end_causes declared.now words.entry.source.now words.entry.target.now) }
    ensures clear { IfNone result (CanJoin declared.now source target) }
{
    if declared.kind(target).is_failure() {
        Some(GraphCause::EdgeIntoFailure)
    } else if words.source == words.target {
        Some(GraphCause::SelfEdge)
    } else if declared.edge_between(source, target).is_some() {
        Some(GraphCause::DuplicateEdge)
    } else {
        None
    }
}

/// The cause of its modes, or that there is no room for it, where there is one.
fn edge_room_cause(declared: &Declared, modes: &[u8], target: u32) -> Option<GraphCause>
    requires target { target < length declared.now.nodes }
    ensures first { (name : List ℕ) → node_named declared.now name ≡ Some target →
        result ≡ first_of (edge_room_causes declared.now name modes.now) }
    ensures clear { IfNone result (HasEdgeRoom declared.now target) }
    ensures some { IfNone result (bytes_eq modes.now (codes "-") ≡ false) }
{
    if modes == b"-".as_slice() {
        Some(GraphCause::NoModes)
    } else if declared.edge_count() >= MAX_EDGES {
        Some(GraphCause::TooManyEdges)
    } else if declared.incoming(target).len() >= MAX_INCOMING {
        Some(GraphCause::TooManyIncoming)
    } else {
        None
    }
}
