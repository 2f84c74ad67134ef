//! The line of a step that splits.

ghost use Rattle.std.specs.Prelude.{◌≡◌, ◌<◌, ◌++◌, ◌∷◌, [], codes, decimal, length};
ghost use Rattle.tfpg_base.specs.Append.{Appends};
ghost use Rattle.tfpg_evidence.specs.RoundOf.{IsClauseOf};
ghost use Rattle.tfpg_base.specs.TextLine.{text_line};
ghost use Rattle.tfpg_graph.specs.Graph.{name_word, sizes_of};
ghost use Rattle.tfpg_report.specs.LineWords.{clause_words, edge_words};

use crate::names::edge_names;
use itoa::Buffer;
use tfpg_base::{NoMemory, append_line};
use tfpg_evidence::ClauseName;
use tfpg_graph::Graph;

/// Appends the line of a step that splits on a clause.
pub(crate) fn append_split(
    graph: &Graph,
    clause: ClauseName,
    into: &mut Vec<u8>,
) -> Result<(), NoMemory>
    requires { IsClauseOf (sizes_of graph.now) clause }
    ensures { Appends result into.old.items into.new.items
        (text_line (codes "split" ∷ clause_words graph.now clause)) }
{
    match clause {
        ClauseName::OrMay {
            node,
            span,
            horizon,
        } => append_node_split(graph, b"ormay", node, span, horizon, into),
        ClauseName::AndMay {
            edge,
            span,
            horizon,
        } => append_edge_split(graph, b"andmay", edge, span, horizon, into),
        ClauseName::OrMust {
            edge,
            span,
            horizon,
        } => append_edge_split(graph, b"ormust", edge, span, horizon, into),
        ClauseName::AndMust {
            node,
            span,
            horizon,
        } => append_node_split(graph, b"andmust", node, span, horizon, into),
    }
}

/// Appends the line of a split on a clause of a node.
fn append_node_split(
    graph: &Graph,
    kind: &[u8],
    node: u32,
    span: u32,
    horizon: u64,
    into: &mut Vec<u8>,
) -> Result<(), NoMemory>
    requires { node < length graph.now.nodes }
    ensures { Appends result into.old.items into.new.items
        (text_line
        (codes "split" ∷ kind.now ∷ name_word graph.now node ∷ decimal span ∷ decimal horizon ∷ [])) }
{
    let mut span_digits = Buffer::new();
    let mut horizon_digits = Buffer::new();
    let span = span_digits.format(span).as_bytes();
    let horizon = horizon_digits.format(horizon).as_bytes();
    append_line(into, &[b"split", kind, graph.name(node), span, horizon])
}

/// Appends the line of a split on a clause of an edge.
fn append_edge_split(
    graph: &Graph,
    kind: &[u8],
    edge: u32,
    span: u32,
    horizon: u64,
    into: &mut Vec<u8>,
) -> Result<(), NoMemory>
    requires { edge < length graph.now.edges }
    ensures { Appends result into.old.items into.new.items
        (text_line
        (codes "split" ∷ kind.now ∷ edge_words graph.now edge ++ decimal span ∷ decimal horizon ∷ [])) }
{
    let (source, target) = edge_names(graph, edge);
    let mut span_digits = Buffer::new();
    let mut horizon_digits = Buffer::new();
    let span = span_digits.format(span).as_bytes();
    let horizon = horizon_digits.format(horizon).as_bytes();
    append_line(into, &[b"split", kind, source, target, span, horizon])
}
