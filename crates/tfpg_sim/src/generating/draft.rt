//! What is drawn of a graph: the kinds of its discrepancies and the edges.

ghost use Rattle.std.specs.Prelude.{◌≡◌, ◌<◌, ◌≤◌, ◌+◌, ◌*◌, ◌++◌, OnOk, IfOk, if◌then◌else◌};
ghost use Rattle.tfpg_base.specs.declared.limits.TheConstants.{MAX_CASE_SIZE};
ghost use Rattle.tfpg_graph.specs.Graph.{lag_up_to};
ghost use Rattle.tfpg_sim.specs.Generated.{kind_drawn, lag_drawn, edges_drawn, after_node, after_words, edge_drawn, draft_after};

use crate::generating::draws::{draw, draw_edge};
use crate::limits::FAILURE_COUNT;
use rand_pcg::Lcg64Xsh32;
use std::alloc::Global;
use tfpg_base::NoMemory;
use tfpg_graph::{Edge, Kind, Lag};

/// The kinds of the discrepancies, and the edges.
#[derive(Drop)]
pub(crate) struct Draft {
    pub(crate) kinds: Vec<Kind>,
    pub(crate) edges: Vec<Edge>,
}

/// Draws so many discrepancies, each after those before it.
pub(crate) fn draw_draft(
    alloc: Global,
    count: u32,
    state: &mut Lcg64Xsh32,
) -> Result<Draft, NoMemory>
    requires { count ≤ 4 * MAX_CASE_SIZE }
    ensures kinds { IfOk result (λ draft. draft.kinds.items ≡ (draft_after state.old count).kinds) }
    ensures edges { IfOk result (λ draft. draft.edges.items ≡ (draft_after state.old count).edges) }
    ensures after { OnOk result (state.new ≡ (draft_after state.old count).state) }
{
    let mut kinds = Vec::new(alloc);
    let mut edges = Vec::new(alloc);
    for index in 0..count {
        let kind = draw_discrepancy(FAILURE_COUNT + index, &mut edges, state)?;
        kinds.push(kind)?;
    }
    Ok(Draft { kinds, edges })
}

/// Draws the kind of the node, and appends the edges into it.
fn draw_discrepancy(
    node: u32,
    edges: &mut Vec<Edge>,
    state: &mut Lcg64Xsh32,
) -> Result<Kind, NoMemory>
    requires { 0 < node }
    ensures kind { IfOk result (λ kind. kind ≡ kind_drawn node state.old) }
    ensures edges { OnOk result (edges.new.items ≡ edges.old.items ++ edges_drawn node state.old) }
    ensures after { OnOk result (state.new ≡ after_node node state.old) }
{
    let first = draw(state, node);
    let second = draw(state, node);
    let joins = draw(state, 8) == 0;
    let is_hidden = draw(state, 4) == 0;
    let most = u64::from(draw(state, 20));
    edges.push(draw_edge(first, node, state))?;
    if first != second {
        edges.push(draw_edge(second, node, state))?;
    }
    Ok(discrepancy_kind(first != second && joins, lag_unless(most, is_hidden)))
}

/// The lag from 0 up to this, which a hidden node has not.
fn lag_unless(most: u64, is_hidden: bool) -> Option<Lag>
    ensures { result ≡ (if is_hidden then None else Some (lag_up_to most)) }
{
    if is_hidden {
        None
    } else {
        Some(Lag { least: 0, most })
    }
}

/// An AND node or an OR node.
fn discrepancy_kind(is_and: bool, lag: Option<Lag>) -> Kind
    ensures { result ≡ (if is_and then Kind.And lag else Kind.Or lag) }
{
    if is_and {
        Kind::And { lag }
    } else {
        Kind::Or { lag }
    }
}
