//! The public call of `tfpg_report` that writes steps, for those that no row shows: a diagnosis need not take them.

ghost use Rattle.std.specs.Prelude.{◌≡◌, All, IfOk, IsTrue};
ghost use Rattle.tfpg_evidence.specs.RoundOf.{IsStepOf};
ghost use Rattle.tfpg_graph.specs.Graph.{sizes_of};
ghost use Rattle.tfpg_model_tests.specs.inside.Sizes.{small};

use crate::given::on_graph;
use std::alloc::Global;
use std::test::Fail;
use tfpg_base::NoMemory;
use tfpg_evidence::{ClauseName, Reason, Reasons, Step};
use tfpg_graph::Graph;
use tfpg_report::append_steps;

/// Two failure modes with an edge each to A.
const GRAPH: &[u8] = b"tfpg 1\n\
    mode N\n\
    failure F1 3\n\
    failure F2 5\n\
    or A watch 0\n\
    edge F1 A 10 20 *\n\
    edge F2 A 5 5 *\n\
    end\n";

/// The lines of the steps.
const LINES: &[u8] = b"split andmust A 3 33\n\
    cycle 2\n\
    why top F2\n\
    why quiet 3 A\n\
    again\n";

/// A split by a must clause of an AND node, a cycle by a greatest time, and a subtree that is reused.
fn steps(alloc: Global) -> Result<Vec<Step>, NoMemory>
    ensures { IfOk result (λ steps. All (IsStepOf small) steps.items) }
{
    let clause = ClauseName::AndMust {
        node: 2,
        span: 3,
        horizon: 33,
    };
    let reasons = vec![in alloc;
        Reason::Top { node: 1 },
        Reason::Quiet { event: 3, node: 2 },
    ]?;
    let steps = vec![in alloc;
        Step::Split(clause),
        Step::Cycle(Reasons::from_vec(reasons)),
        Step::Again,
    ]?;
    Ok(steps)
}

/// Whether the graph has as many nodes, edges and failure modes as the steps speak of.
fn is_small(graph: &Graph) -> bool
    ensures { IsTrue result → sizes_of graph.now ≡ small }
{
    graph.node_count() == 3 && graph.edge_count() == 2 && graph.failure_count() == 2
}

/// Whether the steps have these lines.
fn has_lines(alloc: Global, graph: &Graph) -> Result<bool, NoMemory>
    requires { sizes_of graph.now ≡ small }
{
    let steps = steps(alloc)?;
    let mut text = Vec::new(alloc);
    append_steps(graph, &steps, &mut text)?;
    Ok(text.as_slice() == LINES)
}

/// Writes the steps.
fn write_steps(alloc: Global, graph: &Graph) -> Result<(), Fail> {
    if !is_small(graph) {
        return Err(Fail::new("the graph is small"));
    }
    if !has_lines(alloc, graph)? {
        return Err(Fail::new("the lines of the steps"));
    }
    Ok(())
}

#[test]
fn steps_that_no_row_shows_have_their_lines(rt: HostRuntime) -> Result<(), Fail> {
    let alloc = rt.alloc();
    on_graph(alloc, GRAPH, |graph| write_steps(alloc, graph))
}
