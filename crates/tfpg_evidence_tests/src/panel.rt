//! The panel of `tfpg_panel` that never fails, through its trait.

ghost use Rattle.tfpg_evidence.specs.RoundOf.{IsRoundOf};
ghost use Rattle.tfpg_graph.specs.Graph.{Sizes};

use crate::given::ONE;
use std::alloc::Global;
use std::test::Fail;
use tfpg_base::NumberList;
use tfpg_evidence::{Counts, Findings, Round};
use tfpg_graph::{Graph, read};
use tfpg_panel::{Panel, PanelFault, SteadyPanel};

/// A round of this number, without a finding.
fn round_numbered(alloc: Global, number: u32) -> Round
    ensures { (sizes : Sizes) → IsRoundOf sizes result }
{
    Round {
        number,
        line: u64::from(number),
        now: 0,
        findings: Findings::new(alloc),
        order: NumberList::new(alloc),
        counts: Counts {
            ranked: 0,
            covered: 0,
            rejected: 0,
            unsettled: 0,
        },
    }
}

/// Tells a panel two rounds.
fn tell_two<P: Panel>(alloc: Global, graph: &Graph, panel: &mut P) -> Result<(), PanelFault> {
    panel.tell(graph, &round_numbered(alloc, 1))?;
    panel.tell(graph, &round_numbered(alloc, 2))
}

/// How many rounds a panel was told, and the number of the last.
fn last_told<P: Panel>(panel: &P) -> Option<(usize, u32)> {
    let rounds = panel.told()?;
    let last = rounds.last()?;
    Some((rounds.len(), last.number))
}

#[test]
fn a_steady_panel_keeps_its_rounds(rt: HostRuntime) -> Result<(), Fail> {
    let graph = read(rt.alloc(), ONE)?;
    let mut panel = SteadyPanel::new(rt.alloc());
    assert_eq!(rt; tell_two(rt.alloc(), &graph, &mut panel), Ok(()));
    assert_eq!(rt; last_told(&panel), Some((2, 2)));
    Ok(())
}
