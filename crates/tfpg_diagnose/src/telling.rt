//! Telling the desk a round once its text is written, and the lines of the panels that are lost.

ghost use Rattle.std.specs.Prelude.{◌≡◌, length, drop, IfSome, Ok};
ghost use Rattle.tfpg_evidence.specs.RoundOf.{IsRoundOf};
ghost use Rattle.tfpg_graph.specs.Graph.{sizes_of};
ghost use Rattle.tfpg_panel.specs.Desk.{IsTold, seen_by};
ghost use Rattle.tfpg_streams.specs.Writing.{Writes};
ghost use Rattle.tfpg_diagnose.specs.inside.Telling.{WritesBlock, end_of_loss, loss_text, losses_text, outgoing};

use crate::line_blocks::LineBlock;
use crate::report::NextBlock;
use itoa::Buffer;
use tfpg_base::{Failed, Sink};
use tfpg_evidence::Round;
use tfpg_graph::Graph;
use tfpg_panel::{Desk, LostPanel, Panel, PanelFault};
use tfpg_streams::{StreamFault, write_all};

/// Writes the block of a line whole, and then tells the desk its round.
pub(crate) fn write_and_tell<K: Sink, P: Panel>(
    out: &mut K,
    desk: &mut Desk<P>,
    graph: &Graph,
    block: &LineBlock,
) -> Result<NextBlock, StreamFault>
    requires { IfSome block.now.round (IsRoundOf (sizes_of graph.now)) }
    ensures { WritesBlock block.now.text.items block.now.round (outgoing (K.state out.old) (seen_by P.state desk.old))
        (outgoing (K.state out.new) (seen_by P.state desk.new)) result }
{
    write_all(out, &block.text)?;
    if let Some(round) = &block.round {
        tell_round(out, desk, graph, round)?;
    }
    Ok(NextBlock::Written)
}

/// Tells the desk the round, and writes a line for each panel that it lost. Takes no memory, so the lines of a round that was told are
/// written unless the output fails.
fn tell_round<K: Sink, P: Panel>(
    out: &mut K,
    desk: &mut Desk<P>,
    graph: &Graph,
    round: &Round,
) -> Result<(), Failed>
    requires { IsRoundOf (sizes_of graph.now) round.now }
    ensures told { IsTold round.entry.now (seen_by P.state desk.old) (seen_by P.state desk.new) }
    ensures writes { Writes (losses_text (drop (length desk.old.losses) desk.new.losses))
        (K.state out.old) (K.state out.new) result }
{
    let lost_before = desk.losses().len();
    desk.tell(graph, round);
    write_losses(out, &desk.losses()[lost_before..])
}

/// Writes a line for each of the lost panels.
fn write_losses<K: Sink>(out: &mut K, losses: &[LostPanel]) -> Result<(), Failed>
    ensures { Writes (losses_text losses.now) (K.state out.old) (K.state out.new) result }
{
    for loss in losses {
        write_loss(out, loss)?;
    }
    Ok(())
}

/// Writes the line of a lost panel, piece by piece: `tfpg_report::lost` would need memory.
fn write_loss<K: Sink>(out: &mut K, loss: &LostPanel) -> Result<(), Failed>
    ensures { Writes (loss_text loss.now) (K.state out.old) (K.state out.new) result }
{
    let mut digits = Buffer::new();
    write_all(out, b"panel ")?;
    write_all(out, digits.format(loss.panel).as_bytes())?;
    write_all(out, why_lost(loss.fault))
}

/// The end of the line of a panel that was lost for this fault.
fn why_lost(fault: PanelFault) -> &'static [u8]
    ensures { result.now ≡ end_of_loss fault }
{
    match fault {
        PanelFault::Lost => b" lost\n",
        PanelFault::NoMemory => b" memory\n",
    }
}
