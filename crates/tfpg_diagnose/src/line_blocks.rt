//! What a line of the log brings, and its block.

ghost use Rattle.std.specs.Prelude.{◌≡◌, ◌+◌, None, IfOk, IfSome};
ghost use Rattle.tfpg_evidence.specs.RoundOf.{IsRoundOf};
ghost use Rattle.tfpg_graph.specs.Graph.{Tfpg, sizes_of};
ghost use Rattle.tfpg_engine.specs.EngineState.{calls_of_engine};
ghost use Rattle.tfpg_report.specs.Blocks.{refused_text, round_text};
ghost use Rattle.tfpg_check.specs.Report.{Progress};
ghost use Rattle.tfpg_base.specs.declared.terms.Terms.{Terms};
ghost use Rattle.tfpg_diagnose.specs.EngineReports.{EngineReports};
ghost use Rattle.tfpg_diagnose.specs.inside.LineBlocks.{BringsBlock, IsBrought, IsEngineReady, block_brought, engine_turn, numbered};
ghost use Rattle.tfpg_diagnose.specs.texts.Latest.{round_in};

use std::alloc::Global;
use std::sync::ledger::Ledger;
use tfpg_base::{NoMemory, Steps};
use tfpg_engine::{Engine, Told};
use tfpg_evidence::Round;
use tfpg_graph::Graph;
use tfpg_hyp::laws::{
    a_round_is_of_its_graph, rounds_say_which_sets_fit, statuses_are_those_of_minimal_sets,
};
use tfpg_log::is_too_long;
use tfpg_report::{RefusedLine, refused, render};

/// What a line brought: a round, or why it was refused.
#[derive(Drop)]
pub(crate) enum Brought {
    Refused(RefusedLine),
    Round(Round),
}

/// The block of a line: its text, and the round that the line brought, if it brought one.
#[derive(Drop)]
pub(crate) struct LineBlock {
    pub(crate) text: Vec<u8>,
    pub(crate) round: Option<Round>,
}

/// What a line of this number and text brings, also one that is too long. No text is made of it.
pub(crate) fn take_line<L: Ledger>(
    engine: &mut Engine,
    number: u64,
    text: &[u8],
    work: &mut Steps<L>,
) -> Result<Brought, NoMemory>
    requires { IsEngineReady engine.old }
    ensures graph { engine.new.graph ≡ engine.old.graph }
    ensures of_graph { IfOk result (λ brought. IfSome (round_in (block_brought number brought)) (IsRoundOf (sizes_of engine.new.graph))) }
    ensures brings { (graph : Tfpg) (terms : Terms) (before : Progress) → EngineReports graph terms engine.old before → IfOk result
        (λ brought. IsBrought graph terms before (numbered number text.now) brought
        (engine_turn engine.old engine.new work.old work.new)) }
    ensures counted { calls_of_engine engine.new + work.old ≡ calls_of_engine engine.old + work.new }
{
    if is_too_long(text) {
        return Ok(Brought::Refused(RefusedLine::TooLong));
    }
    rounds_say_which_sets_fit();
    statuses_are_those_of_minimal_sets();
    a_round_is_of_its_graph();
    match engine.event(number, text, work)? {
        Told::Refused(refusal) => Ok(Brought::Refused(RefusedLine::Offer(refusal))),
        Told::Round(round) => {
            // The log is of the graph, and in order.
            engine.log().is_always_ordered();
            Ok(Brought::Round(round))
        }
    }
}

/// The block of a line of this number and text, also of one that is too long.
pub(crate) fn line_block<L: Ledger>(
    alloc: Global,
    engine: &mut Engine,
    number: u64,
    text: &[u8],
    work: &mut Steps<L>,
) -> Result<LineBlock, NoMemory>
    requires { IsEngineReady engine.old }
    ensures graph { engine.new.graph ≡ engine.old.graph }
    ensures of_graph { IfOk result (λ block. IfSome block.round (IsRoundOf (sizes_of engine.new.graph))) }
    ensures block { (graph : Tfpg) (terms : Terms) (before : Progress) → EngineReports graph terms engine.old before → IfOk result
        (λ block. BringsBlock graph terms before (numbered number text.now) block.text.items block.round
        (engine_turn engine.old engine.new work.old work.new)) }
    ensures counted { calls_of_engine engine.new + work.old ≡ calls_of_engine engine.old + work.new }
{
    match take_line(engine, number, text, work)? {
        Brought::Refused(cause) => refused_block(alloc, number, cause),
        Brought::Round(round) => {
            let text = round_text(alloc, engine.graph(), &round)?;
            Ok(LineBlock {
                text,
                round: Some(round),
            })
        }
    }
}

/// The block of a refused line.
pub(crate) fn refused_block(
    alloc: Global,
    number: u64,
    cause: RefusedLine,
) -> Result<LineBlock, NoMemory>
    ensures { IfOk result (λ block. (block.text.items ≡ refused_text number cause) × (block.round ≡ None)) }
{
    let text = refused_text(alloc, number, cause)?;
    Ok(LineBlock { text, round: None })
}

/// The text of the block of a refused line.
pub(crate) fn refused_text(
    alloc: Global,
    number: u64,
    cause: RefusedLine,
) -> Result<Vec<u8>, NoMemory>
    ensures { IfOk result (λ text. text.items ≡ refused_text number cause) }
{
    let mut text = Vec::new(alloc);
    refused(number, cause, &mut text)?;
    Ok(text)
}

/// The text of the block of a round at which no panel is lost.
pub(crate) fn round_text(alloc: Global, graph: &Graph, round: &Round) -> Result<Vec<u8>, NoMemory>
    requires { IsRoundOf (sizes_of graph.now) round.now }
    ensures { IfOk result (λ text. text.items ≡ round_text graph.now round.entry.now) }
{
    let mut text = Vec::new(alloc);
    render(graph, round, &mut text)?;
    Ok(text)
}
