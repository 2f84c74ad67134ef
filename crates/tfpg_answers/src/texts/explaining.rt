//! The verdict on a map, where graph, log and map are texts.

ghost use Rattle.std.specs.Prelude.{◌≡◌, ◌⊎◌, ◌≢◌, ◌<◌, ◌≤◌, All, Err, IfErr, IfOk, IsOkUnless, IsTrue, OnOk, length};
ghost use Rattle.tfpg_base.specs.Lines.{lines_of};
ghost use Rattle.tfpg_base.specs.declared.limits.TheConstants.{MAX_BYTES};
ghost use Rattle.tfpg_graph.specs.Graph.{is_monitored};
ghost use Rattle.tfpg_map.specs.Spelling.{SpellsMap};
ghost use Rattle.tfpg_answers.specs.declared.texts.fault.ExplainTextsFault.{ExplainTextsFault as WhyNoVerdict};
ghost use Rattle.tfpg_answers.specs.inside.texts.Maps.{LacksMapIn};
ghost use Rattle.tfpg_answers.specs.texts.ExplainedTexts.{CanExplainTexts, HasVerdictOfTexts, IsExplainTextsFault, explained_texts};

use super::fault::ExplainTextsFault;
use crate::explain::verdict_on_map;
use std::alloc::Global;
use tfpg_base::{LONGEST_FILE, MAX_BYTES, SteadySource};
use tfpg_graph::laws::a_text_has_at_most_one_first_fault;
use tfpg_graph::{Graph, read};
use tfpg_map::{Map, NoMap, read_map};

/// Whether the map explains the lines of the log, by the graph that the text spells, and else its first fault: what the program writes for
/// `explain`.
pub fn explain_texts(
    alloc: Global,
    graph_text: &[u8],
    log_text: &[u8],
    map_text: &[u8],
) -> Result<Vec<u8>, ExplainTextsFault>
    ensures verdict { IfOk result (λ text. HasVerdictOfTexts (explained_texts graph_text.now log_text.now map_text.now) text.items) }
    ensures fault { IfErr result (IsExplainTextsFault (explained_texts graph_text.now log_text.now map_text.now)) }
    // Where the texts are right, there is a verdict, or memory ran out.
    ensures completes { CanExplainTexts (explained_texts graph_text.now log_text.now map_text.now) →
        IsOkUnless result ExplainTextsFault.NoMemory }
    // Where a fault stands in the way, it is the fault, or memory ran out.
    ensures refuses { (fault : WhyNoVerdict) → fault ≢ ExplainTextsFault.NoMemory →
        IsExplainTextsFault (explained_texts graph_text.now log_text.now map_text.now) fault →
        (result ≡ Err fault) ⊎ (result ≡ Err ExplainTextsFault.NoMemory) }
{
    a_text_has_at_most_one_first_fault();
    verdict_of_texts(alloc, graph_text, log_text, map_text)
}

/// The same, with what its result says alone.
fn verdict_of_texts(
    alloc: Global,
    graph_text: &[u8],
    log_text: &[u8],
    map_text: &[u8],
) -> Result<Vec<u8>, ExplainTextsFault>
    ensures verdict { IfOk result (λ text. HasVerdictOfTexts (explained_texts graph_text.now log_text.now map_text.now) text.items) }
    ensures can { OnOk result (CanExplainTexts (explained_texts graph_text.now log_text.now map_text.now)) }
    ensures fault { IfErr result (IsExplainTextsFault (explained_texts graph_text.now log_text.now map_text.now)) }
{
    if log_text.len() > LONGEST_FILE || map_text.len() as u64 > MAX_BYTES {
        return Err(ExplainTextsFault::TooMuchInput);
    }
    let graph = read(alloc, graph_text)?;
    let map = map_in(alloc, &graph, map_text)?;
    let text = verdict_on_map(alloc, &graph, log_text, &map)?;
    Ok(text)
}

/// The map that the lines of the text spell.
fn map_in(alloc: Global, graph: &Graph, map_text: &[u8]) -> Result<Map, ExplainTextsFault>
    requires { length map_text.now ≤ MAX_BYTES }
    ensures spells { IfOk result (λ map. SpellsMap graph.now (lines_of map_text.now) map.hypothesis map.trace) }
    ensures nodes { IfOk result (λ map. All (λ activation. activation.node < length graph.now.nodes) map.trace) }
    ensures monitors { IfOk result (λ map. All (λ node. IsTrue (is_monitored graph.now node)) map.hypothesis.doubts) }
    ensures fault { IfErr result (LacksMapIn graph.now map_text.now) }
{
    let mut input = SteadySource::new(map_text);
    match read_map(alloc, graph, &mut input) {
        Ok(map) => Ok(map),
        Err(NoMap::Refused { line }) => Err(ExplainTextsFault::BadMap { line }),
        Err(NoMap::Lines(_)) => unreachable!(),
        Err(NoMap::NoMemory) => Err(ExplainTextsFault::NoMemory),
    }
}
