//! The lines of a map: that of its set, and that of an activation.

ghost use Rattle.std.specs.Prelude.{◌≡◌, option_map, IfSome, IsNone, IfOk, IsErrOf, decimal};
ghost use Rattle.tfpg_base.specs.declared.activation.Activation.{Activation};
ghost use Rattle.tfpg_base.specs.Hypothesis.{Hypothesis as Members};
ghost use Rattle.tfpg_base.specs.Words.{words_of};
ghost use Rattle.tfpg_graph.specs.Graph.{name_word};
ghost use Rattle.tfpg_report.specs.inside.LineNames.{activation_line};
ghost use Rattle.tfpg_report.specs.SetText.{IsHypothesisOf};
ghost use Rattle.tfpg_map.specs.Spelling.{IsActivationOf, set_line};
ghost use Rattle.tfpg_map.specs.inside.Lines.{word_after_set, words_after_at};

use crate::map::MapFault;
use std::alloc::Global;
use tfpg_base::{Activation, Hypothesis, MAX_TIME, Number, Words, read_number};
use tfpg_graph::Graph;
use tfpg_report::read_set;

/// The hypothesis whose set the line spells.
pub(crate) fn read_set_line(
    alloc: Global,
    graph: &Graph,
    line: &[u8],
) -> Result<Hypothesis, MapFault>
    ensures set { IfOk result (λ hypothesis. IsHypothesisOf graph.now hypothesis
        × (line.now ≡ set_line graph.now hypothesis)) }
    ensures bad { IsErrOf result MapFault.BadMap → (hypothesis : Members) →
        IsHypothesisOf graph.now hypothesis → line.now ≡ set_line graph.now hypothesis → ⊥ }
{
    graph.is_always_valid();
    let Some(word) = word_after_set(line) else {
        return Err(MapFault::BadMap);
    };
    match read_set(alloc, graph, word)? {
        Some(hypothesis) => Ok(hypothesis),
        None => Err(MapFault::BadMap),
    }
}

/// The word after `set`, where the line has that shape.
fn word_after_set(line: &[u8]) -> Option<&[u8]>
    ensures { option_map (λ word. word.now) result ≡ word_after_set (words_of line.now) }
{
    let words = Words::of(line)?;
    match words.as_slice() {
        [keyword, word] if *keyword == b"set".as_slice() => Some(*word),
        _ => None,
    }
}

/// The activation that the line spells.
pub(crate) fn read_activation(graph: &Graph, line: &[u8]) -> Option<Activation>
    ensures found { IfSome result (λ activation. IsActivationOf graph.now activation ×
        (line.now ≡ activation_line graph.now activation)) }
    ensures none { IsNone result → (activation : Activation) → IsActivationOf graph.now activation →
        line.now ≡ activation_line graph.now activation → ⊥ }
{
    graph.is_always_valid();
    let (name, time) = words_after_at(line)?;
    activation_of(graph, name, time)
}

/// The two words after `at`, where the line has that shape.
fn words_after_at(line: &[u8]) -> Option<(&[u8], &[u8])>
    ensures { option_map (λ words. (words.0.now, words.1.now)) result ≡ words_after_at (words_of line.now) }
{
    let words = Words::of(line)?;
    match words.as_slice() {
        [keyword, name, time] if *keyword == b"at".as_slice() => Some((*name, *time)),
        _ => None,
    }
}

/// The activation of the node of this name at the time that this word spells.
fn activation_of(graph: &Graph, name: &[u8], time: &[u8]) -> Option<Activation>
    ensures found { IfSome result (λ activation. IsActivationOf graph.now activation
        × (name.now ≡ name_word graph.now activation.node) × (time.now ≡ decimal activation.time)) }
    ensures none { IsNone result → (activation : Activation) → IsActivationOf graph.now activation
        → name.now ≡ name_word graph.now activation.node → time.now ≡ decimal activation.time → ⊥ }
{
    graph.is_always_valid();
    let node = graph.find(name)?;
    match read_number(time, MAX_TIME) {
        Number::Value(time) => Some(Activation { node, time }),
        _ => None,
    }
}
