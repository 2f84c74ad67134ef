//! The text of a set, read as a hypothesis.

ghost use Rattle.std.specs.Prelude.{◌≡◌, ◌<◌, ◌≤◌, ℕ, List, length, map, unwrap_or, position, IfSome, IsNone, IfOk};
ghost use Rattle.tfpg_base.specs.Hypothesis.{Hypothesis};
ghost use Rattle.tfpg_graph.specs.Valid.{IsValid};
ghost use Rattle.tfpg_graph.specs.Graph.{failure_word};
ghost use Rattle.tfpg_graph.specs.declared.limits.TheConstants.{MAX_NODES};
ghost use Rattle.tfpg_report.specs.SetText.{IsHypothesisOf};
ghost use Rattle.tfpg_graph.specs.Members.{doubt_word, member_words};
ghost use Rattle.tfpg_report.specs.ReadSets.{IsHypothesisIn};
ghost use Rattle.tfpg_report.specs.inside.ReadMembers.{position_named, monitor_named, doubt_named, is_marked, IsPosition, IsMonitor, AreRisingFrom};

use super::named_graph::NamedGraph;
use std::alloc::Global;
use tfpg_base::{Doubts, Hypothesis, NoMemory, Set, parts_at_commas};
use tfpg_graph::Graph;

/// The hypothesis whose text the word is, or None where it is the text of none. Takes time linear in the length of the word,
/// and memory for its parts.
pub fn read_set(alloc: Global, graph: &Graph, word: &[u8]) -> Result<Option<Hypothesis>, NoMemory>
    ensures { IfOk result (IsHypothesisIn graph.now word.now) }
{
    set_in(alloc, &NamedGraph::unguessed(graph), word)
}

/// The hypothesis whose text the word is, or None where it is the text of none.
pub(crate) fn set_in(
    alloc: Global,
    graph: &NamedGraph<'_>,
    word: &[u8],
) -> Result<Option<Hypothesis>, NoMemory>
    ensures { IfOk result (IsHypothesisIn graph.now word.now) }
{
    graph.is_always_valid();
    if word == b"-".as_slice() {
        return Ok(Some(Hypothesis::believing(Set::empty())));
    }
    let words = parts_at_commas(alloc, word)?;
    let hypothesis = hypothesis_of(graph, &words);
    Ok(hypothesis)
}

/// The hypothesis whose members these words are: names of failure modes first, and then monitors with their marks, each in
/// order.
fn hypothesis_of(graph: &NamedGraph<'_>, words: &[&[u8]]) -> Option<Hypothesis>
    ensures found { IfSome result (λ hypothesis. IsHypothesisOf graph.now hypothesis
        × (member_words graph.now hypothesis ≡ map (λ word. word.now) words.now)) }
    ensures none { IsNone result → (hypothesis : Hypothesis) → IsHypothesisOf graph.now hypothesis →
        member_words graph.now hypothesis ≡ map (λ word. word.now) words.now → ⊥ }
{
    graph.is_always_valid();
    let (names, marked) = words.split_at(unmarked_count(words));
    let set = rising_positions(graph, names)?;
    let doubts = rising_doubts(graph, marked)?;
    Some(Hypothesis { set, doubts })
}

/// How many words stand before the first that begins with an exclamation mark.
fn unmarked_count(words: &[&[u8]]) -> usize
    ensures count { result ≡ unwrap_or (position (λ word. is_marked word.now) words.now) (length words.now) }
    ensures within { result ≤ length words.now }
{
    first_marked(words).unwrap_or(words.len())
}

/// The index of the first word that begins with an exclamation mark.
fn first_marked(words: &[&[u8]]) -> Option<usize>
    ensures { result ≡ position (λ word. is_marked word.now) words.now }
{
    words.iter().position(|word| is_marked(word))
}

/// Whether the word begins with an exclamation mark.
fn is_marked(word: &[u8]) -> bool
    ensures { result ≡ is_marked word.now }
{
    match word {
        [] => false,
        [first, ..] => *first == b'!',
    }
}

/// The positions of the failure modes of these names, where they rise.
fn rising_positions(graph: &NamedGraph<'_>, names: &[&[u8]]) -> Option<Set>
    ensures found { IfSome result (λ set. AreRisingFrom (IsPosition graph.now) 0 set ×
        (map (failure_word graph.now) set ≡ map (λ name. name.now) names.now)) }
    ensures none { IsNone result → (set : List ℕ) → AreRisingFrom (IsPosition graph.now) 0 set →
        map (failure_word graph.now) set ≡ map (λ name. name.now) names.now → ⊥ }
{
    let mut set = Set::empty();
    let mut least = 0;
    for name in names {
        let position = find_failure(graph, name)?;
        if position < least {
            return None;
        }
        set = set.with(position);
        least = position + 1;
    }
    Some(set)
}

/// The position of the failure mode of this name.
fn find_failure(graph: &NamedGraph<'_>, name: &[u8]) -> Option<u32>
    ensures position { result ≡ position_named graph.now name.now }
    ensures valid { IsValid graph.now }
{
    graph.is_always_valid();
    graph.place_of(graph.find(name)?)
}

/// The monitors that these words stand for, where their nodes rise.
fn rising_doubts(graph: &NamedGraph<'_>, words: &[&[u8]]) -> Option<Doubts>
    ensures found { IfSome result (λ doubts. AreRisingFrom (IsMonitor graph.now) 0 doubts ×
        (map (doubt_word graph.now) doubts ≡ map (λ word. word.now) words.now)) }
    ensures none { IsNone result → (doubts : List ℕ) → AreRisingFrom (IsMonitor graph.now) 0 doubts →
        map (doubt_word graph.now) doubts ≡ map (λ word. word.now) words.now → ⊥ }
{
    let mut doubts = Doubts::empty();
    let mut least = 0;
    for word in words {
        let node = find_doubt(graph, word)?;
        if node < least {
            return None;
        }
        doubts = doubts.with(node);
        least = node + 1;
    }
    Some(doubts)
}

/// The monitored node of the name after the exclamation mark of this word.
fn find_doubt(graph: &NamedGraph<'_>, word: &[u8]) -> Option<u32>
    ensures node { result ≡ doubt_named graph.now word.now }
    ensures within { IfSome result (λ node. node < MAX_NODES) }
    ensures valid { IsValid graph.now }
{
    graph.is_always_valid();
    let (mark, name) = word.split_first()?;
    if *mark != b'!' {
        return None;
    }
    find_monitor(graph, name)
}

/// The monitored node of this name.
fn find_monitor(graph: &NamedGraph<'_>, name: &[u8]) -> Option<u32>
    ensures node { result ≡ monitor_named graph.now name.now }
    ensures within { IfSome result (λ node. node < MAX_NODES) }
{
    graph.is_always_valid();
    let node = graph.find(name)?;
    graph.is_monitored(node).then_some(node)
}
