//! What a line of a script says by itself.

ghost use Rattle.std.specs.Prelude.{◌≡◌, map};
ghost use Rattle.tfpg_sim.specs.inside.ScriptReading.{time_in, failure_named, entry_alone, entry_with_name, entry_in, entry_of};

use crate::entry::Entry;
use tfpg_base::{MAX_TIME, Number, Words, read_number};
use tfpg_graph::Graph;

/// What the line says, where it has one of the five shapes and its time and name are right. Takes time linear in its
/// length, and at most one look-up by name.
pub(crate) fn read_entry(graph: &Graph, line: &[u8]) -> Option<Entry>
    ensures { result ≡ entry_of graph.now line.now }
{
    let words = Words::of(line)?;
    entry_in(graph, words.as_slice())
}

/// What a line of these words says.
fn entry_in(graph: &Graph, words: &[&[u8]]) -> Option<Entry>
    ensures { result ≡ entry_in graph.now (map (λ word. word.now) words.now) }
{
    match words {
        [time, word] => entry_alone(word, time_in(time)?),
        [time, word, name] => entry_with_name(graph, word, name, time_in(time)?),
        _ => None,
    }
}

/// What the one word after the time says.
fn entry_alone(word: &[u8], time: u64) -> Option<Entry>
    ensures { result ≡ entry_alone word.now time }
{
    if word == b"sweep".as_slice() {
        Some(Entry::Sweep { time })
    } else if word == b"tick".as_slice() {
        Some(Entry::Tick { time })
    } else if word == b"stop".as_slice() {
        Some(Entry::Stop { time })
    } else {
        None
    }
}

/// What a word and a name after the time say.
fn entry_with_name(graph: &Graph, word: &[u8], name: &[u8], time: u64) -> Option<Entry>
    ensures { result ≡ entry_with_name graph.now word.now name.now time }
{
    if word == b"start".as_slice() {
        let node = failure_named(graph, name)?;
        Some(Entry::Start { time, node })
    } else if word == b"mode".as_slice() {
        let mode = graph.find_mode(name)?;
        Some(Entry::Mode { time, mode })
    } else {
        None
    }
}

/// The time that the word spells, where it is a number and not too large.
fn time_in(word: &[u8]) -> Option<u64>
    ensures { result ≡ time_in word.now }
{
    match read_number(word, MAX_TIME) {
        Number::Value(time) => Some(time),
        Number::TooLarge | Number::NotANumber => None,
    }
}

/// The failure mode of this name.
fn failure_named(graph: &Graph, name: &[u8]) -> Option<u32>
    ensures { result ≡ failure_named graph.now name.now }
{
    let node = graph.find(name)?;
    if graph.kind(node).is_failure() {
        Some(node)
    } else {
        None
    }
}
