//! How many vehicles have which failure mode at the end.

ghost use Rattle.std.specs.Prelude.{◌≡◌, ◌<◌, [], IfErr, IfOk, OnOk, Err, Ok, length, slice_index_or};
ghost use Rattle.tfpg_base.specs.Append.{Appends};
ghost use Rattle.tfpg_graph.specs.Graph.{failures, failure_word};
ghost use Rattle.tfpg_streams.specs.Outputs.{TextEnds};
ghost use Rattle.tfpg_run.specs.fleet.Counting.{is_in, mode_count_text, vehicles_that};
ghost use Rattle.tfpg_run.specs.inside.fleet.UnderWay.{kept_text};

use super::watch::is_in;
use itoa::Buffer;
use std::alloc::Global;
use tfpg_base::{NoMemory, Set, Sink, append_line};
use tfpg_graph::Graph;
use tfpg_streams::{OutputFault, write_all};

/// Writes a line for each failure mode: how many vehicles have it among what their last round ranks, by what is kept of them.
pub(super) fn write_counts<K: Sink>(
    alloc: Global,
    graph: &Graph,
    ranked: &[Set],
    out: &mut K,
) -> Result<(), OutputFault>
    ensures done { OnOk result (TextEnds (λ text. text ≡ kept_text graph.now ranked.now)
        (K.state out.old) (K.state out.new) (Ok tt)) }
    ensures stopped { IfErr result (λ fault. TextEnds (λ text. text ≡ kept_text graph.now ranked.now)
        (K.state out.old) (K.state out.new) (Err fault)) }
{
    let text = counts_of(alloc, graph, ranked)?;
    write_all(out, &text)?;
    Ok(())
}

/// A line for each failure mode.
fn counts_of(alloc: Global, graph: &Graph, ranked: &[Set]) -> Result<Vec<u8>, NoMemory>
    ensures { IfOk result (λ text. text.items ≡ kept_text graph.now ranked.now) }
{
    let mut text = Vec::new(alloc);
    for position in 0..graph.failure_count() {
        append_mode(graph, position, vehicles_with(ranked, position), &mut text)?;
    }
    Ok(text)
}

/// Appends the line of the failure mode at this position, with how many vehicles have it.
fn append_mode(
    graph: &Graph,
    position: u32,
    count: usize,
    into: &mut Vec<u8>,
) -> Result<(), NoMemory>
    requires { position < length (failures graph.now) }
    ensures { Appends result into.old.items into.new.items (mode_count_text graph.now position count) }
{
    let mut digits = Buffer::new();
    append_line(
        into,
        &[
            b"mode",
            failure_name(graph, position),
            b"vehicles",
            digits.format(count).as_bytes(),
        ],
    )
}

/// The name of the failure mode at a position.
fn failure_name(graph: &Graph, position: u32) -> &[u8]
    requires { position < length (failures graph.now) }
    ensures { result.now ≡ failure_word graph.now position }
{
    graph.name(graph.failure_node(position))
}

/// How many of the sets have the failure mode at this position.
fn vehicles_with(ranked: &[Set], position: u32) -> usize
    ensures { result ≡ vehicles_that (λ number. is_in position (slice_index_or ranked.now number [])) (length ranked.now) }
{
    let mut count = 0_usize;
    for set in ranked {
        if is_in(position, *set) {
            count += 1;
        }
    }
    count
}
