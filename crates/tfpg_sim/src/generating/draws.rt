//! What the generator draws of single words.

ghost use Rattle.std.specs.Prelude.{◌≡◌, ◌<◌, ◌%◌, if◌then◌else◌};
ghost use Rattle.tfpg_sim.specs.Generated.{draw, after_word, after_words, edge_drawn};

use crate::limits::GENERATED_DELAYS;
use rand_core::utils::NextWord;
use rand_pcg::Lcg64Xsh32;
use tfpg_graph::Edge;

/// Draws a number below the limit.
pub(crate) fn draw(state: &mut Lcg64Xsh32, limit: u32) -> u32
    requires { 0 < limit }
    ensures value { result ≡ draw limit 0 state.old }
    ensures below { result < limit }
    ensures after { state.new ≡ after_word state.old }
{
    state.next_word() % limit
}

/// Draws the delays and the modes of an edge between the nodes.
pub(crate) fn draw_edge(source: u32, target: u32, state: &mut Lcg64Xsh32) -> Edge
    ensures edge { result ≡ edge_drawn source target state.old }
    ensures after { state.new ≡ after_words 4 state.old }
{
    let least = u64::from(draw(state, GENERATED_DELAYS));
    let more = u64::from(draw(state, GENERATED_DELAYS));
    let is_open = draw(state, 16) == 0;
    let is_in_first_alone = draw(state, 8) == 0;
    Edge {
        source,
        target,
        tmin: least,
        tmax: tmax_unless(least + more, is_open),
        modes: drawn_modes(is_in_first_alone),
    }
}

/// The greatest delay, which an open edge has not.
fn tmax_unless(delay: u64, is_open: bool) -> Option<u64>
    ensures { result ≡ (if is_open then None else Some delay) }
{
    if is_open { None } else { Some(delay) }
}

/// The bits of the first mode alone, or of both.
fn drawn_modes(is_in_first_alone: bool) -> u64
    ensures { result ≡ (if is_in_first_alone then 1 else 3) }
{
    if is_in_first_alone { 0b01 } else { 0b11 }
}
