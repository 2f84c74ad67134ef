//! The calls that ask an open session, and leave it as it was.

ghost use Rattle.std.specs.Prelude.{◌≡◌, length, unwrap_or};
ghost use Rattle.tfpg_embed.specs.Answers.{answer_with};
ghost use Rattle.tfpg_embed.specs.Asked.{answer_of_open, left_by_open};
ghost use Rattle.tfpg_embed.specs.Names.{answer_of_index, answer_of_name, index_in, name_in, room_after_name};
ghost use Rattle.tfpg_embed.specs.Ranking.{LeavesRanked, answer_about, times_after};
ghost use Rattle.tfpg_embed.specs.Results.{result_numbers};

use super::handle::TfpgSession;
use crate::answer::{TfpgAnswer, plain};
use crate::names::{put_index, put_name};
use crate::ranking::{TfpgRanked, put_ranked};
use crate::results::{TfpgResult, result_of};
use crate::status::{DONE, ENDED};
use std::alloc::Global;

/// Says what the last line brought, and the numbers of the last round.
#[unsafe(no_mangle)]
pub extern "C" fn tfpg_result_of(
    session: &mut TfpgSession,
    alloc: Global,
    numbers: &mut TfpgResult,
) -> TfpgAnswer
    ensures same { session.new.held.session ≡ session.old.held.session }
    ensures answer { result ≡ answer_of_open (λ one. answer_with DONE) session.old.held.session }
    ensures numbers { numbers.new ≡ left_by_open (λ one before. result_numbers one) session.old.held.session numbers.old }
{
    match session.take(alloc) {
        Some(open) => {
            *numbers = result_of(open.session());
            session.put(open);
            plain(DONE)
        }
        None => plain(ENDED),
    }
}

/// Says which hypothesis the last round ranks at this place, from 0 for the best, and when each node of its trace became active. The answer
/// has the number of nodes. If there is room for no time none is written, and else there has to be room for those of all nodes.
#[unsafe(no_mangle)]
pub extern "C" fn tfpg_ranked_at(
    session: &mut TfpgSession,
    alloc: Global,
    rank: u32,
    ranked: &mut TfpgRanked,
    times: &mut [u64],
) -> TfpgAnswer
    ensures same { session.new.held.session ≡ session.old.held.session }
    ensures answer { result ≡ answer_of_open (answer_about rank (length times.old)) session.old.held.session }
    ensures ranked { LeavesRanked session.old.held.session rank ranked.old ranked.new result }
    ensures times { times.new ≡ left_by_open (times_after rank) session.old.held.session times.old }
{
    match session.take(alloc) {
        Some(open) => {
            let answer = put_ranked(open.session(), rank, ranked, times);
            session.put(open);
            answer
        }
        None => plain(ENDED),
    }
}

/// Finds the index of what has this name.
#[unsafe(no_mangle)]
pub extern "C" fn tfpg_index(
    session: &mut TfpgSession,
    alloc: Global,
    kind: u32,
    name: &[u8],
    index: &mut u32,
) -> TfpgAnswer
    ensures same { session.new.held.session ≡ session.old.held.session }
    ensures answer { result ≡ answer_of_open (λ one. answer_of_index (index_in one.engine.graph kind name.now)) session.old.held.session }
    ensures index { index.new ≡ left_by_open (λ one before. unwrap_or (index_in one.engine.graph kind name.now) before)
        session.old.held.session index.old }
{
    match session.take(alloc) {
        Some(open) => {
            let answer = put_index(open.session().graph(), kind, name, index);
            session.put(open);
            answer
        }
        None => plain(ENDED),
    }
}

/// Writes the name of what has this index to the front of the room, if it fits. The answer has the number of its bytes, also if the room is
/// too small, and then nothing is written.
#[unsafe(no_mangle)]
pub extern "C" fn tfpg_name(
    session: &mut TfpgSession,
    alloc: Global,
    kind: u32,
    index: u32,
    room: &mut [u8],
) -> TfpgAnswer
    ensures same { session.new.held.session ≡ session.old.held.session }
    ensures answer { result ≡ answer_of_open (λ one. answer_of_name (name_in one.engine.graph kind index) (length room.old))
        session.old.held.session }
    ensures room { room.new ≡ left_by_open (λ one before. room_after_name (name_in one.engine.graph kind index) before)
        session.old.held.session room.old }
{
    match session.take(alloc) {
        Some(open) => {
            let answer = put_name(open.session().graph(), kind, index, room);
            session.put(open);
            answer
        }
        None => plain(ENDED),
    }
}
