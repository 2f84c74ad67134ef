//! A ranked hypothesis as numbers.

ghost use Rattle.std.specs.Prelude.{◌≡◌, ◌≢◌, ◌<◌, ◌↔◌, ◌⊎◌, ℕ, All, Contains, IsTrue, IfSome, IsSomeAnd, length};
ghost use Rattle.std.specs.Int.{bit_at};
ghost use Rattle.std.specs.Option.{option_copied};
ghost use Rattle.tfpg_base.specs.declared.activation.Activation.{Activation};
ghost use Rattle.tfpg_base.specs.declared.limits.TheConstants.{MAX_MEMBERS, MAX_NODE_NUMBERS};
ghost use Rattle.tfpg_evidence.specs.RoundOf.{IsFindingOf, is_ranked};
ghost use Rattle.tfpg_graph.specs.Graph.{sizes_of};
ghost use Rattle.tfpg_diagnose.specs.texts.Latest.{ranked_at};
ghost use Rattle.tfpg_embed.specs.Ranking.{AreMasks, HasNumbersOf, IsMask, answer_about, answer_of_found, is_short, times_after, times_in, times_of_found, times_of_status};
ghost use Rattle.tfpg_embed.specs.Rooms.{room_after};

use crate::answer::{TfpgAnswer, plain, with_count};
use crate::status::{DONE, NO_SUCH, ROOM_TOO_SMALL};
use tfpg_base::{Doubts, NEVER, Set, Trace};
use tfpg_diagnose::Session;
use tfpg_evidence::{Finding, Status};
use tfpg_graph::Graph;

/// A hypothesis that the last round ranks.
#[repr(C)]
#[derive(Clone, Copy, PartialEq, Eq)]
pub struct TfpgRanked {
    /// Bit `p` is set exactly if the failure mode of position `p` is in it.
    pub failures: u64,
    /// Bit `n % 64` of the word `n / 64` is set exactly if it doubts the monitor of node `n`.
    pub doubts: [u64; 8],
    /// Its cost.
    pub cost: u64,
    /// Its number.
    pub hypothesis: u32,
    /// So many of the monitored nodes in its reach that it believes have an alarm, of `monitored`.
    pub alarmed: u32,
    /// How many these are. Where there are none it is 1 of 1.
    pub monitored: u32,
    /// How many nodes are active in its trace.
    pub active: u32,
}

/// Writes the numbers of the hypothesis that the last round ranks at this place, and the times of its trace if there is room for any. The
/// answer has the number of nodes.
pub(crate) fn put_ranked(
    session: &Session,
    rank: u32,
    ranked: &mut TfpgRanked,
    times: &mut [u64],
) -> TfpgAnswer
    ensures answer { result ≡ answer_about rank (length times.old) session.now }
    ensures done { result.status ≡ DONE →
        IsSomeAnd (ranked_at session.now.latest.round rank) (λ finding. HasNumbersOf finding ranked.new) }
    ensures kept { result.status ≢ DONE → ranked.new ≡ ranked.old }
    ensures times { times.new ≡ times_after rank session.now times.old }
{
    put_found(session.graph(), session.ranked_at(rank), ranked, times)
}

/// The same for what was found there.
fn put_found(
    graph: &Graph,
    found: Option<&Finding>,
    ranked: &mut TfpgRanked,
    times: &mut [u64],
) -> TfpgAnswer
    requires of_graph { IfSome found (λ finding. IsFindingOf (sizes_of graph.now) finding.now) }
    requires ranked { IfSome found (λ finding. IsTrue (is_ranked finding.now.status)) }
    ensures answer { result ≡ answer_of_found (length graph.now.nodes) (length times.old) (option_copied found.entry) }
    ensures done { result.status ≡ DONE → IsSomeAnd (option_copied found.entry) (λ finding. HasNumbersOf finding ranked.new) }
    ensures kept { result.status ≢ DONE → ranked.new ≡ ranked.old }
    ensures times { times.new ≡ times_of_found (length graph.now.nodes) (option_copied found.entry) times.old }
{
    let Some(finding) = found else {
        return plain(NO_SUCH);
    };
    let nodes = graph.node_count();
    if is_short(nodes, times.len()) {
        return with_count(ROOM_TOO_SMALL, u64::from(nodes));
    }
    *ranked = numbers_of(graph, finding);
    put_times(&finding.status, nodes, times);
    with_count(DONE, u64::from(nodes))
}

/// Whether there is room for a time, but not for those of so many nodes.
fn is_short(nodes: u32, room: usize) -> bool
    ensures { result ≡ is_short nodes room }
{
    0 < room && room < nodes as usize
}

/// The numbers of a finding of this graph that ranks.
fn numbers_of(graph: &Graph, finding: &Finding) -> TfpgRanked
    requires of_graph { IsFindingOf (sizes_of graph.now) finding.now }
    requires ranked { IsTrue (is_ranked finding.now.status) }
    ensures { HasNumbersOf finding.entry.now result }
{
    graph.is_always_valid();
    match &finding.status {
        Status::Ranked {
            trace,
            cost,
            alarmed,
            monitored,
        } => TfpgRanked {
            failures: failures_word(finding.set),
            doubts: doubts_words(finding.doubts),
            cost: *cost,
            hypothesis: finding.number,
            alarmed: *alarmed,
            monitored: *monitored,
            active: trace.as_slice().len() as u32,
        },
        Status::Covered { by: _ } => unreachable!(),
        Status::Rejected => unreachable!(),
        Status::Open => unreachable!(),
    }
}

/// The failure modes of a set as bits.
fn failures_word(set: Set) -> u64
    requires { All (λ position. position < MAX_MEMBERS) set }
    ensures { IsMask result (Contains set) }
{
    let mut word = 0;
    let mut left = set;
    while let Some(parts) = left.split_first() {
        word = with_bit(word, parts.0);
        left = parts.1;
    }
    word
}

/// The monitors of eight times 64 nodes as bits.
fn doubts_words(doubts: Doubts) -> [u64; 8]
    requires { All (λ node. node < MAX_NODE_NUMBERS) doubts }
    ensures { AreMasks result doubts }
{
    let mut words = [0; 8];
    let mut left = doubts;
    while let Some(parts) = left.split_first() {
        let number = (parts.0 / 64) as usize;
        words[number] = with_bit(words[number], parts.0 % 64);
        left = parts.1;
    }
    words
}

/// The word, with this bit too.
fn with_bit(word: u64, index: u32) -> u64
    requires { index < 64 }
    ensures { (other : ℕ) → (bit_at result other ≡ 1) ↔ ((bit_at word other ≡ 1) ⊎ (other ≡ index)) }
{
    word | 1 << index
}

/// Writes when each of so many nodes became active in the trace of a status that ranks, if there is room for all of them.
fn put_times(status: &Status, nodes: u32, times: &mut [u64])
    requires { IsTrue (is_ranked status.now) }
    ensures { times.new ≡ room_after (times_of_status nodes status.now) times.old }
{
    match status {
        Status::Ranked { trace, .. } => {
            let count = nodes as usize;
            if count <= times.len() {
                fill_times(trace, &mut times[..count]);
            }
        }
        Status::Covered { by: _ } => unreachable!(),
        Status::Rejected => unreachable!(),
        Status::Open => unreachable!(),
    }
}

/// Writes when each node became active in the trace, or never, from node 0 on.
fn fill_times(trace: &Trace, times: &mut [u64])
    requires { length times.old < 4294967296 }
    ensures { times.new ≡ times_in trace.now (length times.old) }
{
    for node in 0..times.len() {
        times[node] = trace.at(node as u32).unwrap_or(NEVER);
    }
}
