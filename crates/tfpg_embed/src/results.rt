//! What came last in a session, as numbers.

ghost use Rattle.std.specs.Prelude.{◌≡◌, if◌then◌else◌};
ghost use Rattle.tfpg_embed.specs.Results.{counts_in, last_time, now_in, number_of_round, refusal_number, refused_number, result_numbers, time_of_refusal, why_number};

use tfpg_diagnose::{Latest, Session};
use tfpg_evidence::Counts;
use tfpg_log::{Refusal, RefusedLine};

/// What the last line brought, and the numbers of the last round. Before the first line all of them are 0.
#[repr(C)]
#[derive(Clone, Copy, PartialEq, Eq)]
pub struct TfpgResult {
    /// Why the last line was refused, as a number from 1 in the order of [`Refusal`], and 10 for a line that is too long; 0 if it was not.
    pub refusal: u32,
    /// 1 if the last line brought a round that ranks other hypotheses than the round before it, or in another order, and else 0.
    pub changed: u32,
    /// The number of the last line, from 1.
    pub line: u64,
    /// If the last line was refused since its time was before that of the last event, that time in milliseconds, and else 0.
    pub last: u64,
    /// The number of the last round, from 1.
    pub round: u64,
    /// The time of its event in milliseconds.
    pub now: u64,
    /// How many hypotheses it ranks.
    pub ranked: u32,
    /// How many are covered.
    pub covered: u32,
    /// How many are rejected.
    pub rejected: u32,
    /// How many are open.
    pub unsettled: u32,
}

/// The numbers of what came last in a session.
pub(crate) fn result_of(session: &Session) -> TfpgResult
    ensures { result ≡ result_numbers session.now }
{
    let latest = session.latest();
    let counts = counts_in(latest);
    TfpgResult {
        refusal: why_number(latest.refusal),
        changed: flag(latest.is_changed),
        line: session.line_count(),
        last: last_time(latest.refusal),
        round: u64::from(number_in(latest)),
        now: now_in(latest),
        ranked: counts.ranked,
        covered: counts.covered,
        rejected: counts.rejected,
        unsettled: counts.unsettled,
    }
}

/// 1 for what holds, and 0 for what does not.
fn flag(holds: bool) -> u32
    ensures { result ≡ (if holds then 1 else 0) }
{
    if holds { 1 } else { 0 }
}

/// The number of why a line was refused, 0 if it was not.
fn why_number(refusal: Option<RefusedLine>) -> u32
    ensures { result ≡ why_number refusal }
{
    match refusal {
        None => 0,
        Some(why) => refused_number(why),
    }
}

/// The number of why a line was refused.
fn refused_number(why: RefusedLine) -> u32
    ensures { result ≡ refused_number why }
{
    match why {
        RefusedLine::TooLong => 10,
        RefusedLine::Offer(refusal) => refusal_number(refusal),
    }
}

/// The number of why a log refuses a line.
fn refusal_number(refusal: Refusal) -> u32
    ensures { result ≡ refusal_number refusal }
{
    match refusal {
        Refusal::BadLine => 1,
        Refusal::BadNumber => 2,
        Refusal::TimeTooLarge => 3,
        Refusal::TimeBack { last: _ } => 4,
        Refusal::UnknownName => 5,
        Refusal::NotMonitored => 6,
        Refusal::NotAMode => 7,
        Refusal::LogFull => 8,
        Refusal::ModesFull => 9,
    }
}

/// The time that goes with why a line was refused, in milliseconds, 0 if none does.
fn last_time(refusal: Option<RefusedLine>) -> u64
    ensures { result ≡ last_time refusal }
{
    match refusal {
        None => 0,
        Some(RefusedLine::TooLong) => 0,
        Some(RefusedLine::Offer(refusal)) => time_of_refusal(refusal),
    }
}

/// The time that goes with a refusal, in milliseconds, 0 if none does.
fn time_of_refusal(refusal: Refusal) -> u64
    ensures { result ≡ time_of_refusal refusal }
{
    match refusal {
        Refusal::TimeBack { last } => last,
        Refusal::BadLine => 0,
        Refusal::BadNumber => 0,
        Refusal::TimeTooLarge => 0,
        Refusal::UnknownName => 0,
        Refusal::NotMonitored => 0,
        Refusal::NotAMode => 0,
        Refusal::LogFull => 0,
        Refusal::ModesFull => 0,
    }
}

/// The number of the last round, 0 if there is none.
fn number_in(latest: &Latest) -> u32
    ensures { result ≡ number_of_round latest.now.round }
{
    match &latest.round {
        Some(round) => round.number,
        None => 0,
    }
}

/// The time of its event in milliseconds.
fn now_in(latest: &Latest) -> u64
    ensures { result ≡ now_in latest.now.round }
{
    match &latest.round {
        Some(round) => round.now,
        None => 0,
    }
}

/// Its counts.
fn counts_in(latest: &Latest) -> Counts
    ensures { result ≡ counts_in latest.now.round }
{
    match &latest.round {
        Some(round) => round.counts,
        None => Counts {
            ranked: 0,
            covered: 0,
            rejected: 0,
            unsettled: 0,
        },
    }
}
