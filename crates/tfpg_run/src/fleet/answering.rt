//! The answer to a line of the stream.

ghost use Rattle.std.specs.Prelude.{◌≡◌, ◌<◌, ◌++◌, [], ◌∷◌, ℕ, List, IfOk, codes, decimal, length, slice_index_or};
ghost use Rattle.tfpg_base.specs.TextLine.{text_line};
ghost use Rattle.tfpg_base.specs.Append.{Appends};
ghost use Rattle.tfpg_graph.specs.Graph.{sizes_of};
ghost use Rattle.tfpg_run.specs.fleet.Answers.{Answer, naming_text};
ghost use Rattle.tfpg_run.specs.inside.fleet.UnderWay.{Answers, HasAnswered, IsToldOf, IsWatching, answer_turn, problem_in, told_text};

use super::opening::append_name;
use super::watch::{Vehicles, Watch, keep_at, kept_at, ranked_after};
use itoa::Buffer;
use std::alloc::Global;
use std::sync::ledger::Ledger;
use tfpg_base::{NoMemory, Steps, append_line};
use tfpg_engine::Told;
use tfpg_fleet::FleetTold;
use tfpg_graph::Graph;
use tfpg_hyp::laws::{
    a_round_is_of_its_graph, rounds_say_which_sets_fit, statuses_are_those_of_minimal_sets,
};
use tfpg_log::laws::a_log_of_lines_is_of_its_graph;
use tfpg_report::{RefusedLine, refused, render};

/// The answer to the line of this number in the stream, for a line that is not too long.
pub(super) fn answer_line<L: Ledger>(
    alloc: Global,
    vehicles: &Vehicles<'_>,
    watch: &mut Watch,
    number: u64,
    text: &[u8],
    work: &mut Steps<L>,
) -> Result<Vec<u8>, NoMemory>
    requires { IsWatching (problem_in vehicles.now) watch.old }
    ensures { (lines : List (List ℕ)) (answers : List Answer) →
        HasAnswered (problem_in vehicles.now) lines answers watch.old →
        IfOk result (λ answer. Answers (problem_in vehicles.now) (answer_turn lines answers text.now number work.old work.new)
        answer.items watch.new) }
{
    rounds_say_which_sets_fit();
    statuses_are_those_of_minimal_sets();
    a_round_is_of_its_graph();
    a_log_of_lines_is_of_its_graph();
    vehicles.graph.is_always_valid();
    match watch.fleet.line(text, work)? {
        FleetTold::Stray => stray_answer(alloc, number),
        FleetTold::Of {
            vehicle,
            line,
            told,
        } => {
            let vehicle = vehicle as usize;
            let failures = vehicles.graph.failure_count();
            let before = kept_at(&watch.ranked, vehicle);
            keep_at(
                &mut watch.ranked,
                vehicle,
                ranked_after(&told, before, failures),
            );
            own_answer(alloc, vehicles, vehicle, line, told)
        }
    }
}

/// The answer to a stray line of this number in the stream.
pub(super) fn stray_answer(alloc: Global, number: u64) -> Result<Vec<u8>, NoMemory>
    ensures { IfOk result (λ text. text.items ≡ text_line (codes "stray" ∷ decimal number ∷ [])) }
{
    let mut digits = Buffer::new();
    let mut text = Vec::new(alloc);
    append_line(&mut text, &[b"stray", digits.format(number).as_bytes()])?;
    Ok(text)
}

/// The answer to a line of the vehicle of this number, whose own line of this number brought this.
fn own_answer(
    alloc: Global,
    vehicles: &Vehicles<'_>,
    vehicle: usize,
    line: u64,
    told: Told,
) -> Result<Vec<u8>, NoMemory>
    requires within { vehicle < length vehicles.now.names.now }
    requires of { IsToldOf (sizes_of vehicles.now.graph.now) told }
    ensures { IfOk result (λ text. text.items ≡ naming_text (slice_index_or vehicles.now.names.now vehicle [])
        ++ told_text vehicles.now.graph.now line told) }
{
    let mut text = Vec::new(alloc);
    append_name(vehicles.names.as_slice()[vehicle].as_slice(), &mut text)?;
    append_told(vehicles.graph, line, &told, &mut text)?;
    Ok(text)
}

/// Appends the block of an own line of this number that brought this.
fn append_told(graph: &Graph, line: u64, told: &Told, into: &mut Vec<u8>) -> Result<(), NoMemory>
    requires { IsToldOf (sizes_of graph.now) told.now }
    ensures { Appends result into.old.items into.new.items (told_text graph.now line told.now) }
{
    match told {
        Told::Refused(refusal) => refused(line, RefusedLine::Offer(*refusal), into),
        Told::Round(round) => render(graph, round, into),
    }
}
