//! What the definitions of reports, of fleets, of runs and of conversions come to, as functions that do nothing: each says its
//! laws in its clauses.

ghost use Rattle.std.specs.Prelude.{◌≡◌, ℕ, List, [], Contains, Some, Result, Ok, true, false, slice_get};
ghost use Rattle.tfpg_base.specs.declared.terms.Terms.{Terms};
ghost use Rattle.tfpg_base.specs.Hypothesis.{believing};
ghost use Rattle.tfpg_base.specs.Lines.{lines_of};
ghost use Rattle.tfpg_graph.specs.Graph.{Tfpg};
ghost use Rattle.tfpg_graph.specs.Valid.{IsValid};
ghost use Rattle.tfpg_evidence.specs.declared.finding.Finding.{Finding};
ghost use Rattle.tfpg_evidence.specs.declared.round.Round.{Round};
ghost use Rattle.tfpg_evidence.specs.Findings.{hypothesis_of};
ghost use Rattle.tfpg_evidence.specs.RoundOf.{is_rejected};
ghost use Rattle.tfpg_report.specs.Blocks.{Block, Loss, RoundBlock};
ghost use Rattle.tfpg_check.specs.declared.cause.CheckCause.{CheckCause};
ghost use Rattle.tfpg_check.specs.Report.{AreBlocks};
ghost use Rattle.tfpg_sim.specs.declared.simulated.Simulated.{Simulated};
ghost use Rattle.tfpg_sim.specs.Simulated.{IsSimulationOf};
ghost use Rattle.tfpg_base.specs.Outside.{file_of};
ghost use Rattle.tfpg_graph.specs.Text.{canonical_text};
ghost use Rattle.tfpg_run.specs.declared.end.End.TheVariants.{Done};
ghost use Rattle.tfpg_run.specs.Fetch.{GivesGraph};
ghost use Rattle.tfpg_run.specs.World.{World};
ghost use Rattle.tfpg_run.specs.convert.Converting.{ConvertEnds};
ghost use Rattle.tfpg_fleet.specs.Alone.{RoundsFindTheSame};
ghost use Rattle.tfpg_fleet.specs.Belonging.{lines_for};
ghost use Rattle.tfpg_run.specs.InTime.{AnswersComeInTime, BlocksComeInTime};
ghost use Rattle.tfpg_diagnose.specs.BlockFindings.{HasSettledRoundInBlock};
ghost use Rattle.tfpg_run.specs.fleet.Answers.{Answer, blocks_for};
ghost use Rattle.tfpg_run.specs.fleet.FleetOutput.{AreAnswers, FleetProblem};
ghost use Rattle.tfpg_words.specs.Meaning.{Check, Diagnose, Meaning};
ghost use Rattle.tfpg_words.specs.declared.usage_cause.UsageCause.{UsageCause};
ghost use Rattle.tfpg_run.specs.declared.end.End.{End};
ghost use Rattle.tfpg_run.specs.Completeness.{CanBeDone, CanRefuse, IsCompleted, IsRefusedFor, NothingFails};
ghost use Rattle.tfpg_run.specs.FilesAsked.{AsksInOrder, named_files};
ghost use Rattle.tfpg_run.specs.Run.{RunEnds};
ghost use Rattle.tfpg_run.specs.check.AfterDiagnosis.{FollowsDiagnosis};

use tfpg_check::laws::lines_have_at_most_one_cause;
use tfpg_clause::laws::a_refutation_leaves_no_trace;
use tfpg_fleet::laws::rounds_of_the_same_lines_find_the_same;
use tfpg_graph::laws::a_text_has_at_most_one_first_fault;
use tfpg_json::laws::{a_text_has_at_most_one_first_fault_as_json, a_written_graph_is_read_back};
use tfpg_report::laws::a_report_line_says_one_thing;
use tfpg_sim::laws::a_simulated_log_is_accepted_and_explained;

/// In the blocks of a diagnosis of a simulated log, on any terms, no round rejects the simulated set.
pub fn a_simulated_set_is_rejected_in_no_round()
    ensures { (graph : Tfpg) (script : List ℕ) (draw : ℕ) (simulated : Simulated) (terms : Terms)
        (blocks : List Block) → IsValid graph → IsSimulationOf graph script draw simulated →
        AreBlocks graph terms (lines_of simulated.log) blocks →
        (index : ℕ) (round : Round) (losses : List Loss) →
        slice_get blocks index ≡ Some (RoundBlock round losses) →
        (finding : Finding) → Contains round.findings finding →
        hypothesis_of finding ≡ believing simulated.set → is_rejected finding.status ≡ false }
{
    a_refutation_leaves_no_trace();
    a_simulated_log_is_accepted_and_explained();
}

/// A vehicle is diagnosed as if it were alone. Take the answers of `fleet` to a stream, and the blocks of a diagnosis of the own lines of one
/// of its vehicles alone, with the same `k` and `doubt`. Where the blocks of the same own line are rounds, and no hypothesis is open in either,
/// each hypothesis has the same status in both.
pub fn a_vehicle_is_diagnosed_as_if_alone()
    ensures { (fleet : FleetProblem) (alone : Terms) (stream : List (List ℕ)) (answers : List Answer) (number : ℕ)
        (blocks : List Block) →
        IsValid fleet.graph → fleet.terms.k ≡ alone.k → fleet.terms.doubt ≡ alone.doubt →
        AreAnswers fleet stream answers → AreBlocks fleet.graph alone (lines_for fleet.names number stream) blocks →
        (index : ℕ) (round other : Round) →
        HasSettledRoundInBlock (blocks_for number answers) index round → HasSettledRoundInBlock blocks index other →
        RoundsFindTheSame round other }
{
    rounds_of_the_same_lines_find_the_same();
}

/// Each block is written before the next read. If a read of the input fails, a run of `diagnose` has written the whole report of the lines that
/// came whole by then, and told its rounds. It cannot write after that read: the write may fail too, and no run ends with both failed.
pub fn each_block_is_written_before_the_next_read()
    ensures { BlocksComeInTime }
{}

/// So does `fleet` with each answer.
pub fn each_answer_is_written_before_the_next_read()
    ensures { AnswersComeInTime }
{}

/// A run asks the shelf for no file but those that its words name, in their order, and for none after the first that is missing or too long.
/// So LOG is not asked for where there is no GRAPH.
pub fn files_are_asked_for_in_order()
    ensures { (meant : Result Meaning UsageCause) (before now : World) (end : End) → RunEnds meant before now end →
        AsksInOrder (named_files meant) before.shelf now.shelf }
{}

/// Where the files and the input serve what the words mean, and nothing fails, a run is done, or memory ran out. Where the lines of a report
/// have a cause for which they are not accepted, a check ends with it and its line, or memory ran out.
pub fn only_memory_hinders_a_run()
    ensures completes { (meant : Meaning) (before now : World) (end : End) → RunEnds (Ok meant) before now end →
        CanBeDone meant before → NothingFails before now → IsCompleted end }
    ensures refuses { (graph log : List ℕ) (line : ℕ) (cause : CheckCause) (before now : World) (end : End) →
        RunEnds (Ok (Check graph log)) before now end →
        CanRefuse before.shelf before.input graph log line cause → NothingFails before now → IsRefusedFor line cause end }
{
    a_text_has_at_most_one_first_fault();
    a_text_has_at_most_one_first_fault_as_json();
    lines_have_at_most_one_cause();
    a_report_line_says_one_thing();
}

/// What a diagnosis that is done has written is accepted by `check`, with the same graph file, and with a log file that has the lines of the
/// input that was diagnosed: the check is done, or memory runs out, where neither files, input nor output fail.
pub fn what_diagnose_wrote_is_accepted()
    ensures can_be_done { (terms : Terms) (diagnosed graph log : List ℕ) (before now later : World) →
        RunEnds (Ok (Diagnose terms diagnosed)) before now Done →
        FollowsDiagnosis diagnosed graph log before now later → CanBeDone (Check graph log) later }
    ensures accepted { (terms : Terms) (diagnosed graph log : List ℕ) (before now later after : World)
        (end : End) → RunEnds (Ok (Diagnose terms diagnosed)) before now Done →
        FollowsDiagnosis diagnosed graph log before now later →
        RunEnds (Ok (Check graph log)) later after end → NothingFails later after → IsCompleted end }
{
    a_text_has_at_most_one_first_fault();
    a_text_has_at_most_one_first_fault_as_json();
    lines_have_at_most_one_cause();
    a_report_line_says_one_thing();
}

/// A graph that is converted to JSON and back is the same graph: where the file of a run with `--json` is what another run wrote
/// without it, it writes the canonical text of the graph that this other run read.
pub fn a_converted_graph_is_converted_back()
    ensures { (name json_name written : List ℕ) (before now later end : World) (files : List (List ℕ × List ℕ)) →
        ConvertEnds false name before now Done →
        before.output.holds ≡ Some [] → now.output.holds ≡ Some written →
        later.shelf.files ≡ Some files → file_of files json_name ≡ Some written →
        ConvertEnds true json_name later end Done → later.output.holds ≡ Some [] →
        (graph : Tfpg) × GivesGraph before.shelf name graph × (end.output.holds ≡ Some (canonical_text graph)) }
{
    a_written_graph_is_read_back();
}
