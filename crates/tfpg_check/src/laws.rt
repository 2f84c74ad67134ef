//! What the definitions of this crate come to, as functions that do nothing: each says its law in its clauses.

ghost use Rattle.std.specs.Prelude.{◌≡◌, ◌↔◌, ◌+◌, ℕ, List, [], ◌∷◌, ◌++◌, length, take, Some, Ok};
ghost use Rattle.tfpg_base.specs.declared.terms.Terms.{Terms};
ghost use Rattle.tfpg_graph.specs.Graph.{Tfpg};
ghost use Rattle.tfpg_graph.specs.Valid.{IsValid};
ghost use Rattle.tfpg_log.specs.declared.event.Event.{Event};
ghost use Rattle.tfpg_evidence.specs.declared.round.Round.{Round};
ghost use Rattle.tfpg_hyp.specs.Rounds.{IsRound};
ghost use Rattle.tfpg_report.specs.declared.read_round.ReadRound.{ReadRound};
ghost use Rattle.tfpg_report.specs.declared.report_line.ReportLine.{ReportLine};
ghost use Rattle.tfpg_report.specs.declared.stand.Stand.{Stand};
ghost use Rattle.tfpg_report.specs.Blocks.{Block, round_lines};
ghost use Rattle.tfpg_report.specs.Reading.{IsReadFrom, MayCome};
ghost use Rattle.tfpg_report.specs.Stands.{stand_after_all};
ghost use Rattle.tfpg_check.specs.Report.{AreBlocks, new_progress, progress_after, progress_of};
ghost use Rattle.tfpg_check.specs.Judging.{RoundBasis};
ghost use Rattle.tfpg_check.specs.Passing.{RoundPasses};
ghost use Rattle.tfpg_check.specs.Causes.{AreRead, DiagnosisProblem, IsRoundBasis, next_event, progress_after_blocks};
ghost use Rattle.tfpg_check.specs.EqualReports.{EqualReportsSayTheSame};
ghost use Rattle.tfpg_check.specs.RightReports.{LinesHaveOneCause, LinesOfReportsCanBeRead, LinesOfTooManyHaveNoCause, ReportsHaveNoCause, ShortReportsHaveNoCause, WholeLinesAreThoseOfReports};

use tfpg_clause::laws::{a_partial_tree_has_one_present_leaf, a_refutation_is_finished};
use tfpg_hyp::laws::{
    a_round_is_of_its_graph, rounds_say_which_sets_fit, subsets_stand_before_their_supersets,
};
use tfpg_report::laws::{a_report_is_read_in_its_order, a_report_line_says_one_thing};

/// A report goes on block by block: what it has come to after one more line and its block follows from what it had come to
/// before.
pub fn a_report_goes_on_block_by_block()
    ensures start { (graph : Tfpg) → progress_of graph [] [] ≡ new_progress }
    ensures step { (graph : Tfpg) (lines : List (List ℕ)) (blocks : List Block) (line : List ℕ)
        (block : Block) →
        progress_of graph (lines ++ line ∷ []) (blocks ++ block ∷ [])
        ≡ progress_after graph (progress_of graph lines blocks) line block }
{}

/// Equal reports of one graph and one list of lines say the same: they are on the same terms, and for each line both refuse it for the
/// same cause, or give each hypothesis the same status, and each ranked one the same trace.
pub fn equal_reports_say_the_same()
    ensures { EqualReportsSayTheSame }
{
    rounds_say_which_sets_fit();
    a_round_is_of_its_graph();
    subsets_stand_before_their_supersets();
}

/// Each line of a report of a valid graph and a log can be read, whoever wrote it, where its lines are those of at most 2^32 bytes: it names
/// only what the graph has, its numbers are within their limits, it is not too long, and it may come where it stands.
pub fn the_lines_of_a_report_can_be_read()
    ensures { LinesOfReportsCanBeRead }
{
    a_round_is_of_its_graph();
    a_report_is_read_in_its_order();
}

/// A report of a valid graph and a log has no cause for which it would not be accepted, whoever wrote it, where each of its lines can be
/// read: it names only what the graph has, its numbers are within their limits, and it is not too long.
pub fn a_report_has_no_cause()
    ensures { ReportsHaveNoCause }
{
    a_report_line_says_one_thing();
}

/// Lines have at most one cause for which they are not accepted, at one line. Where they are those of at most 2^32 bytes and of a report of a
/// valid graph and a log, they have none. Nor have they one where the first line gives too many hypotheses: such lines are not judged.
pub fn lines_have_at_most_one_cause()
    ensures one { LinesHaveOneCause }
    ensures none { ShortReportsHaveNoCause }
    ensures too_many { LinesOfTooManyHaveNoCause }
{
    a_partial_tree_has_one_present_leaf();
    a_refutation_is_finished();
    a_report_line_says_one_thing();
    a_round_is_of_its_graph();
    a_report_is_read_in_its_order();
}

/// The lines that a judge accepts up to the end are those of a report of its graph and log, with as many rounds as it returns. Lines that
/// each can be read where they stand remain such with one more line that may come.
pub fn accepted_lines_are_those_of_a_report()
    ensures next { (graph : Tfpg) (lines : List (List ℕ)) (reads : List ReportLine) (bytes : List ℕ)
        (read : ReportLine) → AreRead graph lines reads → MayCome graph reads bytes read →
        AreRead graph (lines ++ bytes ∷ []) (reads ++ read ∷ []) }
    ensures whole { WholeLinesAreThoseOfReports }
{}

/// A round was read from lines that may come one after the other, and is judged for the event of the next line of the log after right
/// blocks. It passes each test exactly if its lines are those of a right round.
pub fn a_round_passes_if_it_is_right()
    ensures { (problem : DiagnosisProblem) (terms : Terms) (blocks : List Block) (event : Event)
        (basis : RoundBasis) (before after : Stand) (first : ℕ) (lines : List ReportLine) (read : ReadRound) →
        IsValid problem.graph → AreBlocks problem.graph terms (take (length blocks) problem.log_lines) blocks →
        next_event problem blocks ≡ Some (Ok event) → IsRoundBasis problem terms blocks event basis →
        stand_after_all before lines ≡ Some after → IsReadFrom first lines read →
        RoundPasses basis (length blocks + 1) read ↔
        ((round : Round) × (round_lines round ≡ lines) ×
        IsRound problem.graph terms (progress_after_blocks problem blocks).rounds basis.log (length blocks + 1) round) }
{}
