//! Laws of rounds that are read.

ghost use Rattle.std.specs.Prelude.{◌≡◌, ℕ, List, true, Result};
ghost use Rattle.tfpg_base.specs.Lines.{lines_of};
ghost use Rattle.tfpg_graph.specs.Graph.{Tfpg};
ghost use Rattle.tfpg_graph.specs.Valid.{IsValid};
ghost use Rattle.tfpg_evidence.specs.declared.round.Round.{Round};
ghost use Rattle.tfpg_report.specs.declared.fed.Fed.{Fed};
ghost use Rattle.tfpg_report.specs.declared.fed.ReadRefusal.{ReadRefusal};
ghost use Rattle.tfpg_report.specs.declared.read_round.ReadRound.{ReadRound};
ghost use Rattle.tfpg_report.specs.declared.report_line.ReportLine.{ReportLine};
ghost use Rattle.tfpg_report.specs.Blocks.{round_lines, round_text};
ghost use Rattle.tfpg_report.specs.ReadBack.{IsReadBack};
ghost use Rattle.tfpg_report.specs.Reading.{IsReadFrom};
ghost use Rattle.tfpg_report.specs.RenderedRounds.{IsWithinFormat, MayReturnInTurn, CompletesRound};
ghost use Rattle.tfpg_report.specs.Represents.{ReaderRepresents, ReaderState};
ghost use Rattle.tfpg_report.specs.Stands.{may_begin_block};

/// What was read from the lines of a round, wherever they stand in a report, is the round: its numbers, the steps of each
/// hypothesis that has some, the ranked ones with their traces, the open ones, those that it rejected, and the counts.
pub fn a_round_is_read_back()
    ensures { (first : ℕ) (round : Round) (read : ReadRound) → IsReadFrom first (round_lines round) read →
        IsReadBack round read }
{}

/// From the same lines with the same numbers one round is read.
pub fn lines_say_one_round()
    ensures { (first : ℕ) (lines : List ReportLine) (read other : ReadRound) → IsReadFrom first lines read →
        IsReadFrom first lines other → read ≡ other }
{}

/// What [`render`](crate::render) appends for a round is read back as that round. If a [`BlockReader`](crate::BlockReader) that is
/// between blocks takes the lines of it one by one, it refuses none of them, each before the last completes nothing, and the last
/// completes the round; or memory runs out. The round may be any that is within the limits of the format.
pub fn a_rendered_round_is_read_back()
    ensures { (graph : Tfpg) (round : Round) (reader : ReaderState) (before : List ReportLine)
        (results : List (Result Fed ReadRefusal)) → IsValid graph → IsWithinFormat graph round →
        ReaderRepresents reader before → may_begin_block reader.stand ≡ true →
        MayReturnInTurn graph before (lines_of (round_text graph round)) results → CompletesRound round results }
{}
