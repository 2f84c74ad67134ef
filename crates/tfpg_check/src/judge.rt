//! The judge of reports.

ghost use Rattle.std.specs.Prelude.{◌≡◌, ◌+◌, ◌-◌, ◌<◌, ◌≤◌, ◌^◌, ◌↔◌, [], ℕ, List, length, true, IfErr, OnOk, Err, Some, None, IsTrue};
ghost use Rattle.tfpg_base.specs.Lines.{lines_of};
ghost use Rattle.tfpg_report.specs.declared.report_line.ReportLine.{ReportLine};
ghost use Rattle.tfpg_report.specs.Stands.{may_begin_block};
ghost use Rattle.tfpg_report.specs.Represents.{ReaderRepresents};
ghost use Rattle.tfpg_check.specs.declared.judge_fault.JudgeFault.{JudgeFault as FaultOf};
ghost use Rattle.tfpg_check.specs.Causes.{DiagnosisProblem};
ghost use Rattle.tfpg_check.specs.Judged.{IsJudged, IsJudgedAtEnd};
ghost use Rattle.tfpg_check.specs.JudgeState.{JudgeRepresents, GoesOnTo};
ghost use Rattle.tfpg_check.specs.inside.LineSteps.{CanRead, IsLineJudged};

use crate::block_judge::BlockJudge;
use crate::cause::CheckCause;
use crate::judge_fault::JudgeFault;
use crate::log_text::LogText;
use std::alloc::Global;
use std::marker::Model;
use tfpg_graph::Graph;
use tfpg_report::BlockReader;

/// Judges a report by a graph and the text of a log. It takes the lines of the report one by one, and keeps of those before only
/// what the next ones are judged by: the lines of the round that has not ended, the log, and for each hypothesis the path to the
/// present leaf of its tree.
#[derive(Drop)]
pub struct Judge<T: LogText = Vec<u8>> {
    reader: BlockReader,
    blocks: BlockJudge<T>,
    /// How many lines of the report it was given.
    lines: u64,
    fault: Option<JudgeFault>,
}

impl<T: LogText> Model for Judge<T> {
    ghost use Rattle.tfpg_check.specs.JudgeState.{JudgeState};
    ghost use Rattle.tfpg_check.specs.inside.LineSteps.{IsJudge};

    ghost Value = { JudgeState };

    ghost view = { λ judge. record {
      reader = judge.reader;
      blocks = judge.blocks;
      lines = judge.lines;
      fault = judge.fault;
    } };

    ghost invariant = { λ judge. IsJudge judge.reader judge.blocks judge.lines judge.fault };
}

impl Judge {
    /// The judge of a report of which no line came. It owns the text of the log. Takes no memory.
    pub fn new(alloc: Global, graph: Graph, log_text: Vec<u8>) -> Judge
        ensures represents { (problem : DiagnosisProblem) → problem.graph ≡ graph →
            problem.log_lines ≡ lines_of log_text.items → JudgeRepresents problem result [] }
        ensures running { result.fault ≡ None }
        ensures no_lines { result.lines ≡ 0 }
    {
        Judge::by(alloc, graph, log_text)
    }
}

impl<T: LogText> Judge<T> {
    /// The judge of a report of which no line came, by the text of a log that it owns or borrows. Takes no memory.
    pub fn by(alloc: Global, graph: Graph, log_text: T) -> Judge<T>
        ensures represents { (problem : DiagnosisProblem) → problem.graph ≡ graph →
            problem.log_lines ≡ lines_of (T.text log_text) → JudgeRepresents problem result [] }
        ensures running { result.fault ≡ None }
        ensures no_lines { result.lines ≡ 0 }
    {
        Judge {
            reader: BlockReader::new(alloc),
            blocks: BlockJudge::new(alloc, graph, log_text),
            lines: 0,
            fault: None,
        }
    }

    /// Takes the next line of the report, without its line end. The first one has the number 1, each later one the next number. The
    /// fault has the line and the cause of the first test that fails, where a block is tested with its last line; or it says that there
    /// are too many hypotheses on the terms of the first line. Each later call returns the same fault.
    ///
    /// It costs a pass over the line. What a block costs besides comes with its last line: that of the head looks once at each two
    /// hypotheses, for what is a proper part of what; a round costs what its steps and traces cost, and a pass over the hypotheses,
    /// with a look at their largest proper parts, of which a hypothesis has at most `k`, but no such pass if it has no steps and ranks
    /// the same hypotheses as the round before; and the block of a refused line a pass over the line of the log.
    pub fn take(&mut self, number: u64, line: &[u8]) -> Result<(), JudgeFault>
        requires few { number < 2 ^ 64 - 1 }
        requires next { self.old.fault ≡ None → number ≡ self.old.lines + 1 }
        ensures judged { (problem : DiagnosisProblem) (reads : List ReportLine) → JudgeRepresents problem self.old reads →
            IsJudged problem reads line.now result }
        ensures goes_on { (problem : DiagnosisProblem) (reads : List ReportLine) → JudgeRepresents problem self.old reads →
            OnOk result (GoesOnTo problem reads line.now self.new) }
        ensures again { (fault : FaultOf) → self.old.fault ≡ Some fault → (result ≡ Err fault) × (self.new ≡ self.old) }
        ensures refuses { IfErr result (λ fault. self.new.fault ≡ Some fault) }
        ensures running { OnOk result (self.new.fault ≡ None) }
        ensures lines { OnOk result (self.new.lines ≡ number) }
    {
        if let Some(fault) = self.fault {
            return Err(fault);
        }
        self.blocks.graph().is_always_valid();
        match take_line(&mut self.reader, &mut self.blocks, number, line) {
            Ok(()) => {
                self.lines = number;
                Ok(())
            }
            Err(fault) => {
                self.fault = Some(fault);
                Err(fault)
            }
        }
    }

    /// Ends the report with the lines that were given: how many rounds it has. Where it is empty, ends in a round, or has no block for
    /// the last line of the log, the fault says so, by the number of the line that is missing. Each later call returns the same fault.
    pub fn end(&mut self) -> Result<u32, JudgeFault>
        ensures ends { (problem : DiagnosisProblem) (reads : List ReportLine) → JudgeRepresents problem self.old reads →
            IsJudgedAtEnd problem reads result }
        ensures again { (fault : FaultOf) → self.old.fault ≡ Some fault → (result ≡ Err fault) × (self.new ≡ self.old) }
        ensures refuses { IfErr result (λ fault. self.new.fault ≡ Some fault) }
        ensures same { OnOk result (self.new ≡ self.old) }
    {
        if let Some(fault) = self.fault {
            return Err(fault);
        }
        if self.is_whole() {
            return Ok(self.blocks.rounds());
        }
        let fault = JudgeFault::NotAccepted {
            line: self.lines + 1,
            cause: CheckCause::EndsEarly,
        };
        self.fault = Some(fault);
        Err(fault)
    }

    /// Whether a report may end with the lines that were given: no round has begun, and each line of the log has its block.
    fn is_whole(&self) -> bool
        ensures { IsTrue result ↔
            ((may_begin_block self.now.reader.stand ≡ true) × (self.now.blocks.log_lines.left ≡ [])) }
    {
        self.reader.is_between_blocks() && self.blocks.is_done()
    }
}

/// Reads the line with this number, and judges what it completes.
fn take_line<T: LogText>(
    reader: &mut BlockReader,
    blocks: &mut BlockJudge<T>,
    number: u64,
    line: &[u8],
) -> Result<(), JudgeFault>
    requires ready { reader.old.refused ≡ None }
    requires numbered { 1 ≤ number }
    requires reading { CanRead reader.old blocks.old (number - 1) }
    ensures judged { (reads : List ReportLine) → ReaderRepresents reader.old reads → number ≡ length reads + 1 →
        IsLineJudged reads line.now reader.new blocks.old blocks.new result }
    ensures ready { OnOk result (reader.new.refused ≡ None) }
{
    match &reader.take(blocks.graph(), number, line) {
        Ok(fed) => blocks.judge(number, fed),
        Err(refusal) => Err(JudgeFault::from(*refusal)),
    }
}
