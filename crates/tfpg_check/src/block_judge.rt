//! The judge of the blocks of a report.

ghost use Rattle.std.specs.Prelude.{◌≡◌, ◌↔◌, ◌+◌, ◌≤◌, [], ◌∷◌, length, IfOk, IsOk, OnOk, OnErr, IsTrue, None};
ghost use Rattle.tfpg_base.specs.declared.limits.TheConstants.{MAX_DOUBT};
ghost use Rattle.tfpg_base.specs.Lines.{lines_of};
ghost use Rattle.tfpg_log.specs.Log.{IsLogOf};
ghost use Rattle.tfpg_log.specs.LogOfLines.{new_log, log_after};
ghost use Rattle.tfpg_check.specs.Report.{event_of_line};
ghost use Rattle.tfpg_check.specs.inside.ReadRoundOf.{IsReadRoundOf};
ghost use Rattle.tfpg_check.specs.inside.BlockSteps.{IsFedOf, IsFedJudged, IsHeadJudged, IsNextLine, line_of_event, IsRefusedJudged, IsRoundJudged, IsJudgedByHypotheses};

use crate::cause::CheckCause;
use crate::judge_fault::JudgeFault;
use crate::kept_hypotheses::KeptHypotheses;
use crate::log_lines::LogLines;
use crate::log_text::LogText;
use crate::round_fault::RoundFault;
use std::alloc::Global;
use std::marker::Model;
use tfpg_base::{NoMemory, Terms};
use tfpg_graph::Graph;
use tfpg_log::{Event, Log, Offered, RefusedLine, is_too_long};
use tfpg_report::{Fed, ReadRound};

/// Judges the blocks of a report, each by the next line of the log. After a fault it is of no more use.
#[derive(Drop)]
pub(crate) struct BlockJudge<T: LogText> {
    alloc: Global,
    graph: Graph,
    /// The lines of the log that have no block yet.
    log_lines: LogLines<T>,
    /// The log of those that have one.
    log: Log,
    /// The hypotheses, once the first line of the report came.
    hypotheses: Option<KeptHypotheses>,
}

impl<T: LogText> Model for BlockJudge<T> {
    ghost use Rattle.tfpg_check.specs.JudgeState.{BlocksState};
    ghost use Rattle.tfpg_check.specs.inside.BlockSteps.{AreOfGraph};

    ghost Value = { BlocksState };

    ghost view = { λ judge. record {
      graph = judge.graph;
      log_lines = judge.log_lines;
      log = judge.log;
      hypotheses = judge.hypotheses;
    } };

    ghost invariant = { λ judge. AreOfGraph judge.graph judge.log judge.hypotheses };
}

/// What the next line of the log is.
enum NextLine {
    /// There is none.
    Missing,
    Refused(RefusedLine),
    Accepted,
}

impl NextLine {
    /// The line that brings this.
    fn of(event: Result<Event, RefusedLine>) -> NextLine
        ensures { result ≡ line_of_event event }
    {
        match event {
            Ok(_) => NextLine::Accepted,
            Err(refused) => NextLine::Refused(refused),
        }
    }
}

impl<T: LogText> BlockJudge<T> {
    /// The judge of a report of which no line came, by the graph and the text of the log. Takes no memory.
    pub(crate) fn new(alloc: Global, graph: Graph, log_text: T) -> BlockJudge<T>
        ensures { result ≡ record {
          graph = graph;
          log_lines = record { passed = 0; left = lines_of (T.text log_text) };
          log = new_log;
          hypotheses = None;
        } }
    {
        BlockJudge {
            alloc,
            graph,
            log_lines: LogLines::new(log_text),
            log: Log::new(alloc),
            hypotheses: None,
        }
    }

    /// The graph.
    pub(crate) fn graph(&self) -> &Graph
        ensures { result.now ≡ self.now.graph }
    {
        &self.graph
    }

    /// Whether each line of the log has its block.
    pub(crate) fn is_done(&self) -> bool
        ensures { IsTrue result ↔ (self.now.log_lines.left ≡ []) }
    {
        self.log_lines.first().is_none()
    }

    /// How many rounds there were.
    pub(crate) fn rounds(&self) -> u32
        ensures { result ≡ length self.now.log.events }
    {
        self.log.len()
    }

    /// Judges what the line of the report with this number completes.
    ///
    /// The head looks once at each two hypotheses. A refused line costs a pass over the line of the log, and a round what its steps
    /// and traces cost, and a pass over the hypotheses with a look at the largest proper parts of each.
    pub(crate) fn judge(&mut self, at: u64, fed: &Fed) -> Result<(), JudgeFault>
        requires { IsFedOf self.old.graph self.old.hypotheses fed.now }
        ensures judged { IsFedJudged at fed.entry.now self.old self.new result }
        ensures graph { self.new.graph ≡ self.old.graph }
    {
        match fed {
            Fed::More => Ok(()),
            Fed::Head { k, doubt, budget } => self.begin(Terms {
                k: *k,
                doubt: *doubt,
                budget: *budget,
            }),
            Fed::Refused { line, cause } => Ok(self.judge_refused(at, *line, *cause)?),
            Fed::Round(read) => Ok(self.judge_round(read)?),
            Fed::Lost { .. } => Ok(()),
        }
    }

    /// Keeps all hypotheses on these terms.
    fn begin(&mut self, terms: Terms) -> Result<(), JudgeFault>
        requires { terms.doubt ≤ MAX_DOUBT }
        ensures judged { IsHeadJudged terms self.old self.new result }
        ensures graph { self.new.graph ≡ self.old.graph }
    {
        self.hypotheses = Some(KeptHypotheses::new(self.alloc, &self.graph, terms)?);
        Ok(())
    }

    /// Judges the block of a refused line, which the line of the report with this number is.
    fn judge_refused(&mut self, at: u64, number: u64, cause: RefusedLine) -> Result<(), RoundFault>
        ensures judged { IsRefusedJudged (record { at = at; number = number; cause = cause }) self.old self.new result }
        ensures graph { self.new.graph ≡ self.old.graph }
    {
        match self.pass_line()? {
            NextLine::Missing => Err(RoundFault::NotAccepted {
                line: at,
                cause: CheckCause::Surplus,
            }),
            NextLine::Refused(refused) => {
                if refused == cause && number == self.log_lines.passed() {
                    return Ok(());
                }
                Err(RoundFault::NotAccepted {
                    line: at,
                    cause: CheckCause::WrongRound,
                })
            }
            NextLine::Accepted => Err(RoundFault::NotAccepted {
                line: at,
                cause: CheckCause::WrongRound,
            }),
        }
    }

    /// Judges the block of a round.
    fn judge_round(&mut self, read: &ReadRound) -> Result<(), RoundFault>
        requires lines { IsReadRoundOf self.old.graph read.now }
        requires begun { (self.old.hypotheses ≡ None) → ⊥ }
        ensures judged { IsRoundJudged read.entry.now self.old self.new result }
        ensures graph { self.new.graph ≡ self.old.graph }
    {
        match self.pass_line()? {
            NextLine::Missing => Err(RoundFault::NotAccepted {
                line: read.first_line,
                cause: CheckCause::Surplus,
            }),
            NextLine::Refused(_) => Err(RoundFault::NotAccepted {
                line: read.first_line,
                cause: CheckCause::WrongRound,
            }),
            NextLine::Accepted => self.judge_by_hypotheses(read),
        }
    }

    /// Judges a round by what was kept of the hypotheses, once its line of the log was passed.
    fn judge_by_hypotheses(&mut self, read: &ReadRound) -> Result<(), RoundFault>
        requires lines { IsReadRoundOf self.old.graph read.now }
        requires begun { (self.old.hypotheses ≡ None) → ⊥ }
        ensures judged { IsJudgedByHypotheses read.entry.now self.old self.new result }
        ensures graph { self.new.graph ≡ self.old.graph }
    {
        let line = self.log_lines.passed();
        match &mut self.hypotheses {
            Some(hypotheses) => hypotheses.judge_round(&self.graph, &mut self.log, read, line),
            None => unreachable!(),
        }
    }

    /// Passes the next line of the log, and offers it to the log.
    fn pass_line(&mut self) -> Result<NextLine, NoMemory>
        ensures next { IfOk result (λ next. IsNextLine self.old self.new next) }
        ensures graph { self.new.graph ≡ self.old.graph }
        ensures hypotheses { self.new.hypotheses ≡ self.old.hypotheses }
    {
        let Some(text) = self.log_lines.first() else {
            return Ok(NextLine::Missing);
        };
        let event = event_of(&mut self.log, &self.graph, text)?;
        self.log_lines.pass();
        Ok(NextLine::of(event))
    }
}

/// Offers a line to the log, unless it is too long: its event, or why it brings none.
fn event_of(
    log: &mut Log,
    graph: &Graph,
    line: &[u8],
) -> Result<Result<Event, RefusedLine>, NoMemory>
    requires { IsLogOf graph.now log.old }
    ensures event { IfOk result (λ event. event_of_line graph.now log.old line.now ≡ event) }
    ensures log { OnOk result (log.new ≡ log_after graph.now log.old line.now) }
    ensures err { OnErr result (log.new ≡ log.old) }
    ensures of { IsLogOf graph.now log.new }
{
    if is_too_long(line) {
        return Ok(Err(RefusedLine::TooLong));
    }
    match log.offer(graph, line)? {
        Offered::Accepted(event) => Ok(Ok(event)),
        Offered::Refused(refusal) => Ok(Err(RefusedLine::Offer(refusal))),
    }
}
