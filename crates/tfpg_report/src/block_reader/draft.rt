//! What a reader of reports keeps of a round that has not ended.

ghost use Rattle.std.specs.Prelude.{◌≡◌, true, OnOk};
ghost use Rattle.tfpg_report.specs.inside.Drafts.{part_with, ranked_with, has_part, has_ranked, lets, says_set, with_hypothesis, with_step, with_activation, settled, with_begun, with_open, with_rejected, with_cycle_ended, with_cycle, with_reason, opened, round_of, named_at, new_part, draft_with, left_after, completed};

use crate::{
    Fed, NamedSet, NamedSetList, Part, PartList, RankedLine, RankedLineList, ReadRound, ReportLine,
    Stand,
};
use std::alloc::Global;
use std::mem;
use tfpg_base::{Activation, Hypothesis, LineList, NoMemory, Trace};
use tfpg_evidence::{Counts, Reason, Reasons, Step, StepList};

/// What was read of a round that has not ended. Each list has what is whole, in the order of the lines.
#[derive(Drop)]
pub(crate) struct RoundDraft {
    /// The number of the round.
    number: u32,
    /// The number of the line of the log.
    line: u64,
    /// The time in milliseconds.
    now: u64,
    /// The line of the report on which the round begins.
    first_line: u64,
    parts: PartList,
    ranked: RankedLineList,
    unsettled: NamedSetList,
    rejected: NamedSetList,
    under_way: UnderWay,
    /// The line of the report on which the cycle begins that lacks some of its reasons.
    cycle_line: u64,
    /// The reasons that it has.
    reasons: Reasons,
}

/// What later lines of the round may go on with.
#[derive(Drop)]
pub(crate) enum UnderWay {
    Nothing,
    /// A hypothesis with its steps.
    Part(Part),
    /// A ranked hypothesis with its trace.
    Ranked(RankedLine),
}

impl RoundDraft {
    /// The draft of a round of which only its first line was read. Takes no memory.
    fn opened(alloc: Global, first_line: u64, number: u32, line: u64, now: u64) -> RoundDraft
        ensures { result ≡ opened first_line number line now }
    {
        RoundDraft {
            number,
            line,
            now,
            first_line,
            parts: PartList::new(alloc),
            ranked: RankedLineList::new(alloc),
            unsettled: NamedSetList::new(alloc),
            rejected: NamedSetList::new(alloc),
            under_way: UnderWay::Nothing,
            cycle_line: 0,
            reasons: Reasons::new(alloc),
        }
    }

    /// The draft of no round. Takes no memory.
    pub(crate) fn empty(alloc: Global) -> RoundDraft
        ensures { result ≡ opened 0 0 0 0 }
    {
        RoundDraft::opened(alloc, 0, 0, 0, 0)
    }

    /// Adds the line with this number, after which the reader has this stand. Costs amortized constant time.
    pub(crate) fn add(
        &mut self,
        alloc: Global,
        at: u64,
        next: Stand,
        line: &ReportLine,
    ) -> Result<(), NoMemory>
        requires { lets self.old.under_way line.now ≡ true }
        ensures { OnOk result (self.new ≡ draft_with at next line.now self.old) }
    {
        match line {
            ReportLine::Head(_) => Ok(()),
            ReportLine::OldHead { .. } => Ok(()),
            ReportLine::Refused { .. } => Ok(()),
            ReportLine::Round { number, line, now } => {
                *self = RoundDraft::opened(alloc, at, *number, *line, *now);
                Ok(())
            }
            ReportLine::Hyp { number } => self.begin(part_at(alloc, at, *number)),
            ReportLine::Split(name) => self.add_step(at, Step::Split(*name)),
            ReportLine::Cycle { .. } => self.begin_cycle(alloc, at, next),
            ReportLine::Why(reason) => self.add_reason(alloc, *reason, next),
            ReportLine::Again => self.add_step(at, Step::Again),
            ReportLine::Ranked { .. } => self.add_hypothesis(alloc, at, line),
            ReportLine::At(activation) => self.add_activation(*activation),
            ReportLine::Open { .. } => self.add_hypothesis(alloc, at, line),
            ReportLine::Rejected { .. } => self.add_hypothesis(alloc, at, line),
            ReportLine::Counts(_) => self.settle(),
            ReportLine::Panel { .. } => Ok(()),
        }
    }

    /// What the line with this number, which was added, completes. If that is the round, the draft of no round is left.
    pub(crate) fn complete(&mut self, alloc: Global, at: u64, line: &ReportLine) -> Fed
        ensures fed { result ≡ completed at line.now self.old }
        ensures draft { self.new ≡ left_after line.now self.old }
    {
        match line {
            ReportLine::Head(terms) => Fed::Head {
                k: terms.k,
                doubt: terms.doubt,
                budget: terms.budget,
            },
            ReportLine::OldHead { k, budget } => Fed::Head {
                k: *k,
                doubt: 0,
                budget: *budget,
            },
            ReportLine::Refused { line, cause } => Fed::Refused {
                line: *line,
                cause: *cause,
            },
            ReportLine::Counts(counts) => Fed::Round(self.end(alloc, *counts, at)),
            ReportLine::Panel { panel, memory } => Fed::Lost {
                panel: *panel,
                memory: *memory,
            },
            _ => Fed::More,
        }
    }

    /// Adds the ranked, open or rejected hypothesis that the line with this number says.
    fn add_hypothesis(&mut self, alloc: Global, at: u64, line: &ReportLine) -> Result<(), NoMemory>
        requires { says_set line.now ≡ true }
        ensures { OnOk result (self.new ≡ with_hypothesis at line.now self.old) }
    {
        match line {
            ReportLine::Ranked {
                number,
                cost,
                alarmed,
                monitored,
                hypothesis,
            } => {
                self.begin(UnderWay::Ranked(RankedLine {
                    first_line: at,
                    number: *number,
                    cost: *cost,
                    alarmed: *alarmed,
                    monitored: *monitored,
                    set: hypothesis.set,
                    doubts: hypothesis.doubts,
                    trace: Trace::new(alloc),
                }))
            }
            ReportLine::Open { number, hypothesis } => {
                self.add_open(named_at(at, *number, hypothesis))
            }
            ReportLine::Rejected { number, hypothesis } => {
                self.add_rejected(named_at(at, *number, hypothesis))
            }
            _ => unreachable!(),
        }
    }

    /// Begins this, after what was under way.
    fn begin(&mut self, now: UnderWay) -> Result<(), NoMemory>
        ensures { OnOk result (self.new ≡ with_begun now self.old) }
    {
        self.settle()?;
        self.under_way = now;
        Ok(())
    }

    /// Adds what is under way to what is whole.
    fn settle(&mut self) -> Result<(), NoMemory>
        ensures { OnOk result (self.new ≡ settled self.old) }
    {
        match mem::replace(&mut self.under_way, UnderWay::Nothing) {
            UnderWay::Nothing => Ok(()),
            UnderWay::Part(part) => self.parts.push(part),
            UnderWay::Ranked(ranked) => self.ranked.push(ranked),
        }
    }

    /// Adds a step, which begins on this line, to the part that is under way.
    fn add_step(&mut self, line: u64, step: Step) -> Result<(), NoMemory>
        requires { has_part self.old.under_way ≡ true }
        ensures { OnOk result (self.new ≡ with_step line step self.old) }
    {
        match &mut self.under_way {
            UnderWay::Part(part) => part.add_step(line, step),
            _ => unreachable!(),
        }
    }

    /// Begins a cycle on this line. If none of its reasons is to come, it is a step.
    fn begin_cycle(&mut self, alloc: Global, line: u64, next: Stand) -> Result<(), NoMemory>
        requires { has_part self.old.under_way ≡ true }
        ensures { OnOk result (self.new ≡ with_cycle line next self.old) }
    {
        self.cycle_line = line;
        self.reasons = Reasons::new(alloc);
        self.end_cycle(alloc, next)
    }

    /// Adds a reason to the cycle. If it is the last one, the cycle is a step.
    fn add_reason(&mut self, alloc: Global, reason: Reason, next: Stand) -> Result<(), NoMemory>
        requires { has_part self.old.under_way ≡ true }
        ensures { OnOk result (self.new ≡ with_reason reason next self.old) }
    {
        self.reasons.push(reason)?;
        self.end_cycle(alloc, next)
    }

    /// Adds the cycle as a step, if it is whole.
    fn end_cycle(&mut self, alloc: Global, next: Stand) -> Result<(), NoMemory>
        requires { has_part self.old.under_way ≡ true }
        ensures { OnOk result (self.new ≡ with_cycle_ended next self.old) }
    {
        match next {
            Stand::Step => {
                let reasons = mem::replace(&mut self.reasons, Reasons::new(alloc));
                self.add_step(self.cycle_line, Step::Cycle(reasons))
            }
            _ => Ok(()),
        }
    }

    /// Adds an activation to the trace of the ranked hypothesis that is under way.
    pub(super) fn add_activation(&mut self, activation: Activation) -> Result<(), NoMemory>
        requires { has_ranked self.old.under_way ≡ true }
        ensures { OnOk result (self.new ≡ with_activation activation self.old) }
    {
        match &mut self.under_way {
            UnderWay::Ranked(ranked) => ranked.trace.set(activation.node, activation.time),
            _ => unreachable!(),
        }
    }

    /// Adds an open hypothesis.
    fn add_open(&mut self, named: NamedSet) -> Result<(), NoMemory>
        ensures { OnOk result (self.new ≡ with_open named self.old) }
    {
        self.settle()?;
        self.unsettled.push(named)
    }

    /// Adds a hypothesis that the round rejected.
    fn add_rejected(&mut self, named: NamedSet) -> Result<(), NoMemory>
        ensures { OnOk result (self.new ≡ with_rejected named self.old) }
    {
        self.settle()?;
        self.rejected.push(named)
    }

    /// The round, which ends with these counts on this line, if nothing is under way. Leaves the draft of no round.
    #[inline(never)]
    fn end(&mut self, alloc: Global, counts: Counts, counts_line: u64) -> ReadRound
        ensures round { result ≡ round_of counts counts_line self.old }
        ensures draft { self.new ≡ opened 0 0 0 0 }
    {
        let whole = mem::replace(self, RoundDraft::empty(alloc));
        whole.into_round(counts, counts_line)
    }

    /// The round of a draft in which nothing is under way, with these counts on this line.
    fn into_round(self, counts: Counts, counts_line: u64) -> ReadRound
        ensures { result ≡ round_of counts counts_line self }
    {
        ReadRound {
            number: self.number,
            line: self.line,
            now: self.now,
            first_line: self.first_line,
            parts: self.parts,
            ranked: self.ranked,
            unsettled: self.unsettled,
            rejected: self.rejected,
            counts,
            counts_line,
        }
    }
}

/// The number of a hypothesis and its sets, on this line.
fn named_at(first_line: u64, number: u32, hypothesis: &Hypothesis) -> NamedSet
    ensures { result ≡ named_at first_line number hypothesis.now }
{
    NamedSet {
        first_line,
        number,
        set: hypothesis.set,
        doubts: hypothesis.doubts,
    }
}

/// A part of this number that begins on this line, without a step.
fn part_at(alloc: Global, first_line: u64, number: u32) -> UnderWay
    ensures { result ≡ new_part first_line number }
{
    UnderWay::Part(Part {
        first_line,
        number,
        steps: StepList::new(alloc),
        step_lines: LineList::new(alloc),
    })
}

impl Part {
    /// Adds a step, which begins on this line.
    fn add_step(&mut self, line: u64, step: Step) -> Result<(), NoMemory>
        ensures { OnOk result (self.new ≡ part_with line step self.old) }
    {
        self.step_lines.push(line)?;
        self.steps.push(step)
    }
}
