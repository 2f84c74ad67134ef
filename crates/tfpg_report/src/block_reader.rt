//! The reader of reports.

ghost use Rattle.std.specs.Prelude.{◌≡◌, ◌+◌, ℕ, List, [], false, Some, None, Err, IfOk, IfErr, IfSome, OnOk};
ghost use Rattle.tfpg_report.specs.declared.fed.ReadRefusal.{ReadRefusal};
ghost use Rattle.tfpg_report.specs.declared.fed.ReadRefusal.TheVariants.{BadReport};
ghost use Rattle.tfpg_report.specs.declared.report_line.ReportLine.{ReportLine};
ghost use Rattle.tfpg_report.specs.declared.report_line.ReportLine.TheVariants.{At};
ghost use Rattle.tfpg_report.specs.ReportLines.{Says};
ghost use Rattle.tfpg_report.specs.Stands.{may_begin_block, stand_after};
ghost use Rattle.tfpg_report.specs.Represents.{ReaderRepresents, TakesReportLine, NoneMayCome};

pub(crate) mod draft;
mod stepping;

use crate::laws::a_report_line_says_one_thing;
use crate::reading::named_graph::{NameGuesses, NamedGraph};
use crate::reading::{LineRefusal, activation_in, read_named_line};
use crate::{Fed, ReadRefusal, ReportLine, Stand};
use draft::RoundDraft;
use std::alloc::Global;
use std::marker::Model;
use std::snapshot::Snapshot;
use stepping::step_after;
use tfpg_base::{Activation, NoMemory};
use tfpg_graph::Graph;

/// Reads a report line by line, and says what each line completes. Nothing is judged: numbers, sets, steps and traces may be
/// wrong. It keeps the lines of the round that has not ended, and nothing of those before. It takes memory for what it was
/// given, and none for what a line says is to come.
#[derive(Drop)]
pub struct BlockReader {
    alloc: Global,
    refused: Option<ReadRefusal>,
    stand: Stand,
    draft: RoundDraft,
    guesses: NameGuesses,
    /// How many lines it took, for contracts alone.
    taken: Snapshot<u64>,
}

impl Model for BlockReader {
    ghost use Rattle.tfpg_report.specs.Represents.{ReaderState};
    ghost use Rattle.tfpg_report.specs.inside.Fitting.{begun_lines};
    ghost use Rattle.tfpg_report.specs.inside.Readers.{IsReader};

    ghost Value = { ReaderState };

    ghost view = { λ reader. record {
      refused = reader.refused;
      taken = reader.taken.value;
      stand = reader.stand;
      begun = begun_lines reader.stand reader.draft;
    } };

    ghost invariant = { λ reader. IsReader reader.refused reader.stand reader.draft };
}

/// A line that may come, and the stand after it.
#[derive(Clone, Copy)]
struct LineToCome {
    line: ReportLine,
    stand: Stand,
}

impl BlockReader {
    /// A reader that was given no line. Takes no memory.
    pub fn new(alloc: Global) -> BlockReader
        ensures represents { ReaderRepresents result [] }
        ensures ready { result.refused ≡ None }
    {
        BlockReader {
            alloc,
            refused: None,
            stand: Stand::Nothing,
            draft: RoundDraft::empty(alloc),
            guesses: NameGuesses::new(),
            taken: Snapshot::of(&0),
        }
    }

    /// Takes the next line, without its line end, and says what it completes. The first line has the number 1, and each later
    /// one the next number. If no report begins with the lines up to this one, or memory runs out, each later call returns the
    /// same refusal, whatever its number. Costs a pass over the line, and amortized constant time beside it.
    pub fn take(&mut self, graph: &Graph, number: u64, line: &[u8]) -> Result<Fed, ReadRefusal>
        requires { self.old.refused ≡ None → number ≡ self.old.taken + 1 }
        ensures fed { (lines : List ReportLine) → ReaderRepresents self.old lines → self.old.refused ≡ None →
            IfOk result (TakesReportLine graph.now lines line.now self.new) }
        ensures bad { (lines : List ReportLine) → ReaderRepresents self.old lines → self.old.refused ≡ None →
            (at : ℕ) → result ≡ Err (BadReport at) →
            (at ≡ number) × NoneMayCome graph.now lines line.now }
        ensures again { (refusal : ReadRefusal) → self.old.refused ≡ Some refusal →
            (result ≡ Err refusal) × (self.new ≡ self.old) }
        ensures refuses { IfErr result (λ refusal. self.new.refused ≡ Some refusal) }
        ensures goes_on { OnOk result (self.new.refused ≡ None) }
        ensures taken { OnOk result (self.new.taken ≡ number) }
    {
        if let Some(refusal) = self.refused {
            return Err(refusal);
        }
        self.guesses.make(graph);
        let named = NamedGraph::with_guesses(graph, &self.guesses);
        if let Some(found) = next_activation(&named, self.stand, line) {
            return match self.draft.add_activation(found.0) {
                Ok(()) => {
                    self.stand = found.1;
                    self.taken = Snapshot::of(&number);
                    Ok(Fed::More)
                }
                Err(NoMemory) => {
                    refuse(&mut self.refused, &mut self.stand, ReadRefusal::NoMemory);
                    Err(ReadRefusal::NoMemory)
                }
            };
        }
        match &next_line(self.alloc, &named, self.stand, number, line) {
            Ok(next) => match self.draft.add(self.alloc, number, next.stand, &next.line) {
                Ok(()) => {
                    self.stand = next.stand;
                    self.taken = Snapshot::of(&number);
                    Ok(self.draft.complete(self.alloc, number, &next.line))
                }
                Err(NoMemory) => {
                    refuse(&mut self.refused, &mut self.stand, ReadRefusal::NoMemory);
                    Err(ReadRefusal::NoMemory)
                }
            },
            Err(refusal) => {
                refuse(&mut self.refused, &mut self.stand, *refusal);
                Err(*refusal)
            }
        }
    }

    /// Whether a report may end with the lines that were taken: after its first line, or after a whole block. Never so once a
    /// line was refused.
    pub fn is_between_blocks(&self) -> bool
        ensures stand { result ≡ may_begin_block self.now.stand }
        ensures refused { (refusal : ReadRefusal) → self.now.refused ≡ Some refusal → result ≡ false }
    {
        self.stand.may_begin_block()
    }
}

/// Keeps why a line was refused. No report may end there.
fn refuse(refused: &mut Option<ReadRefusal>, stand: &mut Stand, refusal: ReadRefusal)
    ensures refused { refused.new ≡ Some refusal }
    ensures stand { stand.new ≡ Stand.Nothing }
{
    *refused = Some(refusal);
    *stand = Stand::Nothing;
}

/// The activation that the line says, if it says one that may come at this stand, and the stand after it.
fn next_activation(
    graph: &NamedGraph<'_>,
    before: Stand,
    line: &[u8],
) -> Option<(Activation, Stand)>
    ensures says { IfSome result (λ found. Says graph.now (At found.0) line.now) }
    ensures stand { IfSome result (λ found. stand_after before (At found.0) ≡ Some found.1) }
{
    let activation = activation_in(graph, line)?;
    let stand = before.after_activation(activation.node)?;
    Some((activation, stand))
}

/// Reads the line with this number, if it may come at this stand.
fn next_line(
    alloc: Global,
    graph: &NamedGraph<'_>,
    before: Stand,
    number: u64,
    line: &[u8],
) -> Result<LineToCome, ReadRefusal>
    ensures says { IfOk result (λ next. Says graph.now next.line line.now) }
    ensures stand { IfOk result (λ next. stand_after before next.line ≡ Some next.stand) }
    ensures bad { (at : ℕ) → result ≡ Err (BadReport at) →
        (at ≡ number) × ((read : ReportLine) → Says graph.now read line.now → stand_after before read ≡ None) }
{
    graph.is_always_valid();
    a_report_line_says_one_thing();
    match read_named_line(alloc, graph, line) {
        Ok(line) => match step_after(before, &line) {
            Some(stand) => Ok(LineToCome { line, stand }),
            None => Err(ReadRefusal::BadReport { line: number }),
        },
        Err(LineRefusal::NotALine) => Err(ReadRefusal::BadReport { line: number }),
        Err(LineRefusal::NoMemory) => Err(ReadRefusal::NoMemory),
    }
}
