//! A diagnosis that takes the lines of a log one by one, and returns the block of each.

ghost use Rattle.std.specs.Prelude.{◌≡◌, ◌↔◌, ◌<◌, ◌+◌, ◌++◌, ◌∷◌, [], ℕ, List, Err, IfErr, IfOk, IfSome, IsSome, IsTrue, None, OnErr, OnOk, Some, is_none, length};
ghost use Rattle.std.specs.Option.{option_copied};
ghost use Rattle.tfpg_evidence.specs.RoundOf.{IsFindingOf, IsRoundOf, is_ranked};
ghost use Rattle.tfpg_evidence.specs.declared.round.Round.{Round};
ghost use Rattle.tfpg_engine.specs.EngineState.{EngineRepresents, calls_of_engine};
ghost use Rattle.tfpg_base.specs.declared.limits.TheConstants.{MAX_LINE_NUMBER};
ghost use Rattle.tfpg_base.specs.declared.terms.Terms.{Terms};
ghost use Rattle.tfpg_graph.specs.Graph.{Tfpg, sizes_of};
ghost use Rattle.tfpg_report.specs.Blocks.{block_text, head_text};
ghost use Rattle.tfpg_check.specs.Report.{Progress};
ghost use Rattle.tfpg_diagnose.specs.EngineReports.{EngineReports};
ghost use Rattle.tfpg_diagnose.specs.inside.LineBlocks.{IsEngineReady, block_brought, numbered};
ghost use Rattle.tfpg_diagnose.specs.inside.texts.SessionKeeps.{HasPlainBlock};
ghost use Rattle.tfpg_diagnose.specs.texts.Latest.{order_of, ranked_at, round_in};
ghost use Rattle.tfpg_diagnose.specs.texts.Opening.{IsOpenFault};
ghost use Rattle.tfpg_diagnose.specs.texts.Sessions.{CountsBlock, IsNewSession, SessionRepresents, latest_text, lines_before};

use super::fault::OpenFault;
use super::latest::Latest;
use super::opening::open_engine;
use crate::line_blocks::{Brought, take_line};
use crate::report::first_line;
use std::alloc::Global;
use std::marker::{Brand, Model};
use std::sync::ledger::{Blank, Ledger};
use tfpg_base::{MAX_LINE_NUMBER, NoMemory, Steps, Terms};
use tfpg_engine::{Engine, EventFault};
use tfpg_evidence::{Finding, Round, finding_numbered};
use tfpg_graph::Graph;

/// An engine, the number of its next line, and what came last.
///
/// [`Session::take`] takes a line, and makes no text. [`Session::block`] makes the block of the last line when it is asked, and
/// [`Session::line`] does both. The first line of a report, which [`Session::head`] returns, and the blocks, one after the other, are a report
/// of the lines that it took. No panel is told. It keeps the last round.
#[derive(Drop)]
pub struct Session {
    engine: Engine,
    /// The number of the next line. There is none once memory has run out.
    next: Option<u64>,
    latest: Latest,
}

impl Model for Session {
    ghost use Rattle.tfpg_diagnose.specs.inside.texts.SessionKeeps.{IsSession};
    ghost use Rattle.tfpg_diagnose.specs.texts.Sessions.{SessionState};

    ghost Value = { SessionState };

    ghost view = { λ session. record {
      engine = session.engine;
      next = session.next;
      latest = session.latest;
    } };

    ghost invariant = { λ session. IsSession session.engine session.next session.latest };
}

impl Session {
    /// A session of the graph that the text spells, on these terms, that has taken no line.
    pub fn open(alloc: Global, graph_text: &[u8], terms: Terms) -> Result<Session, OpenFault>
        ensures new { IfOk result (IsNewSession graph_text.now terms) }
        ensures fault { IfErr result (IsOpenFault graph_text.now terms) }
    {
        let engine = open_engine(alloc, graph_text, terms)?;
        let latest = Latest::nothing();
        Ok(Session {
            engine,
            next: Some(1),
            latest,
        })
    }

    /// The first line of the report.
    pub fn head(&self, alloc: Global) -> Result<Vec<u8>, NoMemory>
        ensures { IfOk result (λ line. line.items ≡ head_text self.now.engine.terms) }
    {
        first_line(alloc, self.engine.terms())
    }

    /// The graph.
    pub fn graph(&self) -> &Graph
        ensures { result.now ≡ self.now.engine.graph }
    {
        self.engine.graph()
    }

    /// How many lines it took, which is the number of the last one. It says 0 once memory has run out.
    pub fn line_count(&self) -> u64
        ensures { result ≡ lines_before self.now.next }
    {
        match self.next {
            Some(next) => next.saturating_sub(1),
            None => 0,
        }
    }

    /// Whether memory ran out, so that it takes no further line.
    pub fn has_ended(&self) -> bool
        ensures { result ≡ is_none self.now.next }
    {
        self.next.is_none()
    }

    /// The last round, and what became of the last line.
    pub fn latest(&self) -> &Latest
        ensures { result.now ≡ self.now.latest }
    {
        &self.latest
    }

    /// What the last round says of the hypothesis that it ranks at this place, from 0 for the best. There is none where it does not rank so
    /// many. Takes time logarithmic in the number of hypotheses.
    pub fn ranked_at(&self, rank: u32) -> Option<&Finding>
        ensures finding { option_copied result ≡ ranked_at self.now.latest.round rank }
        ensures within { IsSome result ↔ (rank < length (order_of self.now.latest.round)) }
        ensures ranked { IfSome result (λ finding. IsTrue (is_ranked finding.now.status)) }
        ensures of_graph { IfSome result (λ finding. IsFindingOf (sizes_of self.now.engine.graph) finding.now) }
    {
        let round = self.latest.round.as_ref()?;
        ranked_in(self.engine.graph(), round, rank)
    }

    /// Takes the next line of the log, without its line end. Its block is then what [`Session::block`] returns, and is not made before that.
    ///
    /// Where memory runs out the session has ended, and each later call says so. It has 2^63 - 2 lines at most: where there is no number
    /// for one line more, memory runs out.
    pub fn take(&mut self, text: &[u8]) -> Result<(), EventFault>
        ensures represents { (graph : Tfpg) (terms : Terms) (lines : List (List ℕ)) (bytes : List ℕ) →
            SessionRepresents graph terms lines bytes self.old →
            OnOk result (SessionRepresents graph terms (lines ++ text.now ∷ []) (bytes ++ latest_text self.new) self.new) }
        // A round keeps within the limit of its counted calls, by what the systems of all searches have counted, and a refused line costs none.
        ensures work { (rounds : List Round) → EngineRepresents self.old.engine rounds →
            OnOk result (CountsBlock self.old.engine rounds text.now (latest_text self.new)
            (calls_of_engine self.old.engine) (calls_of_engine self.new.engine)) }
        ensures graph { self.new.engine.graph ≡ self.old.engine.graph }
        ensures ended { (result ≡ Err EventFault.Ended) ↔ (self.old.next ≡ None) }
        ensures ends { OnErr result (self.new.next ≡ None) }
        // Where memory runs out, what came last is kept.
        ensures keeps { OnErr result (self.new.latest ≡ self.old.latest) }
        ensures goes_on { OnOk result (IsSome self.new.next) }
    {
        let number = self.next.take().ok_or(EventFault::Ended)?;
        let next = number_after(number)?;
        let brought = brought_by_line(&mut self.engine, number, text)?;
        self.latest.note(brought);
        self.next = Some(next);
        Ok(())
    }

    /// The text of what came last: the block of the last line, and before any line the first line of the report. It is made anew each time,
    /// and where memory runs out nothing else is lost.
    pub fn block(&self, alloc: Global) -> Result<Vec<u8>, EventFault>
        ensures text { IfOk result (λ text. text.items ≡ latest_text self.now) }
        ensures ended { (result ≡ Err EventFault.Ended) ↔ (self.now.next ≡ None) }
    {
        if self.has_ended() {
            return Err(EventFault::Ended);
        }
        Ok(self.text(alloc)?)
    }

    /// Takes the next line of the log as [`Session::take`] does, and returns its block. The session has ended also where there is no memory
    /// for the block.
    pub fn line(&mut self, alloc: Global, text: &[u8]) -> Result<Vec<u8>, EventFault>
        ensures block { (graph : Tfpg) (terms : Terms) (lines : List (List ℕ)) (bytes : List ℕ) →
            SessionRepresents graph terms lines bytes self.old →
            IfOk result (λ block. SessionRepresents graph terms (lines ++ text.now ∷ []) (bytes ++ block.items) self.new) }
        ensures work { (rounds : List Round) → EngineRepresents self.old.engine rounds →
            IfOk result (λ block. CountsBlock self.old.engine rounds text.now block.items
            (calls_of_engine self.old.engine) (calls_of_engine self.new.engine)) }
        ensures text { IfOk result (λ block. block.items ≡ latest_text self.new) }
        ensures graph { self.new.engine.graph ≡ self.old.engine.graph }
        ensures ended { (result ≡ Err EventFault.Ended) ↔ (self.old.next ≡ None) }
        ensures ends { OnErr result (self.new.next ≡ None) }
        ensures goes_on { OnOk result (IsSome self.new.next) }
    {
        self.take(text)?;
        match self.text(alloc) {
            Ok(block) => Ok(block),
            Err(NoMemory) => {
                self.end();
                Err(EventFault::NoMemory)
            }
        }
    }

    /// The text of what came last.
    fn text(&self, alloc: Global) -> Result<Vec<u8>, NoMemory>
        ensures { IfOk result (λ text. text.items ≡ latest_text self.now) }
    {
        self.latest.text(alloc, &self.engine, self.line_count())
    }

    /// Takes no further line.
    fn end(&mut self)
        ensures next { self.new.next ≡ None }
        ensures graph { self.new.engine.graph ≡ self.old.engine.graph }
    {
        self.next = None;
    }
}

/// What a round of this graph says of the hypothesis that it ranks at this place.
fn ranked_in<'a>(graph: &Graph, round: &'a Round, rank: u32) -> Option<&'a Finding>
    requires { IsRoundOf (sizes_of graph.now) round.now }
    ensures finding { option_copied result ≡ ranked_at (Some round.entry.now) rank }
    ensures within { IsSome result ↔ (rank < length round.entry.now.order) }
    ensures ranked { IfSome result (λ finding. IsTrue (is_ranked finding.now.status)) }
    ensures of_graph { IfSome result (λ finding. IsFindingOf (sizes_of graph.now) finding.now) }
{
    let number = round.order.as_slice().get(rank as usize)?;
    finding_numbered(round.findings.as_slice(), *number)
}

/// The number of the line after the one of this number.
fn number_after(number: u64) -> Result<u64, NoMemory>
    ensures next { IfOk result (λ next. next ≡ number + 1) }
    ensures few { OnOk result (number < MAX_LINE_NUMBER) }
{
    if number < MAX_LINE_NUMBER {
        Ok(number + 1)
    } else {
        Err(NoMemory)
    }
}

/// What a line of this number and text brings.
fn brought_by_line(engine: &mut Engine, number: u64, text: &[u8]) -> Result<Brought, NoMemory>
    requires { IsEngineReady engine.old }
    ensures ready { OnOk result (IsEngineReady engine.new) }
    ensures graph { engine.new.graph ≡ engine.old.graph }
    ensures of_graph { IfOk result (λ brought. IfSome (round_in (block_brought number brought)) (IsRoundOf (sizes_of engine.new.graph))) }
    ensures block { (graph : Tfpg) (terms : Terms) (before : Progress) → EngineReports graph terms engine.old before →
        IfOk result (λ brought. HasPlainBlock graph terms before (numbered number text.now) brought engine.new) }
    ensures work { (rounds : List Round) → EngineRepresents engine.old rounds → IfOk result (λ brought. CountsBlock engine.old rounds text.now
        (block_text engine.old.graph (block_brought number brought)) (calls_of_engine engine.old) (calls_of_engine engine.new)) }
{
    brought_counted::<Brand>(engine, number, text, Blank::new(1))
}

/// The same with a new counter of steps, which costs nothing.
fn brought_counted<L: Ledger>(
    engine: &mut Engine,
    number: u64,
    text: &[u8],
    blank: Blank,
) -> Result<Brought, NoMemory>
    requires name { blank.name ≡ L.name }
    requires parts { blank.parts ≡ L.parts }
    requires some { 0 < blank.parts }
    requires ready { IsEngineReady engine.old }
    ensures ready { OnOk result (IsEngineReady engine.new) }
    ensures graph { engine.new.graph ≡ engine.old.graph }
    ensures of_graph { IfOk result (λ brought. IfSome (round_in (block_brought number brought)) (IsRoundOf (sizes_of engine.new.graph))) }
    ensures block { (graph : Tfpg) (terms : Terms) (before : Progress) → EngineReports graph terms engine.old before →
        IfOk result (λ brought. HasPlainBlock graph terms before (numbered number text.now) brought engine.new) }
    ensures work { (rounds : List Round) → EngineRepresents engine.old rounds → IfOk result (λ brought. CountsBlock engine.old rounds text.now
        (block_text engine.old.graph (block_brought number brought)) (calls_of_engine engine.old) (calls_of_engine engine.new)) }
{
    let mut work = Steps::<L>::new(blank);
    take_line(engine, number, text, &mut work)
}
