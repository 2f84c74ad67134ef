//! A session, and the text of what came last in it, if that was made.

ghost use Rattle.std.specs.Prelude.{◌≡◌, ◌↔◌, ◌++◌, ◌∷◌, [], ℕ, List, Err, IfErr, IfOk, None, OnOk, Some, length};
ghost use Rattle.tfpg_base.specs.declared.terms.Terms.{Terms};
ghost use Rattle.tfpg_graph.specs.Graph.{Tfpg};
ghost use Rattle.tfpg_evidence.specs.declared.round.Round.{Round};
ghost use Rattle.tfpg_engine.specs.EngineState.{EngineRepresents, calls_of_engine};
ghost use Rattle.tfpg_diagnose.specs.texts.Opening.{IsOpenFault};
ghost use Rattle.tfpg_diagnose.specs.texts.Sessions.{CountsBlock, SessionRepresents};
ghost use Rattle.tfpg_embed.specs.EventLines.{line_of_event};
ghost use Rattle.tfpg_embed.specs.Sessions.{AnswersBlock, IsNewlyOpen, KeepsText, open_text};

use crate::answer::{TfpgAnswer, of_event_fault};
use crate::event_lines::event_line;
use crate::room::put_text;
use std::alloc::Global;
use tfpg_base::{NoMemory, Terms};
use tfpg_diagnose::{OpenFault, Session};
use tfpg_engine::EventFault;

/// A session, and the text of what came last in it: the first line of its report, or the block of the last line. A text is there where it
/// was made already.
#[derive(Drop)]
pub struct OpenSession {
    session: Session,
    text: Option<Vec<u8>>,
}

impl OpenSession {
    /// A session of the graph that the text spells, on these terms, that has taken no line. Its text is the first line of the report, and is kept.
    pub(super) fn open(alloc: Global, graph: &[u8], terms: Terms) -> Result<OpenSession, OpenFault>
        ensures opened { IfOk result (IsNewlyOpen graph.now terms) }
        ensures fault { IfErr result (IsOpenFault graph.now terms) }
    {
        let session = Session::open(alloc, graph, terms)?;
        match session.head(alloc) {
            Ok(text) => Ok(OpenSession {
                session,
                text: Some(text),
            }),
            Err(NoMemory) => Err(OpenFault::NoMemory),
        }
    }

    /// Takes the next line of the log, without its line end, and returns the number of bytes of its block, which is then the text and is kept.
    pub(super) fn line(&mut self, alloc: Global, line: &[u8]) -> Result<u64, EventFault>
        ensures block { (graph : Tfpg) (terms : Terms) (lines : List (List ℕ)) (bytes : List ℕ) →
            SessionRepresents graph terms lines bytes self.old.session →
            OnOk result (SessionRepresents graph terms (lines ++ line.now ∷ []) (bytes ++ open_text self.new) self.new.session) }
        ensures work { (rounds : List Round) → EngineRepresents self.old.session.engine rounds →
            OnOk result (CountsBlock self.old.session.engine rounds line.now (open_text self.new)
            (calls_of_engine self.old.session.engine) (calls_of_engine self.new.session.engine)) }
        ensures count { IfOk result (λ count. count ≡ length (open_text self.new)) }
        ensures kept { OnOk result (KeepsText self.new) }
        ensures ended { (result ≡ Err EventFault.Ended) ↔ (self.old.session.next ≡ None) }
    {
        let text = self.session.line(alloc, line)?;
        let count = text.len() as u64;
        self.text = Some(text);
        Ok(count)
    }

    /// Takes the line of an event of this kind at this time, for the node or the mode of this index. Its block is then the text, and is not
    /// made.
    pub(super) fn event(
        &mut self,
        alloc: Global,
        time: u64,
        kind: u32,
        index: u32,
    ) -> Result<(), EventFault>
        ensures block { (graph : Tfpg) (terms : Terms) (lines : List (List ℕ)) (bytes : List ℕ) →
            SessionRepresents graph terms lines bytes self.old.session →
            OnOk result (SessionRepresents graph terms (lines ++ line_of_event self.old.session.engine.graph time kind index ∷ [])
            (bytes ++ open_text self.new) self.new.session) }
        ensures work { (rounds : List Round) → EngineRepresents self.old.session.engine rounds →
            OnOk result (CountsBlock self.old.session.engine rounds (line_of_event self.old.session.engine.graph time kind index)
            (open_text self.new) (calls_of_engine self.old.session.engine) (calls_of_engine self.new.session.engine)) }
        ensures unmade { OnOk result (self.new.text ≡ None) }
        ensures ended { (result ≡ Err EventFault.Ended) ↔ (self.old.session.next ≡ None) }
    {
        if self.session.has_ended() {
            return Err(EventFault::Ended);
        }
        let line = event_line(alloc, self.session.graph(), time, kind, index)?;
        self.session.take(&line)?;
        self.text = None;
        Ok(())
    }

    /// The session.
    pub(super) fn session(&self) -> &Session
        ensures { result.now ≡ self.now.session }
    {
        &self.session
    }

    /// The number of bytes of the text, if it is kept.
    pub(super) fn kept_count(&self) -> u64
        ensures { KeepsText self.now → result ≡ length (open_text self.now) }
    {
        match &self.text {
            Some(text) => text.len() as u64,
            None => 0,
        }
    }

    /// Writes the text to the front of the room, if it fits. Where it is not kept, it is made for this call alone.
    pub(super) fn put_text(&self, alloc: Global, room: &mut [u8]) -> TfpgAnswer
        ensures { AnswersBlock (Some self.now) room.old room.new result }
    {
        match &self.text {
            Some(text) => put_text(text, room),
            None => self.put_made(alloc, room),
        }
    }

    /// The same where it is not kept.
    fn put_made(&self, alloc: Global, room: &mut [u8]) -> TfpgAnswer
        requires { self.now.text ≡ None }
        ensures { AnswersBlock (Some self.now) room.old room.new result }
    {
        match self.session.block(alloc) {
            Ok(text) => put_text(&text, room),
            Err(fault) => of_event_fault(fault),
        }
    }
}
