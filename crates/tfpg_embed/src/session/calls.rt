//! The calls of a session.

ghost use Rattle.std.specs.Prelude.{◌≡◌, ◌≢◌, ◌⊎◌, Err, IfErr, IfOk, IfSome, IsOkUnless, None};
ghost use Rattle.tfpg_diagnose.specs.declared.texts.fault.OpenFault.{OpenFault as WhyNotOpen};
ghost use Rattle.tfpg_diagnose.specs.texts.Opening.{CanOpen, IsOpenFault};
ghost use Rattle.tfpg_embed.specs.Sessions.{AnswersBlock, AnswersLine, AnswersOpen, IsNewlyOpen, KeepsText};
ghost use Rattle.tfpg_embed.specs.TextCalls.{terms_of};

use super::handle::TfpgSession;
use super::open_session::OpenSession;
use crate::answer::{TfpgAnswer, of_event_fault, of_open_fault, plain, with_count};
use crate::status::{DONE, ENDED};
use std::alloc::Global;
use tfpg_base::Terms;
use tfpg_diagnose::OpenFault;
use tfpg_graph::laws::a_text_has_at_most_one_first_fault;
use tfpg_hyp::laws::the_table_is_one;

/// Opens a session of the graph that the text spells, on these terms. The text of the session is then the first line of its report, and the
/// answer has the number of its bytes. What the handle held before is given back.
#[unsafe(no_mangle)]
pub extern "C" fn tfpg_open(
    session: &mut TfpgSession,
    alloc: Global,
    graph: &[u8],
    k: u32,
    doubt: u32,
    budget: u64,
) -> TfpgAnswer
    ensures { AnswersOpen graph.now (terms_of k doubt budget) session.new.held.session result }
{
    drop(session.take(alloc));
    let terms = Terms { k, doubt, budget };
    match boxed_session(alloc, graph, terms) {
        Ok(opened) => {
            let count = opened.kept_count();
            session.put(opened);
            with_count(DONE, count)
        }
        Err(fault) => of_open_fault(fault),
    }
}

/// Takes the next line of the log, without its line end. The text of the session is then the block of the line, and the answer has the
/// number of its bytes. Where memory runs out the handle is closed. The text is kept until the next line or event.
#[unsafe(no_mangle)]
pub extern "C" fn tfpg_line(session: &mut TfpgSession, alloc: Global, line: &[u8]) -> TfpgAnswer
    ensures answers { AnswersLine line.now session.old.held.session session.new.held.session result }
    ensures kept { IfSome session.new.held.session KeepsText }
{
    let Some(mut open) = session.take(alloc) else {
        return plain(ENDED);
    };
    match open.line(alloc, line) {
        Ok(count) => {
            session.put(open);
            with_count(DONE, count)
        }
        Err(fault) => of_event_fault(fault),
    }
}

/// Writes the text of the session to the front of the room, if it fits. The answer has the number of its bytes, also if the room is too
/// small, and then nothing is written. A text that is not kept is made for this call. Where there is no memory for that, nothing is written,
/// and the session is as before.
#[unsafe(no_mangle)]
pub extern "C" fn tfpg_block(
    session: &mut TfpgSession,
    alloc: Global,
    room: &mut [u8],
) -> TfpgAnswer
    ensures same { session.new.held.session ≡ session.old.held.session }
    ensures block { AnswersBlock session.old.held.session room.old room.new result }
{
    match session.take(alloc) {
        Some(open) => {
            let answer = open.put_text(alloc, room);
            session.put(open);
            answer
        }
        None => plain(ENDED),
    }
}

/// Closes the handle, and gives its memory back. A closed one stays closed.
#[unsafe(no_mangle)]
pub extern "C" fn tfpg_close(session: &mut TfpgSession, alloc: Global)
    ensures { session.new.held.session ≡ None }
{
    drop(session.take(alloc));
}

/// A new session in a box, or why there is none.
fn boxed_session(alloc: Global, graph: &[u8], terms: Terms) -> Result<Box<OpenSession>, OpenFault>
    ensures opened { IfOk result (λ opened. IsNewlyOpen graph.now terms opened.value) }
    ensures fault { IfErr result (IsOpenFault graph.now terms) }
    ensures completes { CanOpen graph.now terms → IsOkUnless result OpenFault.NoMemory }
    ensures refuses { (fault : WhyNotOpen) → fault ≢ OpenFault.NoMemory → IsOpenFault graph.now terms fault →
        (result ≡ Err fault) ⊎ (result ≡ Err OpenFault.NoMemory) }
{
    a_text_has_at_most_one_first_fault();
    the_table_is_one();
    new_session(alloc, graph, terms)
}

/// The same, with what its result says alone.
fn new_session(alloc: Global, graph: &[u8], terms: Terms) -> Result<Box<OpenSession>, OpenFault>
    ensures opened { IfOk result (λ opened. IsNewlyOpen graph.now terms opened.value) }
    ensures fault { IfErr result (IsOpenFault graph.now terms) }
{
    let opened = OpenSession::open(alloc, graph, terms)?;
    match Box::new(alloc, opened) {
        Ok(opened) => Ok(opened),
        Err(_) => Err(OpenFault::NoMemory),
    }
}
