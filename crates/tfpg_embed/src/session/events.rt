//! The call of a session that takes an event without a text.

ghost use Rattle.std.specs.Prelude.{IfSome};
ghost use Rattle.tfpg_embed.specs.Events.{AnswersEvent, event_line_for};
ghost use Rattle.tfpg_embed.specs.Sessions.{KeepsNoText};

use super::handle::TfpgSession;
use crate::answer::{TfpgAnswer, of_event_fault, plain};
use crate::status::{DONE, ENDED};
use std::alloc::Global;

/// Takes an event as its line is taken: of this kind, at this time in milliseconds, for the node or the mode of this index. An index that
/// nothing has is refused as a name that nothing has. Where memory runs out the handle is closed. The block is not made before
/// [`tfpg_block`](super::tfpg_block) is called.
#[unsafe(no_mangle)]
pub extern "C" fn tfpg_event(
    session: &mut TfpgSession,
    alloc: Global,
    time: u64,
    kind: u32,
    index: u32,
) -> TfpgAnswer
    ensures answers { AnswersEvent (event_line_for session.old.held.session time kind index) session.old.held.session session.new.held.session result }
    ensures unmade { IfSome session.new.held.session KeepsNoText }
{
    let Some(mut open) = session.take(alloc) else {
        return plain(ENDED);
    };
    match open.event(alloc, time, kind, index) {
        Ok(()) => {
            session.put(open);
            plain(DONE)
        }
        Err(fault) => of_event_fault(fault),
    }
}
