//! The handle that C holds.

ghost use Rattle.std.specs.Prelude.{◌≡◌, None, Some, is_some};
ghost use Rattle.std.specs.Option.{option_map};

use super::held::Held;
use super::open_session::OpenSession;
use std::alloc::Global;
use std::mem;

/// An open session, or none: then it is closed.
///
/// C keeps it in memory of its own, and makes a closed one of zeros.
#[repr(C)]
pub struct TfpgSession {
    is_open: bool,
    held: Held,
    pub ghost is_right: { is_open ≡ is_some held.session },
}

impl TfpgSession {
    /// Takes the open session out, if there is one. The handle is then closed.
    pub(super) fn take(&mut self, alloc: Global) -> Option<Box<OpenSession>>
        ensures taken { option_map (λ one. one.value) result ≡ self.old.held.session }
        ensures closed { self.new.held.session ≡ None }
    {
        let TfpgSession { is_open, held } = mem::replace(self, TfpgSession::closed(alloc));
        if is_open {
            Some(held.into_box())
        } else {
            held.into_alloc();
            None
        }
    }

    /// Puts an open session into a closed handle.
    pub(super) fn put(&mut self, session: Box<OpenSession>)
        requires { self.old.held.session ≡ None }
        ensures { self.new.held.session ≡ Some session.value }
    {
        let TfpgSession { is_open: _, held } = mem::replace(self, TfpgSession::of(session));
        held.into_alloc();
    }

    /// A closed handle.
    fn closed(alloc: Global) -> TfpgSession
        ensures { result.held.session ≡ None }
    {
        TfpgSession {
            is_open: false,
            held: Held::none(alloc),
        }
    }

    /// A handle with this open session.
    fn of(session: Box<OpenSession>) -> TfpgSession
        ensures { result.held.session ≡ Some session.value }
    {
        TfpgSession {
            is_open: true,
            held: Held::of(session),
        }
    }
}

/// That C may hand a handle from one thread to another between two calls.
fn handles_cross_threads() {
    cross::<TfpgSession>();
}

/// Values of this type may go from one thread to another.
fn cross<T: Send>() {}
