//! A box whose type C does not see, or none.

ghost use Rattle.std.specs.Prelude.{◌≡◌, IsSome, None, Option, Some};
ghost use Rattle.tfpg_embed.specs.Holding.{coded_session, owns_session};
ghost use Rattle.tfpg_embed.specs.declared.session.open_session.OpenSession.{OpenSession};

use super::open_session::OpenSession;
use super::parts::BoxParts;
use std::alloc::Global;
use std::marker::Model;
use std::ptr;

/// An open session behind a pointer, which it owns, or none.
///
/// It is not dropped, so that no session is lost: [`Held::into_box`] takes it out, and [`Held::into_alloc`] ends what holds none.
#[repr(C)]
pub struct Held {
    at: *mut u8,
    alloc: Global,
    pub ghost session: { Option OpenSession } by { coded_session },
}

impl Model for Held {
    ghost also_owns = { λ held. owns_session held.alloc held.at held.session };
}

unsafe impl Send for Held {}

impl Held {
    /// Holds none.
    pub(super) fn none(alloc: Global) -> Held
        ensures { result.session ≡ None }
    {
        Held {
            at: ptr::null_mut(),
            alloc,
        }
    }

    /// Holds this session.
    pub(super) fn of(session: Box<OpenSession>) -> Held
        ensures { result.session ≡ Some session.value }
    {
        Held::of_parts(BoxParts::of(session))
    }

    /// The session that it holds.
    pub(super) fn into_box(self) -> Box<OpenSession>
        requires { IsSome self.session }
        ensures { self.session ≡ Some result.value }
    {
        self.into_parts().into_box()
    }

    /// The allocator of what holds none.
    pub(super) fn into_alloc(self) -> Global
        requires { self.session ≡ None }
        ensures { result ≡ self.alloc }
    {
        let Held { at: _, alloc } = self;
        alloc
    }

    /// Holds the session of these parts.
    fn of_parts(parts: BoxParts<OpenSession, Global>) -> Held
        ensures { result.session ≡ Some parts.value }
    {
        let BoxParts { at, alloc } = parts;
        Held {
            at: at as *mut u8,
            alloc,
        }
    }

    /// The parts of the session that it holds.
    fn into_parts(self) -> BoxParts<OpenSession, Global>
        requires { IsSome self.session }
        ensures { self.session ≡ Some result.value }
    {
        let Held { at, alloc } = self;
        BoxParts {
            at: at as *mut OpenSession,
            alloc,
        }
    }
}
