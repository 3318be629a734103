// A session as its pointer, which a program in C keeps.
ghost use Rattle.std.specs.Prelude.{◌≡◌, true, false};
ghost use Rattle.vemodel_c.specs.declared.session.Session.{Session};

use crate::loose::Loose;
use crate::session::Session;
use std::alloc::Global;
use std::marker::Model;

/// A session, or none where it is closed. A program in C begins with one of zeros, which is closed.
#[repr(C)]
#[derive(Drop)]
pub struct Handle {
    at: *mut u8,
    is_open: bool,
    ghost held: { Session },
}

impl Model for Handle {
    ghost use Rattle.vemodel_c.specs.Ownership.{boxed};
    ghost use Rattle.vemodel_c.specs.contracts.session.Session.{the_row};

    ghost also_owns = { λ h. boxed h.is_open the_row h.at h.held };
}

impl Handle {
    /// Keeps a session.
    pub fn of(session: Loose<Session, Global>) -> Handle
        ensures { (result.is_open ≡ true) × (result.held ≡ session.value) }
    {
        let Loose { at, alloc: _ } = session;
        Handle {
            at: at as *mut u8,
            is_open: true,
        }
    }

    /// The session again.
    pub fn into_loose(self, alloc: Global) -> Loose<Session, Global>
        requires { self.is_open ≡ true }
        ensures { result.value ≡ self.held }
    {
        let Handle { at, is_open: _ } = self;
        Loose {
            at: at as *mut Session,
            alloc,
        }
    }

    /// No session.
    pub fn closed() -> Handle
        ensures { result.is_open ≡ false }
    {
        Handle {
            at: std::ptr::null_mut(),
            is_open: false,
        }
    }

    /// Whether there is one. What a handle owns can be read only through a `&mut`.
    pub fn is_open(&mut self) -> bool
        ensures { (result ≡ self.old.is_open) × (self.new ≡ self.old) }
    {
        self.is_open
    }
}
