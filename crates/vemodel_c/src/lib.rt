//! A world for a program that isn't Rattle's: it keeps a handle, and calls four functions on it by
//! C's rules. A fifth tells the version.
//!
//! A handle holds a session: a world of ve_session, and its reply to the last line
//! (specs/Sessions.antt). The four functions say of it what the world says of itself. The reply and
//! the world after a line are the model's, and want of memory is the one free answer.
//! `handles_cross` is a law: a handle may be handed on from thread to thread.
//!
//! No clause says that a world opens: want of memory is free there, too. Nor does one say that
//! closing frees what was held, since no clause counts memory. tools/check-c shows both.
//!
//! No clause knows the caller. It has to pass a handle that these functions made, or one of zeros;
//! never a copy of an open one; and slices that are there. clients/c/vemodel.h tells it so.
//!
//! No type that owns memory crosses to C, so a handle is a pointer, with what it points to as a
//! ghost (specs/Ownership.antt). The functions of `handle` and `loose` are proved by hand: they
//! alone turn a box into its pointer and back.
#![tactic(auto)]

ghost use Rattle.std.specs.Prelude.{◌≡◌, ◌≤◌, ◌++◌, true, false, IfSome, length, min, take, drop};
ghost use Rattle.vemodel_c.specs.Sessions.{started, answered, out_of_memory, told};

mod handle;
mod laws;
mod loose;
mod session;

pub use handle::Handle;
pub use laws::handles_cross;
use loose::Loose;
use session::Session;
use std::alloc::Global;
use std::marker::Brand;
use std::mem::replace;
use std::sync::ledger::{Blank, Ledger};
use ve_base::{Memory, Steps};

/// The outcome of a line.
#[repr(C)]
#[derive(Clone, Copy)]
pub struct Stepped {
    /// `DONE`, `MEMORY` or `CLOSED`.
    pub status: u32,
    /// How many bytes the reply has, where it is done; else 0.
    pub length: usize,
}

/// The line is answered.
pub const DONE: u32 = 0;

/// Memory ran out, and the world is spent.
pub const MEMORY: u32 = 1;

/// The handle is closed.
pub const CLOSED: u32 = 2;

/// Takes the session out of an open handle, which is closed then.
fn take(alloc: Global, handle: &mut Handle) -> Box<Session>
    requires { handle.old.is_open ≡ true }
    ensures held { result.value ≡ handle.old.held }
    ensures closed { handle.new.is_open ≡ false }
{
    replace(handle, Handle::closed())
        .into_loose(alloc)
        .into_box()
}

/// Opens a closed handle with a session. An open one would lose what it holds.
fn put(handle: &mut Handle, session: Box<Session>)
    requires { handle.old.is_open ≡ false }
    ensures { (handle.new.is_open ≡ true) × (handle.new.held ≡ session.value) }
{
    *handle = Handle::of(Loose::of(session));
}

/// A session on the heap, if there is memory.
fn boxed(alloc: Global, session: Session) -> Option<Box<Session>>
    ensures { IfSome result (λ b. b.value ≡ session) }
{
    Box::new(alloc, session).ok()
}

/// Answers a line, over a count of steps that ends with it.
fn answer<L: Ledger>(alloc: Global, session: &mut Session, line: &[u8], blank: Blank) -> Stepped
    requires name { blank.name ≡ L.name }
    requires parts { blank.parts ≡ L.parts }
    requires one { blank.parts ≡ 1 }
    ensures done { result.status ≡ 0 → (session.new ≡ answered session.old line.now)
        × (result.length ≡ length session.new.reply) }
    ensures memory { result.status ≡ 1 → (session.new ≡ out_of_memory) × (result.length ≡ 0) }
    ensures statuses { result.status ≤ 1 }
    ensures stays_spent { session.old.world.is_spent ≡ true → result.status ≡ 1 }
{
    let mut steps: Steps<L> = Steps::start_in(alloc, blank);
    match session.step(line, &mut steps) {
        Ok(length) => Stepped {
            status: DONE,
            length,
        },
        Err(Memory) => Stepped {
            status: MEMORY,
            length: 0,
        },
    }
}

/// Copies what fits to the front, and tells how many bytes that is.
fn copied(from: &[u8], out: &mut [u8]) -> usize
    ensures count { result ≡ min (length from.now) (length out.old) }
    ensures copied { out.new ≡ take result from.now ++ drop result out.old }
{
    let count = from.len().min(out.len());
    out[..count].copy_from_slice(&from[..count]);
    count
}

/// Opens a closed handle with a world without a page. False: the handle was open, or there was no
/// memory; it is as it was. It costs one piece of memory, of always the same size.
#[unsafe(no_mangle)]
pub extern "C" fn vemodel_open(alloc: Global, handle: &mut Handle) -> bool
    ensures opened { result ≡ true → (handle.old.is_open ≡ false) × (handle.new.is_open ≡ true)
        × (handle.new.held ≡ started) }
    ensures kept { result ≡ false → handle.new ≡ handle.old }
{
    if handle.is_open() {
        return false;
    }
    match boxed(alloc, Session::new(alloc)) {
        Some(session) => {
            put(handle, session);
            true
        }
        None => false,
    }
}

/// Answers a line. The reply's text is kept until the next line. It costs what the world's `step`
/// does: no more steps than `Cost` of model_world says. The world isn't copied for it.
#[unsafe(no_mangle)]
pub extern "C" fn vemodel_step(alloc: Global, handle: &mut Handle, line: &[u8]) -> Stepped
    ensures done { result.status ≡ 0 → (handle.old.is_open ≡ true) × (handle.new.is_open ≡ true)
        × (handle.new.held ≡ answered handle.old.held line.now) × (result.length ≡ length handle.new.held.reply) }
    ensures memory { result.status ≡ 1 → (handle.old.is_open ≡ true) × (handle.new.is_open ≡ true)
        × (handle.new.held ≡ out_of_memory) × (result.length ≡ 0) }
    ensures closed { result.status ≡ 2 → (handle.old.is_open ≡ false) × (handle.new ≡ handle.old)
        × (result.length ≡ 0) }
    ensures statuses { result.status ≤ 2 }
    ensures stays_spent { handle.old.is_open ≡ true → handle.old.held.world.is_spent ≡ true
        → result.status ≡ 1 }
    ensures stays_closed { handle.old.is_open ≡ false → result.status ≡ 2 }
{
    if !handle.is_open() {
        return Stepped {
            status: CLOSED,
            length: 0,
        };
    }
    let mut session = take(alloc, handle);
    let stepped = answer::<Brand>(alloc, &mut session, line, Blank::new(1));
    put(handle, session);
    stepped
}

/// Copies what fits of the last reply's text, and tells how many bytes that is. A closed handle has
/// no bytes to copy. It costs that copy, and no memory.
#[unsafe(no_mangle)]
pub extern "C" fn vemodel_reply(alloc: Global, handle: &mut Handle, out: &mut [u8]) -> usize
    ensures count { result ≡ min (length (told handle.old)) (length out.old) }
    ensures copied { out.new ≡ take result (told handle.old) ++ drop result out.old }
    ensures open { handle.new.is_open ≡ handle.old.is_open }
    ensures held { handle.old.is_open ≡ true → handle.new.held ≡ handle.old.held }
    ensures kept { handle.old.is_open ≡ false → handle.new ≡ handle.old }
{
    if !handle.is_open() {
        return 0;
    }
    let session = take(alloc, handle);
    let count = copied(session.reply.as_slice(), out);
    put(handle, session);
    count
}

/// Closes a handle, and frees what it held. A closed one stays as it is. It costs time for all that
/// was held.
#[unsafe(no_mangle)]
pub extern "C" fn vemodel_close(alloc: Global, handle: &mut Handle)
    ensures closed { handle.new.is_open ≡ false }
    ensures kept { handle.old.is_open ≡ false → handle.new ≡ handle.old }
{
    if handle.is_open() {
        drop(take(alloc, handle));
    }
}

/// The version, as 65,536 times its first number, 256 times its second, and its third.
#[unsafe(no_mangle)]
pub extern "C" fn vemodel_version() -> u32
    ensures { result ≡ 256 }
{
    256
}
