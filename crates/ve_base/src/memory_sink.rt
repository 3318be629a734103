// Sinks that write into a borrowed slice: one with chosen faults, and one that only fails where the
// slice is full.
ghost use Rattle.std.specs.Prelude.{◌≡◌, ◌↔◌, ◌<◌, ◌≤◌, ◌+◌, ◌-◌, ◌++◌, [], length, take, drop, min, IfOk, IsErr, OnOk, OnErr};
ghost use Rattle.std.specs.Io.KnownBytes.{WriteAppends};
ghost use Rattle.ve_base.specs.Fill.{FailsAt, IsFullFor, after_write, after_failed_write, after_taking, after_full};
ghost use Rattle.ve_base.specs.Outside.{HasCause};

use crate::{Calls, Failed, Sink};
use std::marker::Model;

/// A sink that takes of each piece what fits into a borrowed slice, and fails on chosen calls.
///
/// It also fails where a piece that isn't empty meets a full slice. Calls are counted from 0, the
/// failing ones too.
#[derive(Drop)]
pub struct MemSink<'a> {
    room: &'a mut [u8],
    len: usize,
    fails: Calls,
    calls: usize,
    faults: u64,
}

impl<'a> Model for MemSink<'a> {
    ghost use Rattle.std.specs.Prelude.{◌≤◌, ◌-◌, length, take};
    ghost use Rattle.ve_base.specs.Fill.{Fill};

    ghost Value = { Fill };

    ghost view = { λ s. record { held = take s.len s.room.now; free = length s.room.now - s.len; fails = s.fails; calls = s.calls; faults = s.faults } };

    ghost invariant = { λ s. s.len ≤ length s.room.now };
}

/// Copies what fits of a piece to a position of the room, and gives its length.
fn put(room: &mut [u8], len: usize, piece: &[u8]) -> usize
    requires { len ≤ length room.old }
    ensures size { result ≡ min (length piece.now) (length room.old - len) }
    ensures held { take (len + result) room.new ≡ take len room.old ++ take result piece.now }
    ensures rest { drop (len + result) room.new ≡ drop (len + result) room.old }
{
    let taken = piece.len().min(room.len() - len);
    room[len..len + taken].copy_from_slice(&piece[..taken]);
    taken
}

impl<'a> MemSink<'a> {
    /// A sink that holds nothing, before its first call. It takes no memory.
    pub fn new(room: &'a mut [u8], fails: Calls) -> MemSink<'a>
        ensures { result ≡ record {
          held = [];
          free = length room.entry.now;
          fails = fails;
          calls = 0;
          faults = 0;
        } }
    {
        MemSink {
            room,
            len: 0,
            fails,
            calls: 0,
            faults: 0,
        }
    }

    /// Lends what was written.
    pub fn held(&self) -> &[u8]
        ensures { result.now ≡ self.now.held }
    {
        &self.room[..self.len]
    }
}

impl<'a> Sink for MemSink<'a> {
    ghost use Rattle.std.specs.Prelude.{Some};

    ghost held = { λ s. Some s.held };

    ghost faults = { λ s. s.faults };

    fn write(&mut self, piece: &[u8]) -> Result<usize, Failed>
        ensures bound { IfOk result (λ n. n ≤ length piece.now) }
        ensures some { IfOk result (λ n. 0 < length piece.now → 0 < n) }
        ensures bytes { WriteAppends (Some self.old.held) (Some self.new.held) result piece.now }
        ensures cause { HasCause self.old.faults self.new.faults result }

        ensures fails { IsErr result ↔ FailsAt self.old piece.now }
        ensures size { IfOk result (λ n. n ≡ min (length piece.now) self.old.free) }
        ensures ok { OnOk result (self.new ≡ after_write self.old piece.now) }
        ensures err { OnErr result (self.new ≡ after_failed_write self.old) }
    {
        let call = self.calls;
        self.calls = call.saturating_add(1);
        let is_full = self.len == self.room.len();
        if self.fails.contains(call) || (is_full && !piece.is_empty()) {
            self.faults = self.faults.saturating_add(1);
            return Err(Failed);
        }
        let taken = put(self.room, self.len, piece);
        self.len += taken;
        Ok(taken)
    }
}

/// A sink that takes of each piece what fits into a borrowed slice.
///
/// It fails only where a piece that isn't empty meets a full slice.
#[derive(Drop)]
pub struct NeverSink<'a> {
    room: &'a mut [u8],
    len: usize,
    faults: u64,
}

impl<'a> Model for NeverSink<'a> {
    ghost use Rattle.std.specs.Prelude.{◌≤◌, ◌-◌, length, take};
    ghost use Rattle.ve_base.specs.Fill.{Room};

    ghost Value = { Room };

    ghost view = { λ s. record { held = take s.len s.room.now; free = length s.room.now - s.len; faults = s.faults } };

    ghost invariant = { λ s. s.len ≤ length s.room.now };
}

impl<'a> NeverSink<'a> {
    /// A sink that holds nothing. It takes no memory.
    pub fn new(room: &'a mut [u8]) -> NeverSink<'a>
        ensures { result ≡ record { held = []; free = length room.entry.now; faults = 0 } }
    {
        NeverSink {
            room,
            len: 0,
            faults: 0,
        }
    }

    /// Lends what was written.
    pub fn held(&self) -> &[u8]
        ensures { result.now ≡ self.now.held }
    {
        &self.room[..self.len]
    }
}

impl<'a> Sink for NeverSink<'a> {
    ghost use Rattle.std.specs.Prelude.{Some};

    ghost held = { λ s. Some s.held };

    ghost faults = { λ s. s.faults };

    fn write(&mut self, piece: &[u8]) -> Result<usize, Failed>
        ensures bound { IfOk result (λ n. n ≤ length piece.now) }
        ensures some { IfOk result (λ n. 0 < length piece.now → 0 < n) }
        ensures bytes { WriteAppends (Some self.old.held) (Some self.new.held) result piece.now }
        ensures cause { HasCause self.old.faults self.new.faults result }

        ensures fails { IsErr result ↔ IsFullFor self.old.free piece.now }
        ensures size { IfOk result (λ n. n ≡ min (length piece.now) self.old.free) }
        ensures ok { OnOk result (self.new ≡ after_taking self.old piece.now) }
        ensures err { OnErr result (self.new ≡ after_full self.old) }
    {
        let is_full = self.len == self.room.len();
        if is_full && !piece.is_empty() {
            self.faults = self.faults.saturating_add(1);
            return Err(Failed);
        }
        let written = put(self.room, self.len, piece);
        self.len += written;
        Ok(written)
    }
}
