// Sources that give bytes of memory: one with chosen pieces and faults, and one that never fails.
ghost use Rattle.std.specs.Prelude.{◌≡◌, ◌↔◌, ◌<◌, ◌≤◌, ◌+◌, ℕ, All, Contains, length, take, drop, min, Ok, IfOk, IsErr, OnOk, OnErr};
ghost use Rattle.std.specs.Io.KnownBytes.{ReadConsumes};
ghost use Rattle.ve_base.specs.Feed.{piece_size, next_cut, after_piece, after_fault};
ghost use Rattle.ve_base.specs.Outside.{HasCause};

use crate::{Bytes, Calls, Cuts, Failed, Source};
use std::marker::Model;

/// A source that gives its bytes in pieces of chosen sizes and fails on chosen calls.
///
/// The cuts are used in turn, each by one call that doesn't fail; after the last one a piece is as
/// large as the room. Calls are counted from 0, the failing ones too.
#[derive(Drop)]
pub struct MemSource {
    bytes: Bytes,
    given: usize,
    cuts: Cuts,
    used: usize,
    fails: Calls,
    calls: usize,
    faults: u64,
}

impl Model for MemSource {
    ghost use Rattle.std.specs.Prelude.{◌≤◌, length, drop};
    ghost use Rattle.ve_base.specs.Feed.{Feed};

    ghost Value = { Feed };

    ghost view = { λ s. record { left = drop s.given s.bytes; cuts = drop s.used s.cuts; fails = s.fails; calls = s.calls; faults = s.faults } };

    ghost invariant = { λ s. (s.given ≤ length s.bytes) × (s.used ≤ length s.cuts) };
}

impl MemSource {
    /// A source of these bytes, before its first call. It takes no memory.
    pub fn new(bytes: Bytes, cuts: Cuts, fails: Calls) -> MemSource
        ensures { result
            ≡ record { left = bytes; cuts = cuts; fails = fails; calls = 0; faults = 0 } }
    {
        MemSource {
            bytes,
            given: 0,
            cuts,
            used: 0,
            fails,
            calls: 0,
            faults: 0,
        }
    }
}

/// The greatest size of a piece after so many cuts.
fn size_after(cuts: &[usize], used: usize, room: usize) -> usize
    requires { All (λ cut. 0 < cut) cuts.now }
    ensures size { result ≡ next_cut (drop used cuts.now) room }
    ensures some { 0 < room → 0 < result }
    ensures within { result ≤ room }
{
    match cuts.get(used) {
        Some(cut) => room.min(*cut),
        None => room,
    }
}

/// How many cuts are used after one more, where there is one.
fn after_use(used: usize, cuts: usize) -> usize
    ensures { used ≤ cuts → result ≡ min (used + 1) cuts }
{
    if used < cuts { used + 1 } else { cuts }
}

/// Copies the bytes from a position on to the start of the room, at most so many.
fn give(bytes: &[u8], from: usize, most: usize, room: &mut [u8]) -> usize
    requires from { from ≤ length bytes.now }
    requires most { most ≤ length room.old }
    ensures size { result ≡ min (length (drop from bytes.now)) most }
    ensures prefix { take result room.new ≡ take result (drop from bytes.now) }
    ensures rest { drop result room.new ≡ drop result room.old }
{
    let given = (bytes.len() - from).min(most);
    room[..given].copy_from_slice(&bytes[from..from + given]);
    given
}

impl Source for MemSource {
    ghost use Rattle.std.specs.Prelude.{Some};

    ghost left = { λ s. Some s.left };

    ghost faults = { λ s. s.faults };

    fn read(&mut self, room: &mut [u8]) -> Result<usize, Failed>
        requires { 0 < length room.old }
        ensures bound { IfOk result (λ n. n ≤ length room.new) }
        ensures bytes { ReadConsumes (Some self.old.left) (Some self.new.left) result room.new }
        ensures cause { HasCause self.old.faults self.new.faults result }

        ensures fails { IsErr result ↔ Contains self.old.fails self.old.calls }
        ensures size { IfOk result (λ n. n ≡ piece_size self.old (length room.old)) }
        ensures ok { OnOk result (self.new ≡ after_piece self.old (length room.old)) }
        ensures rest { IfOk result (λ n. drop n room.new ≡ drop n room.old) }
        ensures err { OnErr result (self.new ≡ after_fault self.old) }
        ensures room { OnErr result (room.new ≡ room.old) }
    {
        let call = self.calls;
        self.calls = call.saturating_add(1);
        if self.fails.contains(call) {
            self.faults = self.faults.saturating_add(1);
            return Err(Failed);
        }
        let cuts = self.cuts.as_slice();
        let most = size_after(cuts, self.used, room.len());
        self.used = after_use(self.used, cuts.len());
        let given = give(self.bytes.as_slice(), self.given, most, room);
        self.given += given;
        Ok(given)
    }
}

/// A source that gives as many of its bytes as the room takes, and never fails.
#[derive(Drop)]
pub struct NeverSource {
    bytes: Bytes,
    given: usize,
}

impl Model for NeverSource {
    ghost use Rattle.std.specs.Prelude.{ℕ, ◌≤◌, List, length, drop};
    ghost use Rattle.std.specs.Coded.{coded_ℕ, coded_list};

    ghost Value = { List ℕ };

    ghost coded = { coded_list coded_ℕ };

    ghost view = { λ s. drop s.given s.bytes };

    ghost invariant = { λ s. s.given ≤ length s.bytes };
}

impl NeverSource {
    /// A source of these bytes. It takes no memory.
    pub fn new(bytes: Bytes) -> NeverSource
        ensures { result ≡ bytes }
    {
        NeverSource { bytes, given: 0 }
    }
}

impl Source for NeverSource {
    ghost use Rattle.std.specs.Prelude.{Some};

    ghost left = { λ s. Some s };

    ghost faults = { λ _. 0 };

    fn read(&mut self, room: &mut [u8]) -> Result<usize, Failed>
        requires { 0 < length room.old }
        ensures bound { IfOk result (λ n. n ≤ length room.new) }
        ensures bytes { ReadConsumes (Some self.old) (Some self.new) result room.new }
        ensures cause { HasCause 0 0 result }

        ensures size { result ≡ Ok (min (length self.old) (length room.old)) }
        ensures after { self.new ≡ drop (min (length self.old) (length room.old)) self.old }
        ensures rest { IfOk result (λ n. drop n room.new ≡ drop n room.old) }
    {
        let given = give(self.bytes.as_slice(), self.given, room.len(), room);
        self.given += given;
        Ok(given)
    }
}
