// Lengths, with the position where each group of them starts.
ghost use Rattle.std.specs.Prelude.{◌≡◌, ◌≤◌, ◌<◌, ◌+◌, ◌-◌, ◌/◌, ◌*◌, ◌^◌, ◌++◌, ◌∷◌, [], None, OnOk, OnErr};
ghost use Rattle.std.specs.Prelude.{length, take, drop, insert, max, sum, slice_index, slice_set, option_to_list};
ghost use Rattle.ve_lengths.specs.Starts.{Finds};

use crate::reckon::{GROUP, cut_out, lower, raise, reckon, shift_back, shift_on};
use std::alloc::Global;
use std::marker::Model;
use ve_base::Memory;

/// Lengths in their order, seen as the list of them and the number of lengths that there is room
/// for.
#[derive(Drop)]
pub struct Lengths {
    lens: Vec<usize>,
    // beside each group the sum of the lengths before it
    starts: Vec<usize>,
    total: usize,
    room: usize,
}

impl Model for Lengths {
    ghost use Rattle.std.specs.Prelude.{vec_capacity};
    ghost use Rattle.ve_lengths.specs.LengthRow.{LengthRow};
    ghost use Rattle.ve_lengths.specs.Starts.{AreStarts, HasRoom};

    ghost Value = { LengthRow };

    ghost view = { λ l. record { lens = l.lens.items; room = l.room } };

    ghost invariant = { λ l. AreStarts l.lens.items l.starts.items l.total × HasRoom l.room (vec_capacity l.lens) (vec_capacity l.starts) };
}

impl Lengths {
    /// No lengths. It takes no memory.
    pub fn new(alloc: Global) -> Lengths
        ensures lens { result.lens ≡ [] }
        ensures room { result.room ≡ 0 }
    {
        Lengths {
            lens: Vec::new(alloc),
            starts: Vec::new(alloc),
            total: 0,
            room: 0,
        }
    }

    /// How many lengths there are.
    pub fn len(&self) -> usize
        ensures count { result ≡ length self.now.lens }
        ensures small { result < 2 ^ 63 }
    {
        self.lens.len()
    }

    /// Their sum.
    pub fn total(&self) -> usize
        ensures { result ≡ sum self.now.lens }
    {
        self.total
    }

    /// The length with that number.
    pub fn get(&self, k: usize) -> usize
        requires { k < length self.now.lens }
        ensures { result ≡ slice_index self.now.lens k }
    {
        self.lens[k]
    }

    /// The sum of the lengths before a group.
    fn group_start(&self, group: usize) -> usize
        requires { group ≤ (length self.now.lens + 15) / 16 }
        ensures { result ≡ sum (take (16 * group) self.now.lens) }
    {
        self.starts.get(group).copied().unwrap_or(self.total)
    }

    /// The sum of the lengths before one; of all of them before the end.
    pub fn start(&self, k: usize) -> usize
        requires { k ≤ length self.now.lens }
        ensures { result ≡ sum (take k self.now.lens) }
    {
        let group = k / GROUP;
        let mut start = self.group_start(group);
        for i in GROUP * group..k {
            start += self.lens[i];
        }
        start
    }

    /// The first length of the last group that starts at a position or before it, and where that
    /// group starts. It is looked for by halves, so the time hardly grows with the number of
    /// groups.
    fn group_at(&self, at: usize) -> (usize, usize)
        requires { at < sum self.now.lens }
        ensures start { sum (take result.0 self.now.lens) ≡ result.1 }
        ensures before { result.1 ≤ at }
    {
        let group = self.starts.partition_point(|start| *start <= at) - 1;
        (GROUP * group, self.starts[group])
    }

    /// The length that holds a position, counted over all of them, and how far it is from that
    /// length's start.
    pub fn find(&self, at: usize) -> (usize, usize)
        requires { at < sum self.now.lens }
        ensures { Finds self.now.lens at result.0 result.1 }
    {
        let (mut k, start) = self.group_at(at);
        let mut left = at - start;
        while self.lens[k] <= left {
            left -= self.lens[k];
            k += 1;
        }
        (k, left)
    }

    /// Makes one of them longer.
    pub fn grow(&mut self, k: usize, by: usize)
        requires among { k < length self.old.lens }
        requires fits { sum self.old.lens + by < 2 ^ 64 }
        ensures lens { self.new.lens
            ≡ slice_set self.old.lens k (slice_index self.old.lens k + by) }
        ensures room { self.new.room ≡ self.old.room }
    {
        raise(&mut self.starts, k / GROUP + 1, by);
        self.total += by;
        self.lens[k] += by;
    }

    /// Makes one of them shorter.
    pub fn shrink(&mut self, k: usize, by: usize)
        requires among { k < length self.old.lens }
        requires long { by ≤ slice_index self.old.lens k }
        ensures lens { self.new.lens
            ≡ slice_set self.old.lens k (slice_index self.old.lens k - by) }
        ensures room { self.new.room ≡ self.old.room }
    {
        lower(&mut self.starts, k / GROUP + 1, by);
        self.total -= by;
        self.lens[k] -= by;
    }

    /// Takes room for so many lengths more. An `Err` changes nothing.
    pub fn reserve(&mut self, more: usize) -> Result<(), Memory>
        ensures lens { self.new.lens ≡ self.old.lens }
        ensures ok { OnOk result (self.new.room ≡ max self.old.room (length self.old.lens + more)) }
        ensures err { OnErr result (self.new ≡ self.old) }
    {
        self.lens.reserve(more)?;
        self.starts.reserve(more / GROUP + 1)?;
        self.room = self.room.max(self.lens.len() + more);
        Ok(())
    }

    /// Appends a length. It takes no memory.
    pub fn push(&mut self, len: usize)
        requires room { length self.old.lens < self.old.room }
        requires fits { sum self.old.lens + len < 2 ^ 64 }
        ensures lens { self.new.lens ≡ self.old.lens ++ len ∷ [] }
        ensures room { self.new.room ≡ self.old.room }
    {
        if self.lens.len() % GROUP == 0 {
            let begun = self.starts.push(self.total).is_ok();
            prove!(begun);
        }
        let pushed = self.lens.push(len).is_ok();
        prove!(pushed);
        self.total += len;
    }

    /// Takes the last length off, where there is one.
    pub fn pop(&mut self) -> Option<usize>
        ensures lens { self.old.lens ≡ self.new.lens ++ option_to_list result }
        ensures none { result ≡ None → self.old.lens ≡ [] }
        ensures room { self.new.room ≡ self.old.room }
    {
        let len = self.lens.pop()?;
        self.total -= len;
        self.starts.truncate(self.lens.len().div_ceil(GROUP));
        Some(len)
    }

    /// Puts a length in before one, or at the end. It takes no memory.
    pub fn put_in(&mut self, k: usize, len: usize)
        requires among { k ≤ length self.old.lens }
        requires room { length self.old.lens < self.old.room }
        requires fits { sum self.old.lens + len < 2 ^ 64 }
        ensures lens { self.new.lens ≡ insert self.old.lens k len }
        ensures room { self.new.room ≡ self.old.room }
    {
        if self.lens.len() % GROUP == 0 {
            let grown = self.starts.push(self.total).is_ok();
            prove!(grown);
        }
        let inserted = self.lens.insert(k, len).is_ok();
        prove!(inserted);
        shift_on(&self.lens, &mut self.starts, k / GROUP + 1, len);
        self.total += len;
    }

    /// Takes one length out.
    fn take_one(&mut self, k: usize)
        requires { k < length self.old.lens }
        ensures lens { self.new.lens ≡ take k self.old.lens ++ drop (k + 1) self.old.lens }
        ensures room { self.new.room ≡ self.old.room }
    {
        let len = self.lens.remove(k);
        let groups = self.lens.len().div_ceil(GROUP);
        self.starts.truncate(groups);
        shift_back(&self.lens, &mut self.starts, k / GROUP + 1, len);
        self.total -= len;
    }

    /// Takes the lengths from one up to another out. Where that is none, no other is looked at.
    pub fn take_out(&mut self, from: usize, to: usize)
        requires order { from ≤ to }
        requires within { to ≤ length self.old.lens }
        ensures lens { self.new.lens ≡ take from self.old.lens ++ drop to self.old.lens }
        ensures room { self.new.room ≡ self.old.room }
    {
        if from == to {
            return;
        }
        // one, as most often: of each later group one length is looked at
        if from + 1 == to {
            self.take_one(from);
            return;
        }
        let group = from / GROUP;
        let start = self.group_start(group);
        cut_out(&mut self.lens, from, to);
        self.total = reckon(&self.lens, &mut self.starts, group, start);
    }
}
