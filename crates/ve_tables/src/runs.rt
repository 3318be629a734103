// Runs of columns in the order of their numbers.
ghost use Rattle.std.specs.Prelude.{◌≡◌, ◌≤◌, ◌<◌, [], ◌∷◌, All, IfSome, IfNone, OnOk, IsPermutation};
ghost use Rattle.ve_tables.specs.Runs.{IsLeast};

use std::alloc::Global;
use std::cmp::Reverse;
use std::collections::BinaryHeap;
use std::marker::Model;
use ve_base::Memory;

/// The columns from one on up to another, with a number.
#[derive(Clone, Copy, PartialEq, Eq, PartialOrd, Ord)]
pub struct Run {
    pub number: usize,
    pub from: usize,
    pub to: usize,
}

/// Runs of which the one with the least number is taken out first, seen as a list in some order.
#[derive(Drop)]
pub struct Runs {
    heap: BinaryHeap<Reverse<Run>>,
}

impl Model for Runs {
    ghost use Rattle.std.specs.Prelude.{List, map};
    ghost use Rattle.std.specs.BinaryHeap.{IsHeap, heap_items};
    ghost use Rattle.ve_tables.specs.declared.runs.Run.{Run};
    ghost use Rattle.ve_tables.specs.Runs.{run_of, later_first};

    ghost Value = { List Run };

    ghost view = { λ r. map run_of (heap_items r.heap) };

    ghost invariant = { λ r. IsHeap later_first (heap_items r.heap) };
}

impl Runs {
    /// No runs. It takes no memory.
    pub fn new(alloc: Global) -> Runs
        ensures { result ≡ [] }
    {
        Runs {
            heap: BinaryHeap::new(alloc),
        }
    }

    /// The least number.
    pub fn least(&self) -> Option<usize>
        ensures some { IfSome result (λ number. IsLeast number self.now) }
        ensures none { IfNone result (self.now ≡ []) }
    {
        match self.heap.peek() {
            Some(Reverse(run)) => Some(run.number),
            None => None,
        }
    }

    /// Puts a run among the others.
    pub fn push(&mut self, run: Run) -> Result<(), Memory>
        ensures { OnOk result (IsPermutation (run ∷ self.old) self.new) }
    {
        self.heap.push(Reverse(run))?;
        Ok(())
    }

    /// Takes the run with the least number out, where that isn't over `most`.
    pub fn pop_up_to(&mut self, most: usize) -> Option<Run>
        ensures taken { IfSome result (λ run. IsPermutation self.old (run ∷ self.new)) }
        ensures few { IfSome result (λ run. run.number ≤ most) }
        ensures first { IfSome result (λ run. All (λ other. run.number ≤ other.number) self.new) }
        ensures over { IfNone result (All (λ run. most < run.number) self.old) }
        ensures same { IfNone result (self.new ≡ self.old) }
    {
        let least = self.least()?;
        if most < least {
            return None;
        }
        let Reverse(run) = self.heap.pop()?;
        Some(run)
    }
}
