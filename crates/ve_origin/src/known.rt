// What is known of two lists since they were compared before.
ghost use Rattle.std.specs.Prelude.{◌≡◌, ◌≤◌, ◌<◌, ◌+◌, ◌-◌, ℕ, List};
ghost use Rattle.model_items.specs.declared.item.Item.{Item as Cited};
ghost use Rattle.model_page.specs.declared.ref_table.RefRow.{RefRow as Row};
ghost use Rattle.ve_origin.specs.Known.{AreKnown, IsKnown, Match};
ghost use Rattle.ve_origin.specs.Origins.{FirstRead};

/// So many items, from a place of a list on and from a place of the list that was first read on.
#[derive(Clone, Copy, Debug)]
pub struct Run {
    pub now: usize,
    pub first: usize,
    pub count: usize,
}

/// What is known of a list beside the one that was first read: a run of items that are alike, and
/// another at the end of both lists. It spares comparing them again, and decides nothing.
#[derive(Clone, Copy, Debug)]
pub struct Known {
    pub alike: Run,
    pub at_end: Run,
}

impl Known {
    /// Nothing is known.
    pub fn nothing() -> Known
        ensures { (now : List Cited) (refs : List Row) (o : FirstRead) → IsKnown now refs o result }
    {
        let none = Run {
            now: 0,
            first: 0,
            count: 0,
        };
        Known {
            alike: none,
            at_end: none,
        }
    }

    /// How many items are known to be alike from these places on.
    pub(crate) fn reach(self, now: usize, first: usize) -> usize
        ensures { (items others : List Cited) (count : ℕ)
            → AreKnown items others self
            → count ≤ result
            → Match items others now first count }
    {
        let run = reach(self.alike, now, first);
        if run > 0 {
            return run;
        }
        reach(self.at_end, now, first)
    }
}

/// How many items of a run stand from these places on, where they are in step with it.
fn reach(run: Run, now: usize, first: usize) -> usize
    ensures before { 0 < result → run.now ≤ now }
    ensures step { 0 < result → first ≡ run.first + (now - run.now) }
    ensures end { 0 < result → now - run.now + result ≡ run.count }
{
    if now < run.now || first < run.first {
        return 0;
    }
    let passed = now - run.now;
    if first - run.first != passed {
        return 0;
    }
    run.count.saturating_sub(passed)
}
