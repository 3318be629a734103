// The script of a change: one pass over its operations, with a cursor in the old tree. Nothing is
// written but the nodes that it makes.
ghost use Rattle.std.specs.Prelude.{◌≡◌, ◌≤◌, ℕ, ◌<◌, ◌+◌, ◌^◌, [], ◌∷◌, ◌++◌, None, Some, IfOk, OnOk, OnErr, length, replicate, option_map};
ghost use Rattle.ve_arena.specs.Arena.{slot_at, new_node};
ghost use Rattle.ve_tree.specs.Links.{number_of};
ghost use Rattle.ve_tx.specs.Checked.{old_size};
ghost use Rattle.ve_repair.specs.Frees.{node_of};
ghost use Rattle.ve_repair.specs.Script.{is_seen};
ghost use Rattle.ve_repair.specs.Cursors.{items_in};
ghost use Rattle.ve_repair.specs.Reader.{Reading, letters_in, with_cursor, with_steps, put_step, run_ended, end_of, grown, kept_text, cut_steps};
ghost use Rattle.ve_repair.specs.Reader.{Keeps, MakesOn, MakesSame, IsPaid, IsPaidOrOne, RunEnds};
ghost use Rattle.ve_repair.specs.Acts.{Stay, come, acts_of};
ghost use Rattle.ve_repair.specs.Charged.{made_count};
ghost use Rattle.ve_repair.specs.Partly.{IsPart, IsPartOut, StopsAtPassed, StopsAtReplace, made_when_ended};
ghost use Rattle.ve_repair.specs.Courses.{Course, HasRead, RetainsPassed, RemovesPassed, IsReading, HaveCome, AreDone, IsReadOut, AreReadOut, with_stays, with_gone, come_size};

use crate::cursor::{Ahead, Cursor, Passed};
use crate::script::{How, Step};
use model_items::Item;
use std::alloc::Global;
use std::marker::Model;
use std::sync::ledger::Ledger;
use ve_arena::{Arena, NodeId, NodeWhat};
use ve_base::{Memory, Steps};
use ve_kinds::Kind;
use ve_tx::Op;

/// The run of characters that the new list is in.
#[derive(Clone, Copy, Drop)]
pub struct TextRun {
    /// How many characters follow its first.
    pub more: usize,
    /// The old text node that it keeps.
    pub kept: Option<NodeId>,
    /// Whether a character of it was retained.
    pub any: bool,
}

/// The cursor in the old tree, the text node of the last retained character, the run of the new
/// list, and the script so far.
#[derive(Drop)]
pub(crate) struct ChangeReader {
    at: Cursor,
    seen: Option<NodeId>,
    run: Option<TextRun>,
    script: Vec<Step>,
}

impl Model for ChangeReader {
    ghost use Rattle.ve_repair.specs.Reader.{Reading};

    ghost Value = { Reading };

    ghost view = { λ r. record { at = r.at; seen = r.seen; run = r.run; script = r.script.items } };
}

/// The step of a node that is made.
fn put_step(what: NodeWhat, n: NodeId) -> Step
    ensures { result ≡ put_step what n }
{
    match what {
        NodeWhat::Run => Step::Text { how: How::Put, n },
        NodeWhat::Node(_) => Step::Enter { how: How::Put, n },
    }
}

fn is_same(one: Option<NodeId>, n: NodeId) -> bool
    ensures { result ≡ is_seen (option_map number_of one) n.0 }
{
    match one {
        Some(m) => m.0 == n.0,
        None => false,
    }
}

impl ChangeReader {
    /// Nothing is read, from a cursor on. It takes no memory.
    pub(crate) fn new(alloc: Global, at: Cursor) -> ChangeReader
        ensures { result ≡ record { at = at; seen = None; run = None; script = [] } }
    {
        ChangeReader {
            at,
            seen: None,
            run: None,
            script: Vec::new(alloc),
        }
    }

    /// Where the reader is.
    pub(crate) fn cursor(&self) -> Cursor
        ensures { result ≡ self.now.at }
    {
        self.at
    }

    /// The script so far.
    pub(crate) fn script(&self) -> &[Step]
        ensures { result.now ≡ self.now.script }
    {
        self.script.as_slice()
    }

    /// Makes a node, and notes it in the script, for which there is room before it is made.
    fn make_node<L: Ledger>(
        &mut self,
        arena: &mut Arena,
        what: NodeWhat,
        steps: &mut Steps<L>,
    ) -> Result<NodeId, Memory>
        ensures node { IfOk result (λ n. slot_at arena.new.slots n.0 ≡ Some (new_node what)) }
        ensures reader { IfOk result (λ n. self.new ≡ with_steps (put_step what n ∷ []) self.old) }
        ensures keeps { Keeps arena.old.slots arena.new.slots }
        ensures made { MakesOn arena.old.slots self.old.script arena.new.slots self.new.script }
        ensures first { arena.new.first ≡ arena.old.first }
        ensures paid { OnOk result (IsPaid steps.old self.old.script steps.new self.new.script) }
        ensures at_most { OnErr result (
            IsPaidOrOne steps.old self.old.script steps.new self.new.script) }
        ensures same { OnErr result (self.new.script ≡ self.old.script) }
    {
        self.script.reserve(1)?;
        let n = arena.make(what, steps)?;
        let noted = self.script.push(put_step(what, n)).is_ok();
        prove!(noted);
        Ok(n)
    }

    /// Notes a step that makes no node.
    fn note(&mut self, step: Step) -> Result<(), Memory>
        requires { node_of How.Put step ≡ None }
        ensures reader { OnOk result (self.new ≡ with_steps (step ∷ []) self.old) }
        ensures err { OnErr result (self.new ≡ self.old) }
        ensures same { MakesSame self.old.script self.new.script }
    {
        self.script.push(step)?;
        Ok(())
    }

    /// The run ends, and its text has so many characters.
    fn end_with(&mut self, n: NodeId, count: usize) -> Result<(), Memory>
        ensures reader { OnOk result (self.new ≡ run_ended (Step.Count n count ∷ []) self.old) }
        ensures same { MakesSame self.old.script self.new.script }
        ensures err { OnErr result (self.new.script ≡ self.old.script) }
    {
        self.note(Step::Count { n, count })?;
        self.run = None;
        Ok(())
    }
}

impl ChangeReader {
    /// The run of the new list ends: its text is the one that it keeps, or one that is made.
    fn end_run<L: Ledger>(&mut self, arena: &mut Arena, steps: &mut Steps<L>) -> Result<(), Memory>
        requires { letters_in self.old.run < 2 ^ 64 }
        ensures ends { OnOk result (RunEnds arena.old.slots arena.new.slots self.old [] self.new) }
        ensures made { MakesOn arena.old.slots self.old.script arena.new.slots self.new.script }
        ensures first { arena.new.first ≡ arena.old.first }
        ensures paid { OnOk result (IsPaid steps.old self.old.script steps.new self.new.script) }
        ensures at_most { OnErr result (
            IsPaidOrOne steps.old self.old.script steps.new self.new.script) }
        ensures stopped { OnErr result (made_count self.new.script ≤ made_when_ended self.old) }
    {
        let Some(run) = self.run else {
            return Ok(());
        };
        if let Some(n) = run.kept {
            return self.end_with(n, run.more + 1);
        }
        let n = self.make_node(arena, NodeWhat::Run, steps)?;
        self.end_with(n, run.more + 1)
    }

    /// A bracket of the new list, at which a run ends.
    fn pass_bracket<L: Ledger>(
        &mut self,
        arena: &mut Arena,
        step: Step,
        steps: &mut Steps<L>,
    ) -> Result<(), Memory>
        requires fits { letters_in self.old.run < 2 ^ 64 }
        requires plain { node_of How.Put step ≡ None }
        ensures ends { OnOk result (
            RunEnds arena.old.slots arena.new.slots self.old (step ∷ []) self.new) }
        ensures made { MakesOn arena.old.slots self.old.script arena.new.slots self.new.script }
        ensures first { arena.new.first ≡ arena.old.first }
        ensures paid { OnOk result (IsPaid steps.old self.old.script steps.new self.new.script) }
        ensures at_most { OnErr result (
            IsPaidOrOne steps.old self.old.script steps.new self.new.script) }
        ensures stopped { OnErr result (made_count self.new.script ≤ made_when_ended self.old) }
    {
        self.end_run(arena, steps)?;
        self.note(step)
    }

    /// A node that is made for an opening, at which a run ends.
    fn begin_node<L: Ledger>(
        &mut self,
        arena: &mut Arena,
        kind: Kind,
        steps: &mut Steps<L>,
    ) -> Result<NodeId, Memory>
        requires { letters_in self.old.run < 2 ^ 64 }
        ensures ends { IfOk result (λ n.
            RunEnds arena.old.slots arena.new.slots self.old (put_step (NodeWhat.Node kind) n ∷ [])
            self.new) }
        ensures node { IfOk result (λ n.
            slot_at arena.new.slots n.0 ≡ Some (new_node (NodeWhat.Node kind))) }
        ensures made { MakesOn arena.old.slots self.old.script arena.new.slots self.new.script }
        ensures first { arena.new.first ≡ arena.old.first }
        ensures paid { OnOk result (IsPaid steps.old self.old.script steps.new self.new.script) }
        ensures at_most { OnErr result (
            IsPaidOrOne steps.old self.old.script steps.new self.new.script) }
        ensures stopped { OnErr result (made_count self.new.script ≤ made_when_ended self.old) }
    {
        self.end_run(arena, steps)?;
        self.make_node(arena, NodeWhat::Node(kind), steps)
    }

    /// The run of the new list, begun if there is none, has more characters.
    fn grow_run(&mut self, count: usize)
        requires some { 1 ≤ count }
        requires fits { letters_in self.old.run + count < 2 ^ 64 }
        ensures { self.new ≡ grown count self.old }
    {
        self.run = match self.run {
            Some(run) => Some(TextRun {
                more: run.more + count,
                kept: run.kept,
                any: run.any,
            }),
            None => Some(TextRun {
                more: count - 1,
                kept: None,
                any: false,
            }),
        };
    }

    /// Of a text that had a retained character before nothing is noted; of another one, that it
    /// stays where the run keeps none, and else that it goes.
    fn note_text(&mut self, n: NodeId, run: TextRun) -> Result<(), Memory>
        requires { self.old.run ≡ Some run }
        ensures reader { OnOk result (self.new ≡ kept_text n self.old) }
        ensures same { MakesSame self.old.script self.new.script }
    {
        let mut kept = run.kept;
        if !is_same(self.seen, n) {
            if run.any {
                self.note(Step::Text { how: How::Cut, n })?;
            } else {
                self.note(Step::Text { how: How::Keep, n })?;
                kept = Some(n);
            }
        }
        self.run = Some(TextRun {
            more: run.more,
            kept,
            any: true,
        });
        self.seen = Some(n);
        Ok(())
    }

    /// The run of the new list has a character of this text.
    fn keep_text(&mut self, n: NodeId) -> Result<(), Memory>
        ensures reader { OnOk result (self.new ≡ kept_text n self.old) }
        ensures same { MakesSame self.old.script self.new.script }
    {
        let Some(run) = self.run else {
            return Ok(());
        };
        self.note_text(n, run)
    }
}

impl ChangeReader {
    /// Retains the token that the cursor passes.
    fn retain_passed<L: Ledger>(
        &mut self,
        arena: &mut Arena,
        passed: Passed,
        steps: &mut Steps<L>,
    ) -> Result<(), Memory>
        requires some { 1 ≤ passed.count }
        requires fits { letters_in self.old.run + passed.count < 2 ^ 64 }
        ensures read { OnOk result (
            RetainsPassed arena.old.slots self.old passed arena.new.slots self.new) }
        ensures made { MakesOn arena.old.slots self.old.script arena.new.slots self.new.script }
        ensures first { arena.new.first ≡ arena.old.first }
        ensures paid { OnOk result (IsPaid steps.old self.old.script steps.new self.new.script) }
        ensures at_most { OnErr result (
            IsPaidOrOne steps.old self.old.script steps.new self.new.script) }
        ensures part { OnErr result (
            StopsAtPassed arena.old.slots self.old passed self.new.script) }
    {
        self.at = passed.at;
        match passed.what {
            Ahead::Opening(n) => {
                self.pass_bracket(arena, Step::Enter { how: How::Keep, n }, steps)
            }
            Ahead::Chars { n, .. } => {
                self.grow_run(passed.count);
                self.keep_text(n)
            }
            Ahead::Closing => self.pass_bracket(arena, Step::Leave { how: How::Keep }, steps),
        }
    }

    /// Some items stay, and at most so many: the answer is how many.
    fn retain_some<L: Ledger>(
        &mut self,
        arena: &mut Arena,
        most: usize,
        steps: &mut Steps<L>,
    ) -> Result<usize, Memory>
        requires some { 1 ≤ most }
        requires reads { IsReading arena.old.slots self.old most 0 }
        ensures some { IfOk result (λ k. 1 ≤ k) }
        ensures few { IfOk result (λ k. k ≤ most) }
        ensures read { IfOk result (λ k.
            (c : Course)
            → HasRead c arena.old.slots self.old
            → most ≤ items_in c.spot.rest
            → HasRead (with_stays k c) arena.new.slots self.new) }
        ensures made { MakesOn arena.old.slots self.old.script arena.new.slots self.new.script }
        ensures first { arena.new.first ≡ arena.old.first }
        ensures paid { OnOk result (IsPaid steps.old self.old.script steps.new self.new.script) }
        ensures at_most { OnErr result (
            IsPaidOrOne steps.old self.old.script steps.new self.new.script) }
        ensures part { OnErr result (
            (c : Course)
            → HasRead c arena.old.slots self.old
            → most ≤ items_in c.spot.rest
            → IsPart c (replicate most Stay) self.new.script) }
    {
        let passed = self.at.pass(arena, most);
        self.retain_passed(arena, passed, steps)?;
        Ok(passed.count)
    }

    /// So many items stay.
    pub(crate) fn retain<L: Ledger>(
        &mut self,
        arena: &mut Arena,
        count: usize,
        steps: &mut Steps<L>,
    ) -> Result<(), Memory>
        requires reads { IsReading arena.old.slots self.old count 0 }
        ensures read { OnOk result (
            (c : Course)
            → HasRead c arena.old.slots self.old
            → count ≤ items_in c.spot.rest
            → HasRead (with_stays count c) arena.new.slots self.new) }
        ensures made { MakesOn arena.old.slots self.old.script arena.new.slots self.new.script }
        ensures first { arena.new.first ≡ arena.old.first }
        ensures paid { OnOk result (IsPaid steps.old self.old.script steps.new self.new.script) }
        ensures at_most { OnErr result (
            IsPaidOrOne steps.old self.old.script steps.new self.new.script) }
        ensures part { OnErr result (
            (c : Course)
            → HasRead c arena.old.slots self.old
            → count ≤ items_in c.spot.rest
            → IsPart c (replicate count Stay) self.new.script) }
    {
        let mut left = count;
        while left > 0 {
            let some = self.retain_some(arena, left, steps)?;
            left -= some;
        }
        Ok(())
    }

    /// Characters of a text go. Its node goes with the last of them, unless one was retained.
    fn cut_text(&mut self, n: NodeId, ends: bool) -> Result<(), Memory>
        ensures reader { OnOk result (
            self.new
            ≡ with_steps (cut_steps (is_seen (option_map number_of self.old.seen) n.0) ends n)
            self.old) }
        ensures same { MakesSame self.old.script self.new.script }
    {
        if !ends || is_same(self.seen, n) {
            return Ok(());
        }
        self.note(Step::Text { how: How::Cut, n })
    }

    /// Removes the token that the cursor passes.
    fn remove_passed(&mut self, passed: Passed) -> Result<(), Memory>
        ensures read { OnOk result (RemovesPassed self.old passed self.new) }
        ensures same { MakesSame self.old.script self.new.script }
    {
        self.at = passed.at;
        match passed.what {
            Ahead::Opening(n) => self.note(Step::Enter { how: How::Cut, n }),
            Ahead::Chars { n, ends } => self.cut_text(n, ends),
            Ahead::Closing => self.note(Step::Leave { how: How::Cut }),
        }
    }

    /// Some items go, and at most so many: the answer is how many.
    fn remove_some(&mut self, arena: &Arena, most: usize) -> Result<usize, Memory>
        requires some { 1 ≤ most }
        requires reads { IsReading arena.now.slots self.old most 0 }
        ensures some { IfOk result (λ k. 1 ≤ k) }
        ensures few { IfOk result (λ k. k ≤ most) }
        ensures read { IfOk result (λ k.
            (c : Course)
            → HasRead c arena.now.slots self.old
            → most ≤ items_in c.spot.rest
            → HasRead (with_gone k c) arena.now.slots self.new) }
        ensures same { MakesSame self.old.script self.new.script }
    {
        let passed = self.at.pass(arena, most);
        self.remove_passed(passed)?;
        Ok(passed.count)
    }

    /// So many items go.
    pub(crate) fn remove(&mut self, arena: &Arena, count: usize) -> Result<(), Memory>
        requires reads { IsReading arena.now.slots self.old count 0 }
        ensures read { OnOk result (
            (c : Course)
            → HasRead c arena.now.slots self.old
            → count ≤ items_in c.spot.rest
            → HasRead (with_gone count c) arena.now.slots self.new) }
        ensures same { MakesSame self.old.script self.new.script }
    {
        let mut left = count;
        while left > 0 {
            let some = self.remove_some(arena, left)?;
            left -= some;
        }
        Ok(())
    }
}

impl ChangeReader {
    /// An item comes.
    fn come<L: Ledger>(
        &mut self,
        arena: &mut Arena,
        item: Item,
        steps: &mut Steps<L>,
    ) -> Result<(), Memory>
        requires reads { IsReading arena.old.slots self.old 0 1 }
        ensures read { OnOk result (
            (c : Course)
            → HasRead c arena.old.slots self.old
            → HaveCome (item ∷ []) c arena.new.slots self.new) }
        ensures made { MakesOn arena.old.slots self.old.script arena.new.slots self.new.script }
        ensures first { arena.new.first ≡ arena.old.first }
        ensures paid { OnOk result (IsPaid steps.old self.old.script steps.new self.new.script) }
        ensures at_most { OnErr result (
            IsPaidOrOne steps.old self.old.script steps.new self.new.script) }
        ensures part { OnErr result (
            (c : Course)
            → HasRead c arena.old.slots self.old
            → IsPart c (come (item ∷ []) []) self.new.script) }
    {
        match item {
            Item::Char { .. } => {
                self.grow_run(1);
                Ok(())
            }
            Item::Opening { kind, .. } => {
                self.begin_node(arena, kind, steps)?;
                Ok(())
            }
            Item::Closing { .. } => self.pass_bracket(arena, Step::Leave { how: How::Put }, steps),
        }
    }

    /// These items come.
    pub(crate) fn insert<L: Ledger>(
        &mut self,
        arena: &mut Arena,
        items: &[Item],
        steps: &mut Steps<L>,
    ) -> Result<(), Memory>
        requires reads { IsReading arena.old.slots self.old 0 (length items.now) }
        ensures read { OnOk result (
            (c : Course)
            → HasRead c arena.old.slots self.old
            → HaveCome items.now c arena.new.slots self.new) }
        ensures made { MakesOn arena.old.slots self.old.script arena.new.slots self.new.script }
        ensures first { arena.new.first ≡ arena.old.first }
        ensures paid { OnOk result (IsPaid steps.old self.old.script steps.new self.new.script) }
        ensures at_most { OnErr result (
            IsPaidOrOne steps.old self.old.script steps.new self.new.script) }
        ensures part { OnErr result (
            (c : Course)
            → HasRead c arena.old.slots self.old
            → IsPart c (come items.now []) self.new.script) }
    {
        for item in items {
            self.come(arena, *item, steps)?;
        }
        Ok(())
    }
}

impl ChangeReader {
    /// The text that the cursor is in stays to its end, and the run ends.
    fn rest_of_run<L: Ledger>(
        &mut self,
        arena: &mut Arena,
        steps: &mut Steps<L>,
    ) -> Result<(), Memory>
        requires reads { IsReading arena.old.slots self.old 0 0 }
        ensures read { OnOk result (
            (c : Course)
            → HasRead c arena.old.slots self.old
            → IsReadOut c arena.new.slots self.new) }
        ensures made { MakesOn arena.old.slots self.old.script arena.new.slots self.new.script }
        ensures first { arena.new.first ≡ arena.old.first }
        ensures paid { OnOk result (IsPaid steps.old self.old.script steps.new self.new.script) }
        ensures at_most { OnErr result (
            IsPaidOrOne steps.old self.old.script steps.new self.new.script) }
        ensures part { OnErr result (
            (c : Course) → HasRead c arena.old.slots self.old → IsPartOut [] c self.new.script) }
    {
        let count = self.at.rest_of_text(arena);
        self.retain(arena, count, steps)?;
        self.end_run(arena, steps)
    }

    /// So many items go, and these come in their place.
    fn replace<L: Ledger>(
        &mut self,
        arena: &mut Arena,
        removed: usize,
        inserted: &[Item],
        steps: &mut Steps<L>,
    ) -> Result<(), Memory>
        requires reads { IsReading arena.old.slots self.old removed (length inserted.now) }
        ensures read { OnOk result (
            (c : Course)
            → HasRead c arena.old.slots self.old
            → removed ≤ items_in c.spot.rest
            → HaveCome inserted.now (with_gone removed c) arena.new.slots self.new) }
        ensures made { MakesOn arena.old.slots self.old.script arena.new.slots self.new.script }
        ensures first { arena.new.first ≡ arena.old.first }
        ensures paid { OnOk result (IsPaid steps.old self.old.script steps.new self.new.script) }
        ensures at_most { OnErr result (
            IsPaidOrOne steps.old self.old.script steps.new self.new.script) }
        ensures part { OnErr result (
            StopsAtReplace arena.old.slots self.old removed inserted.now self.new.script) }
    {
        self.remove(arena, removed)?;
        self.insert(arena, inserted, steps)
    }

    fn pass_op<L: Ledger>(
        &mut self,
        arena: &mut Arena,
        op: &Op,
        steps: &mut Steps<L>,
    ) -> Result<(), Memory>
        requires reads { IsReading arena.old.slots self.old (old_size (op.now ∷ [])) (
            come_size (op.now ∷ [])) }
        ensures read { OnOk result (
            (c : Course)
            → HasRead c arena.old.slots self.old
            → old_size (op.now ∷ []) ≤ items_in c.spot.rest
            → AreDone (op.now ∷ []) c arena.new.slots self.new) }
        ensures made { MakesOn arena.old.slots self.old.script arena.new.slots self.new.script }
        ensures first { arena.new.first ≡ arena.old.first }
        ensures paid { OnOk result (IsPaid steps.old self.old.script steps.new self.new.script) }
        ensures at_most { OnErr result (
            IsPaidOrOne steps.old self.old.script steps.new self.new.script) }
        ensures part { OnErr result (
            (c : Course)
            → HasRead c arena.old.slots self.old
            → old_size (op.now ∷ []) ≤ items_in c.spot.rest
            → IsPart c (acts_of (op.now ∷ []) []) self.new.script) }
    {
        match op {
            Op::Retain(count) => self.retain(arena, *count, steps),
            Op::Replace { removed, inserted } => {
                self.replace(arena, removed.as_slice().len(), inserted.as_slice(), steps)
            }
            Op::Attribute { .. } => Ok(()),
        }
    }

    /// Operations are made, from the first replace to the last.
    fn pass_ops<L: Ledger>(
        &mut self,
        arena: &mut Arena,
        ops: &[Op],
        steps: &mut Steps<L>,
    ) -> Result<(), Memory>
        requires reads { IsReading arena.old.slots self.old (old_size ops.now) (come_size ops.now) }
        ensures read { OnOk result (
            (c : Course)
            → HasRead c arena.old.slots self.old
            → old_size ops.now ≤ items_in c.spot.rest
            → AreDone ops.now c arena.new.slots self.new) }
        ensures made { MakesOn arena.old.slots self.old.script arena.new.slots self.new.script }
        ensures first { arena.new.first ≡ arena.old.first }
        ensures paid { OnOk result (IsPaid steps.old self.old.script steps.new self.new.script) }
        ensures at_most { OnErr result (
            IsPaidOrOne steps.old self.old.script steps.new self.new.script) }
        ensures part { OnErr result (
            (c : Course)
            → HasRead c arena.old.slots self.old
            → old_size ops.now ≤ items_in c.spot.rest
            → IsPart c (acts_of ops.now []) self.new.script) }
    {
        for op in ops {
            self.pass_op(arena, op, steps)?;
        }
        Ok(())
    }

    /// The operations from the first replace to the last, and then the rest of the text that they
    /// end in.
    pub(crate) fn read<L: Ledger>(
        &mut self,
        arena: &mut Arena,
        ops: &[Op],
        steps: &mut Steps<L>,
    ) -> Result<(), Memory>
        requires reads { IsReading arena.old.slots self.old (old_size ops.now) (come_size ops.now) }
        ensures read { OnOk result (
            (c : Course)
            → HasRead c arena.old.slots self.old
            → old_size ops.now ≤ items_in c.spot.rest
            → AreReadOut ops.now c arena.new.slots self.new) }
        ensures made { MakesOn arena.old.slots self.old.script arena.new.slots self.new.script }
        ensures first { arena.new.first ≡ arena.old.first }
        ensures paid { OnOk result (IsPaid steps.old self.old.script steps.new self.new.script) }
        ensures at_most { OnErr result (
            IsPaidOrOne steps.old self.old.script steps.new self.new.script) }
        ensures part { OnErr result (
            (c : Course)
            → HasRead c arena.old.slots self.old
            → old_size ops.now ≤ items_in c.spot.rest
            → IsPartOut ops.now c self.new.script) }
    {
        self.pass_ops(arena, ops, steps)?;
        self.rest_of_run(arena, steps)
    }
}
