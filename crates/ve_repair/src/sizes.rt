// The lengths that a change gives to nodes.
ghost use Rattle.std.specs.Prelude.{◌≡◌, ◌<◌, ◌^◌, ◌++◌, [], OnOk};
ghost use Rattle.ve_arena.specs.Arena.{IsLive};
ghost use Rattle.ve_repair.specs.Sizing.{with_level, started, entered, left, sized, sized_all, resize_of, end_writes, left_writes, size_writes, sizes_writes, open_writes, passed, counted};
ghost use Rattle.ve_repair.specs.Sizing.{AllOpenLive, StepIsLive, StepsAreLive, PlacesFit, LengthsFit};

use crate::script::{How, Step};
use crate::stack::Stack;
use crate::write::Write;
use std::alloc::Global;
use std::marker::Model;
use ve_arena::{Arena, NodeId};
use ve_base::Memory;

/// An open node, and the position of its list where it begins.
#[derive(Clone, Copy, Drop)]
pub struct OpenFrom {
    pub node: NodeId,
    pub from: usize,
}

/// The open nodes of both lists, and both positions.
#[derive(Drop)]
pub(crate) struct Sizes {
    old_open: Stack<OpenFrom>,
    new_open: Stack<OpenFrom>,
    old_at: usize,
    new_at: usize,
}

impl Model for Sizes {
    ghost use Rattle.ve_repair.specs.Sizing.{Sizing};

    ghost Value = { Sizing };

    ghost view = { λ s. record { old_open = s.old_open; new_open = s.new_open; old_at = s.old_at; new_at = s.new_at } };
}

/// The node takes so many items: a write, where it has another length.
fn resize(arena: &Arena, n: NodeId, len: usize, writes: &mut Vec<Write>) -> Result<(), Memory>
    requires { IsLive arena.now.slots n }
    ensures { OnOk result (writes.new.items ≡ writes.old.items ++ resize_of arena.now.slots n len) }
{
    if arena.node(n).len != len {
        writes.push(Write::Resize { n, len })?;
    }
    Ok(())
}

/// The innermost open node ends at a position.
fn end_at(
    arena: &Arena,
    levels: &Stack<OpenFrom>,
    at: usize,
    writes: &mut Vec<Write>,
) -> Result<(), Memory>
    requires { AllOpenLive arena.now.slots levels.now }
    ensures { OnOk result (
        writes.new.items ≡ writes.old.items ++ end_writes arena.now.slots levels.now at) }
{
    match levels.top() {
        Some(level) => resize(arena, level.node, at.saturating_sub(level.from), writes),
        None => Ok(()),
    }
}

impl Sizes {
    /// Nothing is open, and both lists are at their start. It takes no memory.
    pub(crate) fn new(alloc: Global) -> Sizes
        ensures old { result.old_open ≡ [] }
        ensures new { result.new_open ≡ [] }
    {
        Sizes {
            old_open: Stack::new(alloc),
            new_open: Stack::new(alloc),
            old_at: 0,
            new_at: 0,
        }
    }

    /// Both lists are at a position.
    pub(crate) fn start(&mut self, place: usize)
        ensures { self.new ≡ started place self.old }
    {
        self.old_at = place;
        self.new_at = place;
    }

    /// A node that is open in both lists where the changed range begins, inside those that are open
    /// already.
    pub(crate) fn begin(&mut self, level: OpenFrom) -> Result<(), Memory>
        ensures { OnOk result (self.new ≡ with_level level self.old) }
    {
        self.old_open.push(level)?;
        self.new_open.push(level)
    }

    fn enter_old(&mut self, n: NodeId) -> Result<(), Memory>
        requires { PlacesFit (entered How.Cut n self.old) }
        ensures { OnOk result (self.new ≡ entered How.Cut n self.old) }
    {
        self.old_open.push(OpenFrom {
            node: n,
            from: self.old_at,
        })?;
        self.old_at += 1;
        Ok(())
    }

    fn enter_new(&mut self, n: NodeId) -> Result<(), Memory>
        requires { PlacesFit (entered How.Put n self.old) }
        ensures { OnOk result (self.new ≡ entered How.Put n self.old) }
    {
        self.new_open.push(OpenFrom {
            node: n,
            from: self.new_at,
        })?;
        self.new_at += 1;
        Ok(())
    }

    fn enter(&mut self, how: How, n: NodeId) -> Result<(), Memory>
        requires { PlacesFit (entered how n self.old) }
        ensures { OnOk result (self.new ≡ entered how n self.old) }
    {
        match how {
            How::Keep => {
                self.enter_old(n)?;
                self.enter_new(n)
            }
            How::Cut => self.enter_old(n),
            How::Put => self.enter_new(n),
        }
    }

    fn leave_old(&mut self)
        requires { PlacesFit (left How.Cut self.old) }
        ensures { self.new ≡ left How.Cut self.old }
    {
        self.old_open.pop();
        self.old_at += 1;
    }

    fn leave_new(&mut self, arena: &Arena, writes: &mut Vec<Write>) -> Result<(), Memory>
        requires live { AllOpenLive arena.now.slots self.old.new_open }
        requires fits { PlacesFit (left How.Put self.old) }
        ensures sizes { OnOk result (self.new ≡ left How.Put self.old) }
        ensures writes { OnOk result (
            writes.new.items ≡ writes.old.items ++ left_writes arena.now.slots How.Put self.old) }
    {
        self.new_at += 1;
        end_at(arena, &self.new_open, self.new_at, writes)?;
        self.new_open.pop();
        Ok(())
    }

    fn leave(&mut self, arena: &Arena, how: How, writes: &mut Vec<Write>) -> Result<(), Memory>
        requires live { AllOpenLive arena.now.slots self.old.new_open }
        requires fits { PlacesFit (left how self.old) }
        ensures sizes { OnOk result (self.new ≡ left how self.old) }
        ensures writes { OnOk result (
            writes.new.items ≡ writes.old.items ++ left_writes arena.now.slots how self.old) }
    {
        match how {
            How::Keep => {
                self.leave_old();
                self.leave_new(arena, writes)
            }
            How::Cut => {
                self.leave_old();
                Ok(())
            }
            How::Put => self.leave_new(arena, writes),
        }
    }

    fn pass(&mut self, how: How, count: usize)
        requires { PlacesFit (passed how count self.old) }
        ensures { self.new ≡ passed how count self.old }
    {
        match how {
            How::Keep | How::Cut => self.old_at += count,
            How::Put => {}
        }
    }

    fn count(&mut self, count: usize)
        requires { PlacesFit (counted count self.old) }
        ensures { self.new ≡ counted count self.old }
    {
        self.new_at += count;
    }
}

impl Sizes {
    fn step(&mut self, arena: &Arena, step: Step, writes: &mut Vec<Write>) -> Result<(), Memory>
        requires live { AllOpenLive arena.now.slots self.old.new_open }
        requires named { StepIsLive arena.now.slots step }
        requires fits { PlacesFit (sized arena.now.slots step self.old) }
        ensures sizes { OnOk result (self.new ≡ sized arena.now.slots step self.old) }
        ensures writes { OnOk result (
            writes.new.items ≡ writes.old.items ++ size_writes arena.now.slots step self.old) }
    {
        match step {
            Step::Enter { how, n } => self.enter(how, n),
            Step::Leave { how } => self.leave(arena, how, writes),
            Step::Text { how, n } => {
                self.pass(how, arena.node(n).len);
                Ok(())
            }
            Step::Count { n, count } => {
                self.count(count);
                resize(arena, n, count, writes)
            }
        }
    }

    /// A whole script.
    pub(crate) fn run(
        &mut self,
        arena: &Arena,
        script: &[Step],
        writes: &mut Vec<Write>,
    ) -> Result<(), Memory>
        requires live { AllOpenLive arena.now.slots self.old.new_open }
        requires named { StepsAreLive arena.now.slots script.now }
        requires fits { PlacesFit (sized_all arena.now.slots script.now self.old) }
        ensures sizes { OnOk result (self.new ≡ sized_all arena.now.slots script.now self.old) }
        ensures writes { OnOk result (
            writes.new.items
            ≡ writes.old.items ++ sizes_writes arena.now.slots script.now self.old) }
    {
        for step in script {
            self.step(arena, *step, writes)?;
        }
        Ok(())
    }

    /// Notes the lengths of the nodes that are open at the end of the range, innermost first: the
    /// rest of the old list is as long as before.
    pub(crate) fn close(&mut self, arena: &Arena, writes: &mut Vec<Write>) -> Result<(), Memory>
        requires old { AllOpenLive arena.now.slots self.old.old_open }
        requires new { AllOpenLive arena.now.slots self.old.new_open }
        requires fits { LengthsFit arena.now.slots self.old.old_open self.old.new_at }
        ensures { OnOk result (
            writes.new.items
            ≡ writes.old.items
            ++ open_writes arena.now.slots self.old.old_open self.old.new_open self.old.old_at
            self.old.new_at) }
    {
        while let Some(outer) = self.old_open.top() {
            let Some(begun) = self.new_open.top() else {
                return Ok(());
            };
            let follows = arena
                .node(outer.node)
                .len
                .saturating_sub(self.old_at.saturating_sub(outer.from));
            let len = self.new_at.saturating_sub(begun.from) + follows;
            resize(arena, begun.node, len, writes)?;
            self.old_open.pop();
            self.new_open.pop();
        }
        Ok(())
    }
}
