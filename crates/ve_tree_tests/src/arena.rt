// What no clause says: when a number that was freed is given out again. And a trial that is taken
// back.
ghost use Rattle.std.specs.Prelude.{◌≡◌};

use std::marker::Brand;
use std::sync::ledger::{Blank, Ledger};
use std::test::Fail;
use ve_arena::{Arena, NodeWhat};
use ve_base::{Memory, Steps};
use ve_kinds::Kind;

/// Whether the number of a node that was freed is that of the next node.
fn is_given_again<L: Ledger>(rt: &HostRuntime, blank: Blank) -> Result<bool, Memory>
    requires name { blank.name ≡ L.name }
    requires parts { blank.parts ≡ L.parts }
    requires one { blank.parts ≡ 1 }
{
    let mut steps = Steps::<L>::start(rt, blank);
    let mut arena = Arena::new(rt.alloc());
    let first = arena.make(NodeWhat::Run, &mut steps)?;
    arena.free(first, &mut steps);
    let later = arena.make(NodeWhat::Run, &mut steps)?;
    Ok(later == first)
}

#[test]
fn a_freed_number_is_given_out_again(rt: HostRuntime) -> Result<(), Fail> {
    assert!(rt; is_given_again::<Brand>(&rt, Blank::new(1))?);
    Ok(())
}

/// Whether a number that a trial frees is given out again, but not before the trial ends.
fn is_given_after_trial<L: Ledger>(rt: &HostRuntime, blank: Blank) -> Result<bool, Memory>
    requires name { blank.name ≡ L.name }
    requires parts { blank.parts ≡ L.parts }
    requires one { blank.parts ≡ 1 }
{
    let mut steps = Steps::<L>::start(rt, blank);
    let mut arena = Arena::new(rt.alloc());
    let first = arena.make(NodeWhat::Run, &mut steps)?;
    arena.begin()?;
    arena.free(first, &mut steps);
    let second = arena.make(NodeWhat::Run, &mut steps)?;
    arena.keep();
    let third = arena.make(NodeWhat::Run, &mut steps)?;
    Ok(second != first && third == first)
}

#[test]
fn a_trial_frees_its_numbers_at_its_end(rt: HostRuntime) -> Result<(), Fail> {
    assert!(rt; is_given_after_trial::<Brand>(&rt, Blank::new(1))?);
    Ok(())
}

/// Whether a trial that frees a node, makes one and writes one is taken back.
fn is_taken_back<L: Ledger>(rt: &HostRuntime, blank: Blank) -> Result<bool, Memory>
    requires name { blank.name ≡ L.name }
    requires parts { blank.parts ≡ L.parts }
    requires one { blank.parts ≡ 1 }
{
    let mut steps = Steps::<L>::start(rt, blank);
    let mut arena = Arena::new(rt.alloc());
    let first = arena.make(NodeWhat::Run, &mut steps)?;
    let second = arena.make(NodeWhat::Node(Kind::P), &mut steps)?;
    arena.set_len(second, 2, &mut steps);
    arena.begin()?;
    arena.free(first, &mut steps);
    let third = arena.make(NodeWhat::Run, &mut steps)?;
    arena.set_len(second, 5, &mut steps);
    arena.take_back();
    let fourth = arena.make(NodeWhat::Run, &mut steps)?;
    Ok(arena.node(first).what == NodeWhat::Run && arena.node(second).len == 2 && fourth == third)
}

#[test]
fn a_trial_is_taken_back(rt: HostRuntime) -> Result<(), Fail> {
    assert!(rt; is_taken_back::<Brand>(&rt, Blank::new(1))?);
    Ok(())
}
