// Facts that no clause says: how large an item is, and how full blocks are.
use std::alloc::Global;
use std::mem::size_of;
use std::test::Fail;
use ve_base::Memory;
use ve_items::{Item, Items, Linear};
use ve_samples::letter;

/// So many letters.
fn letters(alloc: Global, many: usize) -> Result<Items, Memory> {
    let mut items = Items::new(alloc);
    for _ in 0..many {
        items.push(letter('x'))?;
    }
    Ok(items)
}

/// How many blocks a list has, and how many items the first has.
fn first_of(list: &Linear) -> (usize, usize) {
    if list.blocks() == 0 {
        (0, 0)
    } else {
        (list.blocks(), list.block(0).len())
    }
}

/// Puts so many letters into a list at a position, or at its end.
fn put(alloc: Global, list: &mut Linear, at: usize, many: usize) -> Result<(), Memory> {
    let items = letters(alloc, many)?;
    let at = at.min(list.len());
    list.splice(at, 0, items.as_slice())
}

/// The answer of `first_of` for a list into which so many letters are put at its beginning, and
/// then so many at a position.
fn after_two(
    alloc: Global,
    first: usize,
    at: usize,
    more: usize,
) -> Result<(usize, usize), Memory> {
    let mut list = Linear::new(alloc);
    put(alloc, &mut list, 0, first)?;
    put(alloc, &mut list, at, more)?;
    Ok(first_of(&list))
}

/// How many letters there are at first, where more come, how many, and then the blocks and, where
/// it is said, the items of the first.
const CASES: [(usize, usize, usize, usize, Option<usize>); 5] = [
    (0, 0, 0, 0, None),
    // a block has at most 512 items
    (512, 0, 0, 1, Some(512)),
    (512, 512, 1, 2, None),
    // many that come at once leave room in each block
    (640, 0, 0, 2, Some(448)),
    (640, 0, 64, 2, Some(512)),
];

#[test]
fn blocks_have_room(rt: HostRuntime) -> Result<(), Fail> {
    assert!(rt; size_of::<Item>() <= 64);
    for (first, at, more, blocks, items) in CASES {
        let (found, in_first) = after_two(rt.alloc(), first, at, more)?;
        assert!(rt;
            found == blocks && items.unwrap_or(in_first) == in_first,
            "{first} and {more}"
        );
    }
    Ok(())
}

/// How many letters two lists have that share their blocks, after each has been written.
fn written_apart(alloc: Global) -> Result<(usize, usize), Memory> {
    let mut list = Linear::new(alloc);
    put(alloc, &mut list, 0, 640)?;
    let mut other = list.share(alloc)?;
    put(alloc, &mut other, 10, 5)?;
    list.splice(0, list.len().min(100), &[])?;
    Ok((list.len(), other.len()))
}

#[test]
fn shared_blocks_are_written_apart(rt: HostRuntime) -> Result<(), Fail> {
    assert!(rt; written_apart(rt.alloc())? == (540, 645));
    Ok(())
}
