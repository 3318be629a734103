// Samples: the pages that lines stand for.
use std::alloc::Global;
use std::test::Fail;
use ve_base::Memory;
use ve_items::Item;
use ve_kinds::Kind;
use ve_samples::{closing, letter, opening, pieces, sample};

/// Whether a line marks this position, and its page has these items.
fn spells(alloc: Global, line: &str, mark: Option<usize>, items: &[Item]) -> Result<bool, Memory> {
    let page = sample(alloc, line)?;
    Ok(page.offset == mark && page.list.blocks() == 1 && page.list.block(0) == items)
}

/// How many items a line without a page's end spells.
fn count_of(alloc: Global, line: &str) -> Result<usize, Memory> {
    Ok(pieces(alloc, line)?.as_slice().len())
}

/// A list item of one letter, and a leaf after its list.
const PAGE: &str = "<ul><li>a|</li></ul><alien_block>";

#[test]
fn a_line_spells_its_page(rt: HostRuntime) -> Result<(), Fail> {
    let items = [
        opening(Kind::Ul),
        opening(Kind::Li),
        letter('a'),
        closing(Kind::Li),
        closing(Kind::Ul),
        opening(Kind::AlienBlock),
        closing(Kind::AlienBlock),
        opening(Kind::InternalList),
        closing(Kind::InternalList),
    ];
    assert!(rt; spells(rt.alloc(), PAGE, Some(3), &items)?);
    assert!(rt; spells(rt.alloc(), "", None, &items[7..])?);
    assert_eq!(rt; count_of(rt.alloc(), "a<br>")?, 3);
    Ok(())
}
