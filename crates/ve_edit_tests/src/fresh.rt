// A list without origins, as the standard's serializing writes it.
ghost use Rattle.std.specs.Prelude.{◌≡◌, [], true, IfOk};
ghost use Rattle.model_items.specs.Law.{Lawful};
ghost use Rattle.model_items.specs.Plain.{plain_list};
ghost use Rattle.model_page.specs.Editable.{all_refer};
ghost use Rattle.ve_write.specs.Siblings.{AllCite};

use std::alloc::Global;
use std::test::Fail;
use ve_base::{Bytes, Memory};
use ve_items::Linear;
use ve_kinds::Kind;
use ve_samples::{closing, letter, opening};
use ve_store::Store;
use ve_write::write_fresh;

/// A paragraph, and the internal list.
fn paragraph(alloc: Global) -> Result<Linear, Memory>
    ensures cites { IfOk result (λ list. AllCite [] list.items) }
    ensures refers { IfOk result (λ list. all_refer (plain_list [] list.items) ≡ true) }
    ensures lawful { IfOk result (λ list. Lawful (plain_list [] list.items)) }
{
    let mut list = Linear::new(alloc);
    list.extend(&[
        opening(Kind::P),
        letter('a'),
        closing(Kind::P),
        opening(Kind::InternalList),
        closing(Kind::InternalList),
    ])?;
    Ok(list)
}

fn put_paragraph(alloc: Global, out: &mut Bytes) -> Result<(), Memory> {
    let list = paragraph(alloc)?;
    let store = Store::new(alloc);
    write_fresh(alloc, &list, &store, out)
}

#[test]
fn a_paragraph_is_written(rt: HostRuntime) -> Result<(), Fail> {
    let mut out = Bytes::new(rt.alloc());
    put_paragraph(rt.alloc(), &mut out)?;
    assert!(rt; out.as_slice() == b"<p>a</p>".as_slice());
    Ok(())
}
