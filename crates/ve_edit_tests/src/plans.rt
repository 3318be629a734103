// Facts that neither a clause nor a script says: that plans are copied where there is memory, and
// what refusals print.
use model_edit::{BuildFault, Kinds, Shape, Shapes, TableFault};
use std::alloc::Global;
use std::fmt::Display;
use std::test::Fail;
use ve_base::{Attrs, Memory, TryCopy};
use ve_kinds::Kind;

/// How many kinds a copy of one kind has.
fn copied_kinds(alloc: Global) -> Result<usize, Memory> {
    let mut kinds = Kinds::new(alloc);
    kinds.push(Kind::Ul)?;
    Ok(kinds.copy(alloc)?.as_slice().len())
}

/// How many shapes a copy of one shape has.
fn copied_shapes(alloc: Global) -> Result<usize, Memory> {
    let mut shapes = Shapes::new(alloc);
    shapes.push(Shape {
        kind: Kind::Li,
        attrs: Attrs::new(alloc),
    })?;
    Ok(shapes.copy(alloc)?.as_slice().len())
}

/// Whether what a refusal prints is this.
fn prints(alloc: Global, refusal: &impl Display, text: &str) -> Result<bool, Memory> {
    let printed = format!(in alloc; "{}", *refusal)?;
    Ok(printed.as_str() == text)
}

#[test]
fn plans_are_copied_and_refusals_print(rt: HostRuntime) -> Result<(), Fail> {
    let alloc = rt.alloc();
    assert_eq!(rt; copied_kinds(alloc)?, 1);
    assert_eq!(rt; copied_shapes(alloc)?, 1);
    let range = BuildFault::BadRange { from: 3, to: 2 };
    assert!(rt; prints(alloc, &range, "3 to 2 is no range for it")?);
    let row = TableFault::BadRow { row: 5, rows: 2 };
    assert!(rt; prints(alloc, &row, "there is no row 5 of 2")?);
    Ok(())
}
