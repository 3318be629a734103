// Facts that neither a clause nor a script says: that `intern` succeeds where there is memory, and
// what a fault prints.
use std::alloc::Global;
use std::test::Fail;
use ve_base::{Memory, Text, Value, ValueId};
use ve_store::{Store, StoreFault};

fn white(alloc: Global, text: &str) -> Result<Value, Memory> {
    Ok(Value::White(Text::from_str(alloc, text)?))
}

/// Whether a store gives this number to a whitespace.
fn is_numbered(
    alloc: Global,
    store: &mut Store,
    text: &str,
    number: usize,
) -> Result<bool, Memory> {
    Ok(store.intern(white(alloc, text)?) == Ok(ValueId(number)))
}

/// Whether a value is stored once.
fn is_stored_once(alloc: Global) -> Result<bool, Memory> {
    let mut store = Store::new(alloc);
    Ok(
        is_numbered(alloc, &mut store, " ", 0)?
            && is_numbered(alloc, &mut store, "\n", 1)?
            && is_numbered(alloc, &mut store, " ", 0)?,
    )
}

/// Whether what a fault prints is this.
fn prints(alloc: Global, fault: &StoreFault, text: &str) -> Result<bool, Memory> {
    let printed = format!(in alloc; "{}", *fault)?;
    Ok(printed.as_str() == text)
}

#[test]
fn values_are_stored_once(rt: HostRuntime) -> Result<(), Fail> {
    let alloc = rt.alloc();
    assert!(rt; is_stored_once(alloc)?);
    assert!(rt; prints(alloc, &StoreFault::Full, "the store is full")?);
    assert!(rt; prints(alloc, &StoreFault::Memory, "out of memory")?);
    Ok(())
}
