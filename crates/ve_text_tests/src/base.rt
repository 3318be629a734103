// Facts that neither a clause nor a script says. What the fakes hold is copied where there is
// memory, and a sink which never fails writes no more than it says. Also how large a count is, and
// what errors print.
use std::alloc::Global;
use std::fmt::Display;
use std::marker::Brand;
use std::test::Fail;
use ve_base::{Bytes, Calls, Cuts, Failed, Memory, NeverSink, Same, Sink, Steps, TryCopy};

/// Whether a copy of five bytes equals them.
fn bytes_are_copied(alloc: Global) -> Result<bool, Memory> {
    let mut bytes = Bytes::new(alloc);
    bytes.push(b"abcd")?;
    bytes.push_byte(b'e')?;
    Ok(bytes.copy(alloc)?.same(&bytes))
}

/// Whether a copy of a first piece of two bytes equals it.
fn cuts_are_copied(alloc: Global) -> Result<bool, Memory> {
    let mut cuts = Cuts::new(alloc);
    cuts.push(2)?;
    Ok(cuts.copy(alloc)?.same(&cuts))
}

/// Whether a copy of a second call's failing equals it.
fn calls_are_copied(alloc: Global) -> Result<bool, Memory> {
    let mut calls = Calls::new(alloc);
    calls.push(1)?;
    Ok(calls.copy(alloc)?.same(&calls))
}

/// Whether two bytes are written into room for four, and the others stay.
fn is_written() -> bool {
    let mut room = [7u8; 4];
    let written = {
        let mut sink = NeverSink::new(&mut room);
        sink.write(b"ab")
    };
    written == Ok(2) && room == [b'a', b'b', 7, 7]
}

/// Whether what an error prints is this.
fn prints(alloc: Global, error: &impl Display, text: &str) -> Result<bool, Memory> {
    let printed = format!(in alloc; "{}", *error)?;
    Ok(printed.as_str() == text)
}

#[test]
fn fakes_counts_and_errors(rt: HostRuntime) -> Result<(), Fail> {
    let alloc = rt.alloc();
    assert!(rt; bytes_are_copied(alloc)?);
    assert!(rt; cuts_are_copied(alloc)?);
    assert!(rt; calls_are_copied(alloc)?);
    assert!(rt; is_written());
    assert_eq!(rt; size_of::<Steps<Brand>>(), 0);
    assert!(rt; prints(alloc, &Memory, "out of memory")?);
    assert!(rt; prints(alloc, &Failed, "a read or a write failed")?);
    Ok(())
}
