// The modes, help, and words that are refused, by the whole program from a source to a sink in
// memory.
//
// The output for a generated script was worked out by a program in another language. The script
// came from the rule of its definition. The replies to few edits were found by hand (`ok 4002`, `no
// nothing_to_undo` and the page), and those to thirty edits by the program itself in mode `run` on
// that script. The digests of the replies came by its SHA-256.
use super::run_all;
use std::alloc::Global;
use std::marker::Brand;
use std::sync::ledger::Blank;
use std::test::Fail;
use ve_base::{Bytes, Calls, Cuts, MemSink, MemSource, Memory, Text};
use ve_session::Status;

/// As many bytes as a small script has, and more.
const ROOM: usize = 8192;

/// How the program ends where these words ask for it and no script comes, and what it writes.
#[derive(Clone, Copy)]
struct Case {
    words: &'static [&'static str],
    status: Status,
    /// The beginning and the end of the output, and how many bytes it has.
    begins: &'static [u8],
    ends: &'static [u8],
    len: usize,
}

const USAGE: &[u8] = b"usage: vemodel run | make | soak [--start N] [--edits N]\n";

const REFUSED: Case = Case {
    words: &[],
    status: Status::Usage,
    begins: USAGE,
    ends: b"",
    len: 57,
};

const CASES: [Case; 10] = [
    Case {
        words: &["soak", "--start", "0", "--edits", "0"],
        status: Status::Done,
        begins: b"lines 2\nok 2\nno 0\nsha256 9089894c34ca74cd913e38a3d5e1b98a67b781958975685ee9b3e851cd5c15e1\n",
        ends: b"",
        len: 90,
    },
    Case {
        words: &["soak", "--edits=1"],
        status: Status::Done,
        begins: b"lines 3\nok 2\nno 1\nsha256 0c26e253d131b0218a58c93d1a3512d8957fbf6eaac961c59af7147625a272ae\n",
        ends: b"",
        len: 90,
    },
    Case {
        words: &["soak", "--start", "2", "--edits", "30"],
        status: Status::Done,
        begins: b"lines 32\nok 32\nno 0\nsha256 8da60166c6e2d799431bfee7c393a263f69e44c97255e79d3ecbd4c48f6916ad\n",
        ends: b"",
        len: 92,
    },
    Case {
        words: &["make", "--edits", "0"],
        status: Status::Done,
        begins: b"{\"do\":\"open\",\"page\":\"<p>abcdefghijklmnopqr</p><p>bcdefghijklmnopqrs</p>",
        ends: b"<p>rstuvwxyzabcdefghi</p>\"}\n{\"do\":\"html\"}\n",
        len: 5038,
    },
    Case {
        words: &["make", "--start", "0", "--edits", "1"],
        status: Status::Done,
        begins: b"{\"do\":\"open\",\"page\":\"<p>abcdefghijklmnopqr</p><p>bcdefghijklmnopqrs</p>",
        ends: b"<p>rstuvwxyzabcdefghi</p>\"}\n{\"do\":\"undo\"}\n{\"do\":\"html\"}\n",
        len: 5052,
    },
    Case {
        words: &["make", "--edits", "100001"],
        ..REFUSED
    },
    Case {
        words: &["make", "--edits"],
        ..REFUSED
    },
    Case {
        words: &["walk"],
        ..REFUSED
    },
    Case {
        words: &["--help"],
        status: Status::Help,
        ..REFUSED
    },
    // the script is empty
    Case {
        words: &["run"],
        status: Status::Done,
        begins: b"",
        ends: b"",
        len: 0,
    },
];

fn words_of(alloc: Global, case: &Case) -> Result<Vec<Text>, Memory> {
    let mut words = Vec::new(alloc);
    for word in case.words {
        words.push(Text::from_str(alloc, word)?)?;
    }
    Ok(words)
}

fn is_as_said(rt: &HostRuntime, case: &Case) -> Result<bool, Memory> {
    let alloc = rt.alloc();
    let words = words_of(alloc, case)?;
    let mut source = MemSource::new(Bytes::new(alloc), Cuts::new(alloc), Calls::new(alloc));
    let mut room = [0u8; ROOM];
    let mut sink = MemSink::new(&mut room, Calls::new(alloc));
    let status = run_all::<Brand>(rt, Blank::new(1), words.as_slice(), &mut source, &mut sink);
    let written = sink.held();
    Ok(
        status == case.status
            && written.len() == case.len
            && written.starts_with(case.begins)
            && written.ends_with(case.ends),
    )
}

#[test]
fn each_mode_does_as_asked(rt: HostRuntime) -> Result<(), Fail> {
    for (number, case) in CASES.iter().enumerate() {
        assert!(rt; is_as_said(&rt, case)?, "case {number}");
    }
    Ok(())
}
