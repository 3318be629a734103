// Scripts of megabytes, from a source in memory to a sink in memory: lines, pages, lists and
// scripts at their limits and just past them. All shorter scripts are one, the stored run (`stdin`,
// `stdout`). The replies were worked out by hand from what the commands mean. `rt try --test`,
// which checks each step as it runs, takes longer over some of them than it gives a test.
ghost use Rattle.std.specs.Prelude.{◌≡◌};

mod modes;

use std::marker::Brand;
use std::sync::ledger::{Blank, Ledger};
use std::test::Fail;
use ve_base::{Bytes, Calls, Cuts, MemSink, MemSource, Memory, Steps, Text};
use ve_session::{Status, run_program};

/// How many bytes a script's replies have at most.
const ROOM: usize = 4096;

/// A script whose lines are made of texts, each as many times as it says, and how the run ends.
#[derive(Clone, Copy)]
struct Long {
    name: &'static str,
    /// The text of each line, in pieces, and the reply to it; no text where there is none.
    lines: &'static [(&'static [(&'static str, usize)], &'static str)],
    status: Status,
}

/// Runs the program, from its words on. It alone owns the steps.
fn run_all<L: Ledger>(
    rt: &HostRuntime,
    blank: Blank,
    words: &[Text],
    source: &mut MemSource,
    sink: &mut MemSink<'_>,
) -> Status
    requires name { blank.name ≡ L.name }
    requires parts { blank.parts ≡ L.parts }
    requires one { blank.parts ≡ 1 }
{
    let alloc = rt.alloc();
    let mut steps: Steps<L> = Steps::start(rt, blank);
    run_program(alloc, words, source, sink, &mut steps)
}

/// How a script ends, and what it writes.
fn ran(rt: &HostRuntime, script: Bytes) -> Result<(Status, Bytes), Memory> {
    let alloc = rt.alloc();
    let words = [Text::from_str(alloc, "run")?];
    let mut source = MemSource::new(script, Cuts::new(alloc), Calls::new(alloc));
    let mut room = [0u8; ROOM];
    let mut sink = MemSink::new(&mut room, Calls::new(alloc));
    let status = run_all::<Brand>(rt, Blank::new(1), &words, &mut source, &mut sink);
    let mut written = Bytes::new(alloc);
    written.push(sink.held())?;
    Ok((status, written))
}

/// Whether a script ends so, and writes just these replies.
fn wrote(rt: &HostRuntime, script: Bytes, status: Status, replies: &Bytes) -> Result<bool, Memory> {
    let (ended, written) = ran(rt, script)?;
    Ok(ended == status && written.as_slice() == replies.as_slice())
}

fn push_times(script: &mut Bytes, text: &str, times: usize) -> Result<(), Memory> {
    for _ in 0..times {
        script.push(text.as_bytes())?;
    }
    Ok(())
}

fn push_reply(replies: &mut Bytes, reply: &str) -> Result<(), Memory> {
    if !reply.is_empty() {
        replies.push(reply.as_bytes())?;
        replies.push(b"\n")?;
    }
    Ok(())
}

fn is_answered(rt: &HostRuntime, case: &Long) -> Result<bool, Memory> {
    let alloc = rt.alloc();
    let mut script = Bytes::new(alloc);
    let mut replies = Bytes::new(alloc);
    for (parts, reply) in case.lines {
        for (text, times) in *parts {
            push_times(&mut script, text, *times)?;
        }
        script.push(b"\n")?;
        push_reply(&mut replies, reply)?;
    }
    wrote(rt, script, case.status, &replies)
}

/// The name of the first case that is answered otherwise.
fn first_wrong(rt: &HostRuntime, cases: &[Long]) -> Result<Option<&'static str>, Memory> {
    for case in cases {
        if !is_answered(rt, case)? {
            return Ok(Some(case.name));
        }
    }
    Ok(None)
}

/// A line of 8,388,608 bytes, and one of a byte more; a page of 4,194,304 bytes, and one of a byte
/// more; the most changes of a batch.
const LINES: [Long; 3] = [
    Long {
        name: "a line that is too long",
        lines: &[
            (&[(r#"{"do":"open","page":"<p>a</p>"}"#, 1)], "ok 5"),
            (
                &[(r#"{"do":"html","x":""#, 1), ("x", 8_388_588), (r#""}"#, 1)],
                r#"ok "<p>a</p>""#,
            ),
            (
                &[(r#"{"do":"html","x":""#, 1), ("x", 8_388_589), (r#""}"#, 1)],
                "no line_too_long 8388609",
            ),
            (&[(r#"{"do":"html"}"#, 1)], r#"ok "<p>a</p>""#),
        ],
        status: Status::Done,
    },
    Long {
        name: "a page that is too long",
        lines: &[
            (
                &[
                    (r#"{"do":"open","page":"<!--"#, 1),
                    ("a", 4_194_297),
                    (r#"-->"}"#, 1),
                ],
                "ok 4",
            ),
            (
                &[
                    (r#"{"do":"open","page":"<!--"#, 1),
                    ("a", 4_194_298),
                    (r#"-->"}"#, 1),
                ],
                "no page_too_long 4194305",
            ),
            (
                &[
                    (r#"{"do":"open","page":""#, 1),
                    ("a", 4_194_305),
                    (r#""}"#, 1),
                ],
                "no page_too_long 4194305",
            ),
            (
                &[(r#"{"do":"tree"}"#, 1)],
                "ok (root (alien_block) (internal_list))",
            ),
        ],
        status: Status::Done,
    },
    Long {
        name: "a batch of none, of 1,001 and of 1,000",
        lines: &[
            (&[(r#"{"do":"open","page":"<p></p>"}"#, 1)], "ok 4"),
            (&[(r#"{"do":"batch","cmds":[]}"#, 1)], "no bad_command cmds"),
            (
                &[
                    (r#"{"do":"batch","cmds":["#, 1),
                    (r#"{"do":"text","at":1,"text":"a"},"#, 1_000),
                    (r#"{"do":"text","at":1,"text":"a"}]}"#, 1),
                ],
                "no bad_command cmds",
            ),
            (
                &[
                    (r#"{"do":"batch","cmds":["#, 1),
                    (r#"{"do":"text","at":1,"text":"a"},"#, 999),
                    (r#"{"do":"text","at":1,"text":"a"}]}"#, 1),
                ],
                "ok 1004",
            ),
            (&[(r#"{"do":"undo"}"#, 1)], "ok 4"),
            (&[(r#"{"do":"undo"}"#, 1)], "no nothing_to_undo"),
        ],
        status: Status::Done,
    },
];

#[test]
fn long_lines_and_pages_are_refused(rt: HostRuntime) -> Result<(), Fail> {
    assert_eq!(rt; first_wrong(&rt, &LINES)?, None);
    Ok(())
}

/// A list of 4,194,304 items, and one of an item more: by an edit, and in a page of the greatest
/// length.
const FULL: [Long; 2] = [
    Long {
        name: "a list that is full",
        lines: &[
            (
                &[
                    (r#"{"do":"open","page":""#, 1),
                    ("a<hr>", 838_860),
                    (r#""}"#, 1),
                ],
                "ok 4194302",
            ),
            (&[(r#"{"do":"text","at":1,"text":"ab"}"#, 1)], "ok 4194304"),
            (
                &[(r#"{"do":"text","at":1,"text":"x"}"#, 1)],
                "no too_many_items 4194305",
            ),
            (&[(r#"{"do":"at","at":1}"#, 1)], "ok p 0 5 content"),
        ],
        status: Status::Done,
    },
    Long {
        name: "a page of too many items",
        lines: &[
            (&[(r#"{"do":"open","page":"<p>a</p>"}"#, 1)], "ok 5"),
            (
                &[
                    (r#"{"do":"open","page":""#, 1),
                    ("a<hr>", 838_860),
                    (r#"aaaa"}"#, 1),
                ],
                "no too_many_items 4194308",
            ),
            (&[(r#"{"do":"html"}"#, 1)], r#"ok "<p>a</p>""#),
        ],
        status: Status::Done,
    },
];

#[test]
fn a_list_is_full(rt: HostRuntime) -> Result<(), Fail> {
    assert_eq!(rt; first_wrong(&rt, &FULL)?, None);
    Ok(())
}

/// 64 letters.
const LETTERS: &str = "xxxxxxxxxxxxxxxxxxxxxxxxxxxxxxxxxxxxxxxxxxxxxxxxxxxxxxxxxxxxxxxx";

/// A script of 67,108,864 bytes in one line, and one of a byte more.
const GREATEST: [Long; 2] = [
    Long {
        name: "a script that is one line",
        lines: &[(
            &[(LETTERS, 1_048_575), ("x", 63)],
            "no line_too_long 67108863",
        )],
        status: Status::Done,
    },
    Long {
        name: "a script that is too long",
        lines: &[(&[(LETTERS, 1_048_576)], "")],
        status: Status::InputTooLong,
    },
];

#[test]
fn scripts_may_be_so_long(rt: HostRuntime) -> Result<(), Fail> {
    assert_eq!(rt; first_wrong(&rt, &GREATEST)?, None);
    Ok(())
}
