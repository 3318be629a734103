// The steps of "escaping a string" in WHATWG HTML, one by one and together.
use std::alloc::Global;
use std::test::Fail;
use ve_base::{Bytes, Memory};
use ve_html_write::put_text;

/// Texts, and how they are written.
const TEXTS: [(&str, &str); 8] = [
    ("", ""),
    ("&", "&amp;"),
    ("\u{a0}", "&nbsp;"),
    ("<", "&lt;"),
    (">", "&gt;"),
    ("\"'", "\"'"),
    ("é\u{a1}à", "é\u{a1}à"),
    ("a\u{a0}\u{a0}<b>&lt;", "a&nbsp;&nbsp;&lt;b&gt;&amp;lt;"),
];

fn is_written(alloc: Global, text: &str, written: &str) -> Result<bool, Memory> {
    let mut out = Bytes::new(alloc);
    put_text(alloc, &mut out, text)?;
    Ok(out.as_slice() == written.as_bytes())
}

#[test]
fn texts_are_escaped(rt: HostRuntime) -> Result<(), Fail> {
    for (text, written) in TEXTS {
        assert!(rt; is_written(rt.alloc(), text, written)?, "{text}");
    }
    Ok(())
}
