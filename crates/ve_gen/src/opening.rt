// The line that opens the page, and the one that asks for it.
ghost use Rattle.std.specs.Prelude.{◌≡◌, ◌++◌, ◌<◌, OnOk};
ghost use Rattle.ve_gen.specs.Generated.{html_line, letters, open_line, page, paragraph};

use ve_base::{Bytes, Memory};

const PARAGRAPHS: u32 = 200;

const LETTERS: u32 = 18;

/// Appends the letters of a paragraph, which goes on in the alphabet from its own number.
fn push_letters(paragraph: u32, out: &mut Bytes) -> Result<(), Memory>
    requires { paragraph < 200 }
    ensures { OnOk result (out.new ≡ out.old ++ letters paragraph) }
{
    for letter in 0..LETTERS {
        out.push_byte(b'a' + ((paragraph + letter) % 26) as u8)?;
    }
    Ok(())
}

fn push_paragraph(number: u32, out: &mut Bytes) -> Result<(), Memory>
    requires { number < 200 }
    ensures { OnOk result (out.new ≡ out.old ++ paragraph number) }
{
    out.push(b"<p>")?;
    push_letters(number, out)?;
    out.push(b"</p>")
}

fn push_page(out: &mut Bytes) -> Result<(), Memory>
    ensures { OnOk result (out.new ≡ out.old ++ page) }
{
    for number in 0..PARAGRAPHS {
        push_paragraph(number, out)?;
    }
    Ok(())
}

/// Appends the line that opens the page.
pub fn push_open(out: &mut Bytes) -> Result<(), Memory>
    ensures { OnOk result (out.new ≡ out.old ++ open_line) }
{
    out.push(b"{\"do\":\"open\",\"page\":\"")?;
    push_page(out)?;
    out.push(b"\"}")
}

/// Appends the line that asks for the page.
pub fn push_html(out: &mut Bytes) -> Result<(), Memory>
    ensures { OnOk result (out.new ≡ out.old ++ html_line) }
{
    out.push(b"{\"do\":\"html\"}")
}
