// A cell's spans, read from its attributes.
ghost use Rattle.std.specs.Prelude.{◌≡◌, ◌≤◌, Some};
ghost use Rattle.std.specs.Str.{chars};
ghost use Rattle.ve_base.specs.Limits.{max_row_span};
ghost use Rattle.model_change.specs.Attributes.{value_of};
ghost use Rattle.model_edit.specs.Grid.{number_after, span_by, span_in};

use ve_base::Attr;

/// The number that digits stand for, which may begin with 0; 1 where it is over `most`, or another
/// character stands among them.
fn number_of(text: &str, most: usize) -> usize
    requires { most ≤ max_row_span }
    ensures { result ≡ span_by most (number_after 0 (chars text.now)) }
{
    let mut number = 0;
    for ch in text.chars() {
        if ch < '0' || '9' < ch {
            return 1;
        }
        number = number * 10 + (ch as usize - 48);
        if most < number {
            return 1;
        }
    }
    number
}

/// The span that a text stands for: a number without a leading zero, up to `most`; any other text
/// is 1.
fn spelled_span(text: &str, most: usize) -> usize
    requires { most ≤ max_row_span }
    ensures { result ≡ span_in most (Some (chars text.now)) }
{
    match text.chars().next() {
        None => 1,
        Some('0') => 1,
        Some(_) => number_of(text, most),
    }
}

/// The span that the attribute of a name gives: a number from 1 to `most`. It is 1 where there is
/// no such attribute, or where its text is no such number without a leading zero.
pub fn span_of(attrs: &[Attr], name: &str, most: usize) -> usize
    requires some { 1 ≤ most }
    requires few { most ≤ max_row_span }
    ensures means { result ≡ span_in most (value_of (chars name.now) attrs.now) }
    ensures least { 1 ≤ result }
    ensures most { result ≤ most }
{
    for attr in attrs {
        if attr.name.is(name) {
            return spelled_span(attr.value.as_str(), most);
        }
    }
    1
}
