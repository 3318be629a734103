// Draws, and the lines of edits.
ghost use Rattle.std.specs.Prelude.{◌≡◌, ◌++◌, ◌+◌, ◌<◌, ◌≤◌, ◌^◌, decimal, OnOk};
ghost use Rattle.ve_gen.specs.Generated.{drawn, edit_line, line_of, mark_line, next_state, remove_line, split_line, state_after_edit, text_line};

use ve_base::{Bytes, Memory};

/// Takes the next state, and gives its first 31 bits.
fn draw(state: &mut u64) -> u64
    ensures state { state.new ≡ next_state state.old }
    ensures drawn { result ≡ drawn state.new }
    ensures bound { result < 2 ^ 31 }
{
    *state = state
        .wrapping_mul(6_364_136_223_846_793_005)
        .wrapping_add(1_442_695_040_888_963_407);
    *state / (1 << 33)
}

/// Appends the decimal digits of a number.
fn push_decimal(number: u64, out: &mut Bytes) -> Result<(), Memory>
    ensures { OnOk result (out.new ≡ out.old ++ decimal number) }
{
    if number >= 10 {
        push_decimal(number / 10, out)?;
    }
    out.push_byte(b'0' + (number % 10) as u8)
}

fn push_text(at: u64, out: &mut Bytes) -> Result<(), Memory>
    ensures { OnOk result (out.new ≡ out.old ++ text_line at) }
{
    out.push(b"{\"at\":")?;
    push_decimal(at, out)?;
    out.push(b",\"do\":\"text\",\"text\":\"ve\"}")
}

fn push_remove(from: u64, to: u64, out: &mut Bytes) -> Result<(), Memory>
    ensures { OnOk result (out.new ≡ out.old ++ remove_line from to) }
{
    out.push(b"{\"do\":\"remove\",\"from\":")?;
    push_decimal(from, out)?;
    out.push(b",\"to\":")?;
    push_decimal(to, out)?;
    out.push(b"}")
}

fn push_split(at: u64, out: &mut Bytes) -> Result<(), Memory>
    ensures { OnOk result (out.new ≡ out.old ++ split_line at) }
{
    out.push(b"{\"at\":")?;
    push_decimal(at, out)?;
    out.push(b",\"do\":\"split\"}")
}

fn push_mark(from: u64, to: u64, out: &mut Bytes) -> Result<(), Memory>
    ensures { OnOk result (out.new ≡ out.old ++ mark_line from to) }
{
    out.push(b"{\"do\":\"mark\",\"from\":")?;
    push_decimal(from, out)?;
    out.push(b",\"tag\":\"b\",\"to\":")?;
    push_decimal(to, out)?;
    out.push(b"}")
}

/// Appends the line of an edit, by its draws.
fn push_line(choice: u64, at: u64, more: u64, out: &mut Bytes) -> Result<(), Memory>
    requires place { at ≤ 4000 }
    requires more { more < 30 }
    ensures { OnOk result (out.new ≡ out.old ++ line_of choice at more) }
{
    if choice < 4 {
        return push_text(at, out);
    }
    if choice == 4 {
        return push_remove(at, at + 1 + more, out);
    }
    if choice == 5 {
        return push_split(at, out);
    }
    if choice == 6 {
        return push_mark(at, at + 5, out);
    }
    out.push(b"{\"do\":\"undo\"}")
}

/// Appends the line of the next edit, and takes the state after it.
pub fn push_edit(state: &mut u64, out: &mut Bytes) -> Result<(), Memory>
    ensures line { OnOk result (out.new ≡ out.old ++ edit_line state.old) }
    ensures state { OnOk result (state.new ≡ state_after_edit state.old) }
{
    let choice = draw(state) % 8;
    let at = 1 + draw(state) % 4000;
    let more = if choice == 4 { draw(state) % 30 } else { 0 };
    push_line(choice, at, more, out)
}
