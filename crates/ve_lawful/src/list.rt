// The verdict over a whole list.
ghost use Rattle.std.specs.Prelude.{◌≡◌, IfErr, OnOk, Ok, None, Some};
ghost use Rattle.model_items.specs.Law as law;
ghost use Rattle.ve_lawful.specs.Uncited.{verdict};

use crate::State;
use crate::piece::go_on;
use model_items::LawFault;
use ve_items::Linear;

/// Whether a list of so many items may end in a state.
fn ended(state: &State, len: usize) -> Result<(), LawFault>
    ensures ok { OnOk result (law.verdict_at len (Ok state.now) ≡ None) }
    ensures err { IfErr result (λ fault. law.verdict_at len (Ok state.now) ≡ Some fault) }
{
    if state.is_over() {
        Ok(())
    } else {
        Err(LawFault::Unlawful { at: len })
    }
}

/// The first position where a list fails; a list that ends in the wrong state fails at its length.
/// It takes no memory, and walks the list block after block, as it is borrowed.
pub fn check(list: &Linear) -> Result<(), LawFault>
    ensures ok { OnOk result (verdict list.now.items ≡ None) }
    ensures err { IfErr result (λ fault. verdict list.now.items ≡ Some fault) }
{
    let len = list.len();
    let mut state = State::root();
    let mut at = 0;
    while at < len {
        let piece = list.piece(at, len);
        go_on(&mut state, at, piece)?;
        at += piece.len();
    }
    ended(&state, len)
}
