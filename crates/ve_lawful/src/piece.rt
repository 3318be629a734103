// Going on by many items.
ghost use Rattle.std.specs.Prelude.{◌≡◌, ◌+◌, ◌<◌, ◌^◌, length, IfErr, OnOk, Ok, Err};
ghost use Rattle.model_items.specs.Law as law;
ghost use Rattle.ve_lawful.specs.Uncited.{after};

use crate::State;
use model_items::{Item, LawFault};

/// The same offence at another position.
fn moved_to(fault: LawFault, at: usize) -> LawFault
    ensures { law.fault_place fault ≡ 0 → result ≡ law.fault_moved at fault }
{
    match fault {
        LawFault::Unlawful { .. } => LawFault::Unlawful { at },
        LawFault::TooDeep { .. } => LawFault::TooDeep { at },
    }
}

/// Goes on by items, of which the first stands at a position. At an offence the state before it is
/// left.
pub(crate) fn go_on(state: &mut State, at: usize, items: &[Item]) -> Result<(), LawFault>
    requires { at + length items.now < 2 ^ 64 }
    ensures ok { OnOk result (after state.old items.now ≡ Ok state.new) }
    ensures err { IfErr result (λ fault.
        law.outcome_moved at (after state.old items.now) ≡ Err fault) }
{
    for (n, item) in items.iter().enumerate() {
        match state.step(*item) {
            Ok(()) => {}
            Err(fault) => return Err(moved_to(fault, at + n)),
        }
    }
    Ok(())
}

/// The state after a piece of a list, from the state before it, or the first position where the
/// piece fails. Positions count from the piece's start. It takes no memory.
pub fn check_piece(state: &State, items: &[Item]) -> Result<State, LawFault>
    ensures { result ≡ after state.now items.now }
{
    let mut now = state.copy();
    match go_on(&mut now, 0, items) {
        Ok(()) => Ok(now),
        Err(fault) => Err(fault),
    }
}
