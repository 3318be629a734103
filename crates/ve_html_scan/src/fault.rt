//! The faults that reading finds.

ghost use Rattle.std.specs.Prelude.{◌≡◌};
ghost use Rattle.model_spelling.specs.Reading.{fault, byte_fault};

use crate::runs::is_barred_byte;
use model_spelling::{ScanFault, ScanWhat};

pub fn fault_at(at: usize, what: ScanWhat) -> ScanFault
    ensures { result ≡ fault at what }
{
    ScanFault { at, what }
}

/// The fault of a byte that no spelling allows at its position: its own, or the one of what it
/// stands in.
pub fn refusal(at: usize, b: u8, otherwise: ScanFault) -> ScanFault
    ensures { result ≡ byte_fault at b otherwise }
{
    if is_barred_byte(b) {
        fault_at(at, ScanWhat::BadChar)
    } else {
        otherwise
    }
}
