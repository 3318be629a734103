// The faults of the crates below, as why an edit is not made.
ghost use Rattle.std.specs.Prelude.{◌≡◌};
ghost use Rattle.ve_editor.specs.Refusal.{fault_of_tx, fault_of_law};

use model_site::EditFault;
use ve_lawful::LawFault;
use ve_tx::TxFault;

pub fn of_transaction(fault: TxFault) -> EditFault
    ensures { result ≡ fault_of_tx fault }
{
    match fault {
        TxFault::BadLength { has, needs } => EditFault::BadLength { has, needs },
        TxFault::Mismatch { at } => EditFault::Mismatch { at },
        TxFault::BadAttr { at } => EditFault::BadAttr { at },
        TxFault::Memory => EditFault::Memory,
    }
}

pub fn of_law(fault: LawFault) -> EditFault
    ensures { result ≡ fault_of_law fault }
{
    match fault {
        LawFault::Unlawful { at } => EditFault::Unlawful { at },
        LawFault::TooDeep { at } => EditFault::TooDeep { at },
    }
}
