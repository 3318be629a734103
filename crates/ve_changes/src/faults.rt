// Why a line's request isn't done, and which refusal the fault of each builder is.
use model_edit::{BuildFault, ListFault, TableFault};
use model_site::EditFault;
use model_world::Refusal;
use thiserror::Error;
use ve_base::Memory;

/// Why what a line asks for isn't done: it is refused, or there is no memory for it.
#[derive(Clone, Copy, Debug, PartialEq, Eq, Error)]
pub enum ChangeStop {
    /// It is refused.
    #[error("it is refused")]
    Refused(Refusal),
    /// There is no memory for it.
    #[error("there is no memory for it")]
    Memory,
}

impl From<Memory> for ChangeStop {
    ghost use Rattle.std.specs.Prelude.{◌≡◌};
    ghost use Rattle.ve_changes.specs.declared.faults.ChangeStop.TheVariants as stop;

    ghost from_gives = { λ _ given. given ≡ stop.Memory };

    fn from(_: Memory) -> Self {
        ChangeStop::Memory
    }
}

impl From<BuildFault> for ChangeStop {
    ghost use Rattle.std.specs.Prelude.{◌≡◌};
    ghost use Rattle.ve_changes.specs.Stops.{build_stop};

    ghost from_gives = { λ fault given. given ≡ build_stop fault };

    fn from(fault: BuildFault) -> Self {
        match fault {
            BuildFault::BadOffset { at } => ChangeStop::Refused(Refusal::BadOffset { at }),
            BuildFault::NoPlace { at } => ChangeStop::Refused(Refusal::NoPlace { at }),
            BuildFault::NotContent { at } => ChangeStop::Refused(Refusal::NotContent { at }),
            BuildFault::BadDepth { depth } => ChangeStop::Refused(Refusal::BadDepth { depth }),
            BuildFault::BadRange { from, to } => ChangeStop::Refused(Refusal::BadRange {
                from,
                to,
            }),
            BuildFault::BadMark => ChangeStop::Refused(Refusal::BadMark),
            BuildFault::TooManyMarks { at } => ChangeStop::Refused(Refusal::TooManyMarks { at }),
            BuildFault::NotWrapped { at } => ChangeStop::Refused(Refusal::NotWrapped { at }),
            BuildFault::NotBranch { at } => ChangeStop::Refused(Refusal::NotBranch { at }),
            BuildFault::NotOpening { at } => ChangeStop::Refused(Refusal::NotOpening { at }),
            BuildFault::BadAttr { at } => ChangeStop::Refused(Refusal::BadAttr { at }),
            BuildFault::Memory => ChangeStop::Memory,
        }
    }
}

impl From<TableFault> for ChangeStop {
    ghost use Rattle.std.specs.Prelude.{◌≡◌};
    ghost use Rattle.ve_changes.specs.Stops.{table_stop};

    ghost from_gives = { λ fault given. given ≡ table_stop fault };

    fn from(fault: TableFault) -> Self {
        match fault {
            TableFault::NotTable { at } => ChangeStop::Refused(Refusal::NotTable { at }),
            TableFault::Crooked { at } => ChangeStop::Refused(Refusal::Crooked { at }),
            TableFault::BadRow { row, rows } => ChangeStop::Refused(Refusal::BadRow { row, rows }),
            TableFault::BadColumn { column, columns } => ChangeStop::Refused(Refusal::BadColumn {
                column,
                columns,
            }),
            TableFault::TooWide { columns } => ChangeStop::Refused(Refusal::TooWide { columns }),
            TableFault::Ragged { row } => ChangeStop::Refused(Refusal::Ragged { row }),
            TableFault::Spanned { at } => ChangeStop::Refused(Refusal::Spanned { at }),
            TableFault::SpanFull { at } => ChangeStop::Refused(Refusal::SpanFull { at }),
            TableFault::Memory => ChangeStop::Memory,
        }
    }
}

impl From<ListFault> for ChangeStop {
    ghost use Rattle.std.specs.Prelude.{◌≡◌};
    ghost use Rattle.ve_changes.specs.Stops.{list_stop};

    ghost from_gives = { λ fault given. given ≡ list_stop fault };

    fn from(fault: ListFault) -> Self {
        match fault {
            ListFault::NotListItem { at } => ChangeStop::Refused(Refusal::NotListItem { at }),
            ListFault::NoSibling { at } => ChangeStop::Refused(Refusal::NoSibling { at }),
            ListFault::NotNested { at } => ChangeStop::Refused(Refusal::NotNested { at }),
            ListFault::Memory => ChangeStop::Memory,
        }
    }
}

/// A line never asks for an item that differs, since its removed items are the list's own. It would
/// have the word of a full store.
impl From<EditFault> for ChangeStop {
    ghost use Rattle.std.specs.Prelude.{◌≡◌};
    ghost use Rattle.ve_changes.specs.Stops.{edit_stop};

    ghost from_gives = { λ fault given. given ≡ edit_stop fault };

    fn from(fault: EditFault) -> Self {
        match fault {
            EditFault::BadLength { has, needs } => ChangeStop::Refused(Refusal::BadLength {
                has,
                needs,
            }),
            EditFault::BadAttr { at } => ChangeStop::Refused(Refusal::BadAttr { at }),
            EditFault::Unlawful { at } => ChangeStop::Refused(Refusal::Unlawful { at }),
            EditFault::TooDeep { at } => ChangeStop::Refused(Refusal::TooDeep { at }),
            EditFault::TooManyItems { count } => ChangeStop::Refused(Refusal::TooManyItems {
                count,
            }),
            EditFault::StoreFull | EditFault::Mismatch { .. } => ChangeStop::Refused(
                Refusal::StoreFull,
            ),
            EditFault::Memory => ChangeStop::Memory,
        }
    }
}
