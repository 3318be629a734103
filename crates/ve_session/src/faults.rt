// The faults of the crates below, as stops of a request.
ghost use Rattle.std.specs.Prelude.{◌≡◌, IfOk, OnErr};
ghost use Rattle.ve_session.specs.Stopped.{line_stop, page_stop, redo_stop, revoke_stop, send_stop, typing_stop, undo_stop};

use model_site::{RedoFault, SendFault, UndoFault};
use model_world::Refusal;
use ve_base::Memory;
use ve_changes::{BatchStop, ChangeStop};
use ve_json::CommandFault;
use ve_peer_undo::LiveFault;
use ve_read::ReadFault;

/// Why a page isn't opened.
pub fn of_page(fault: ReadFault) -> ChangeStop
    ensures { result ≡ page_stop fault }
{
    match fault {
        ReadFault::PageTooLong { len } => ChangeStop::Refused(Refusal::PageTooLong { len }),
        ReadFault::Html(fault) => ChangeStop::from(fault),
        ReadFault::TooDeep { at } => ChangeStop::Refused(Refusal::TooDeep { at }),
        ReadFault::TooManyMarks { at } => ChangeStop::Refused(Refusal::TooManyMarks { at }),
        ReadFault::TooManyItems { count } => ChangeStop::Refused(Refusal::TooManyItems { count }),
        ReadFault::StoreFull => ChangeStop::Refused(Refusal::StoreFull),
        ReadFault::Memory => ChangeStop::Memory,
    }
}

/// Why nothing is undone.
pub fn of_undo(fault: UndoFault) -> ChangeStop
    ensures { result ≡ undo_stop fault }
{
    match fault {
        UndoFault::NothingToUndo => ChangeStop::Refused(Refusal::NothingToUndo),
        UndoFault::AlreadyShared { sent } => ChangeStop::Refused(Refusal::AlreadyShared { sent }),
        UndoFault::Memory => ChangeStop::Memory,
    }
}

/// Why nothing is redone.
pub fn of_redo(fault: RedoFault) -> ChangeStop
    ensures { result ≡ redo_stop fault }
{
    match fault {
        RedoFault::NothingToRedo => ChangeStop::Refused(Refusal::NothingToRedo),
        RedoFault::Memory => ChangeStop::Memory,
    }
}

/// Why nothing is sent.
pub fn of_send(fault: SendFault) -> ChangeStop
    ensures { result ≡ send_stop fault }
{
    match fault {
        SendFault::InFlight { entries } => ChangeStop::Refused(Refusal::InFlight { entries }),
        SendFault::NothingToSend => ChangeStop::Refused(Refusal::NothingToSend),
        SendFault::Memory => ChangeStop::Memory,
    }
}

/// Why an entry isn't taken back: another one took it back, or the later entry's range and the
/// reversal's are in conflict.
pub fn of_revoke(entry: usize, fault: LiveFault) -> ChangeStop
    ensures { result ≡ revoke_stop entry fault }
{
    match fault {
        LiveFault::TakenBack { by } => ChangeStop::Refused(Refusal::TakenBack { entry, by }),
        LiveFault::Conflict { later, reversal } => {
            ChangeStop::Refused(Refusal::RevokeConflict { later, reversal })
        }
        LiveFault::Memory => ChangeStop::Memory,
    }
}

/// Why a text isn't typed over a selection.
pub fn of_typing(stop: BatchStop) -> ChangeStop
    ensures { result ≡ typing_stop stop }
{
    match stop {
        BatchStop::Refused { refusal, .. } => ChangeStop::Refused(refusal),
        BatchStop::Memory => ChangeStop::Memory,
    }
}

/// Why a line gives no command.
pub fn of_line(fault: CommandFault) -> ChangeStop
    ensures { result ≡ line_stop fault }
{
    match fault {
        CommandFault::Refused(refusal) => ChangeStop::Refused(refusal),
        CommandFault::Memory => ChangeStop::Memory,
    }
}

/// The refusal that a stop is; else memory is wanting.
pub fn refusal_of(stop: ChangeStop) -> Result<Refusal, Memory>
    ensures refused { IfOk result (λ refusal. stop ≡ ChangeStop.Refused refusal) }
    ensures memory { OnErr result (stop ≡ ChangeStop.Memory) }
{
    match stop {
        ChangeStop::Refused(refusal) => Ok(refusal),
        ChangeStop::Memory => Err(Memory),
    }
}
