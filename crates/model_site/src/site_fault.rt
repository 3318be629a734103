// Why a site does not undo, redo or send.
use thiserror::Error;

/// Why nothing is undone. Nothing has changed then.
#[derive(Clone, Copy, Debug, PartialEq, Eq, Error)]
pub enum UndoFault {
    /// No entry is unsent, and the site has sent none since the page was opened.
    #[error("there is nothing to undo")]
    NothingToUndo,
    /// No entry is unsent, and the site has sent `sent` entries since the page was opened, dropped ones included.
    #[error("all {sent} entries were sent")]
    AlreadyShared { sent: usize },
    /// There is no memory for it.
    #[error("there is no memory for it")]
    Memory,
}

/// Why nothing is redone. Nothing has changed then.
#[derive(Clone, Copy, Debug, PartialEq, Eq, Error)]
pub enum RedoFault {
    /// Since the last edit or take nothing was undone that was not redone.
    #[error("there is nothing to redo")]
    NothingToRedo,
    /// There is no memory for it.
    #[error("there is no memory for it")]
    Memory,
}

/// Why nothing is sent. Nothing has changed then. `InFlight` comes before `NothingToSend`.
#[derive(Clone, Copy, Debug, PartialEq, Eq, Error)]
pub enum SendFault {
    /// A submission of `entries` entries is not acknowledged yet, however many of them are still held.
    #[error("a submission of {entries} entries is not acknowledged")]
    InFlight { entries: usize },
    /// No entry is unsent.
    #[error("there is nothing to send")]
    NothingToSend,
    /// There is no memory for it.
    #[error("there is no memory for it")]
    Memory,
}
