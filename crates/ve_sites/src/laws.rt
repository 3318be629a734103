// Laws of a session's turns: each is the contract of a function that does nothing.
ghost use Rattle.ve_sites.specs.Laws.{EditHappens, RedoHappens, RevokeHappens, SelectHappens, SendHappens, ServeHappens, AttemptHappens, TakeHappens, TellHappens, UndoHappens};

/// The promise of each call of `Sites` is the model's event of its name. Of an edit, and of an
/// attempt that is made, it is the event that performs these transactions.
pub fn turns_are_events()
    ensures edit { EditHappens }
    ensures attempt { AttemptHappens }
    ensures select { SelectHappens }
    ensures tell { TellHappens }
    ensures undo { UndoHappens }
    ensures redo { RedoHappens }
    ensures revoke { RevokeHappens }
    ensures send { SendHappens }
    ensures serve { ServeHappens }
    ensures take { TakeHappens }
{}
