// A text typed.
ghost use Rattle.std.specs.Prelude.{◌≡◌, ◌≢◌, Ok, IfOk};
ghost use Rattle.model_change.specs.Cost.{cost_of_transactions};
ghost use Rattle.model_site_law.specs.Sound.{Sound};
ghost use Rattle.model_world.specs.Answers as model;
ghost use Rattle.model_world.specs.Cost.{made_in_turn};
ghost use Rattle.model_world.specs.Edits.{batch_on};
ghost use Rattle.ve_changes.specs.Batches.{IsBatchRefused};

use crate::BatchStop;
use crate::batch::perform_all;
use crate::caret::after_text;
use model_edit::Selection;
use model_world::{EditCommand, EditCommandList, TextMarks};
use std::alloc::Global;
use std::sync::ledger::Ledger;
use ve_base::{Memory, Steps, Text, TryCopy};
use ve_editor::{Attempt, Trial};
use ve_tx::Entry;

/// A text that is typed: the selection is removed, where there is one, and the text stands at its
/// lower end with the marks to the left. What is told is where the caret is to stand: just after
/// the text. The selection isn't set. It is refused as a batch of these changes is.
#[derive(Clone, Copy)]
pub struct Typing<'a> {
    alloc: Global,
    text: &'a Text,
}

impl<'a> Typing<'a> {
    /// This text, typed.
    pub fn new(alloc: Global, text: &'a Text) -> Typing<'a>
        ensures { result.text.now ≡ text.now }
    {
        Typing { alloc, text }
    }
}

/// The changes that typing a text is.
fn typing_changes(
    alloc: Global,
    selection: Selection,
    text: &Text,
) -> Result<EditCommandList, Memory>
    ensures { IfOk result (λ changes. changes ≡ model.typing selection text.now) }
{
    let from = selection.anchor.min(selection.focus);
    let to = selection.anchor.max(selection.focus);
    let mut changes = EditCommandList::new(alloc);
    if selection.anchor != selection.focus {
        changes.push(EditCommand::Remove { from, to })?;
    }
    let text = text.copy(alloc)?;
    changes.push(EditCommand::Text {
        at: from,
        text,
        marks: TextMarks::Left,
    })?;
    Ok(changes)
}

impl Attempt for Typing<'_> {
    ghost use Rattle.ve_changes.specs.declared.batch_stop.BatchStop.{BatchStop};

    type Told = usize;

    type Stop = BatchStop;

    ghost can_run = { λ t r. Sound r.items };

    ghost makes = { λ t r ts caret.
        (batch_on r (model.typing r.selection t.text.now) ≡ Ok ts)
        × (caret ≡ model.after_text ts) };

    ghost stops = { λ t r. IsBatchRefused (batch_on r (model.typing r.selection t.text.now)) };

    ghost is_refusal = { λ stop. stop ≢ BatchStop.Memory };

    ghost cost = { λ t r.
        cost_of_transactions (made_in_turn r (model.typing r.selection t.text.now)) r.items };

    fn run<L: Ledger>(
        &self,
        trial: &mut Trial,
        steps: &mut Steps<L>,
    ) -> Result<(Entry, usize), BatchStop> {
        let changes = typing_changes(self.alloc, trial.selection(), self.text)?;
        let entry = perform_all(self.alloc, trial, changes.as_slice(), steps)?;
        let caret = after_text(&entry)?;
        Ok((entry, caret))
    }

    fn no_memory(&self) -> BatchStop {
        BatchStop::Memory
    }
}
