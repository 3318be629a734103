// Several changes of a page, all of them or none.
ghost use Rattle.std.specs.Prelude.{◌≡◌, ◌≤◌, ◌+◌, ℕ, List, IfOk, IfErr, OnErr};
ghost use Rattle.model_change.specs.Transaction.{Transaction};
ghost use Rattle.model_site.specs.Replica.{Replica};
ghost use Rattle.ve_editor.specs.Counted.{steps_of_blank};
ghost use Rattle.ve_editor.specs.Page.{replica_of};
ghost use Rattle.ve_editor.specs.Trials.{IsMade};

use crate::{Editor, Trial};
use std::sync::ledger::Ledger;
use ve_base::Steps;
use ve_tx::Entry;

/// Changes that a page is asked for, to be made one after the other, all of them or none. What they
/// mean is fixed by them and the page.
pub trait Attempt {
    /// What is told of them, where they are made.
    type Told: Drop;

    /// Why they aren't made.
    type Stop: Drop;

    /// They may be asked for on this page.
    ghost can_run: { Self → Replica → Type 0 };

    /// On this page they are these transactions, of which this is told.
    ghost makes: { Self → Replica → List Transaction → Self.Told → Type 0 };

    /// This is why they aren't made on this page.
    ghost stops: { Self → Replica → Self.Stop → Type 0 };

    /// It isn't for want of memory that they aren't made.
    ghost is_refusal: { Self.Stop → Type 0 };

    /// How many steps they take at most on this page.
    ghost cost: { Self → Replica → ℕ };

    /// Makes the changes on the page of a trial, and gives their transactions as one entry. An
    /// `Err` may leave some of them made.
    fn run<L: Ledger>(
        &self,
        trial: &mut Trial,
        steps: &mut Steps<L>,
    ) -> Result<(Entry, Self::Told), Self::Stop>
        requires can { can_run self.now (replica_of trial.old.page) }
        ensures made { IfOk result (λ made.
            IsMade (λ ts. makes self.now (replica_of trial.old.page) ts made.1)
            trial.old.page trial.new.page made.0) }
        ensures stopped { IfErr result (stops self.now (replica_of trial.old.page)) }
        ensures first { trial.new.first ≡ trial.old.first }
        ensures counted { steps.old ≤ steps.new }
        ensures steps { IfErr result is_refusal
            → steps.new ≤ steps.old + cost self.now (replica_of trial.old.page) };

    /// Why they aren't made where there is no memory to begin.
    fn no_memory(&self) -> Self::Stop
        ensures stop { (r : Replica) → stops self.now r result }
        ensures memory { is_refusal result → ⊥ };
}

/// The editor after an attempt, and what came of it.
fn tried<A: Attempt, L: Ledger>(
    editor: Editor,
    attempt: &A,
    steps: &mut Steps<L>,
) -> (Editor, Result<(Entry, A::Told), A::Stop>)
    requires can { A.can_run attempt.now (replica_of editor) }
    ensures made { IfOk result.1 (λ made.
        IsMade (λ ts. A.makes attempt.now (replica_of editor) ts made.1) editor result.0 made.0) }
    ensures stopped { IfErr result.1 (A.stops attempt.now (replica_of editor)) }
    ensures kept { OnErr result.1 (result.0 ≡ editor) }
    ensures counted { steps.old ≤ steps.new }
    ensures steps { IfErr result.1 A.is_refusal
        → steps.new ≤ steps.old + A.cost attempt.now (replica_of editor) }
{
    match Trial::begin(editor) {
        Ok(mut trial) => match attempt.run(&mut trial, steps) {
            Ok(made) => (trial.keep(), Ok(made)),
            Err(stop) => (trial.take_back(), Err(stop)),
        },
        Err(editor) => (editor, Err(attempt.no_memory())),
    }
}

impl Editor {
    /// Makes the changes of an attempt in place, and gives their transactions as one entry. An
    /// `Err` changes nothing: what was made until then is taken back. Nodes that stay over each of
    /// the transactions keep their numbers.
    ///
    /// The steps are those of the changes, and of a page without text.
    pub fn attempt<A: Attempt, L: Ledger>(
        &mut self,
        attempt: &A,
        steps: &mut Steps<L>,
    ) -> Result<(Entry, A::Told), A::Stop>
        requires can { A.can_run attempt.now (replica_of self.old) }
        ensures made { IfOk result (λ made.
            IsMade (λ ts. A.makes attempt.now (replica_of self.old) ts made.1) self.old self.new
            made.0) }
        ensures stopped { IfErr result (A.stops attempt.now (replica_of self.old)) }
        ensures kept { OnErr result (self.new ≡ self.old) }
        ensures counted { steps.old ≤ steps.new }
        ensures steps { IfErr result A.is_refusal
            → steps.new ≤ steps.old + steps_of_blank + A.cost attempt.now (replica_of self.old) }
    {
        let Ok(blank) = Editor::blank(self.alloc, steps) else {
            return Err(attempt.no_memory());
        };
        let (editor, result) = tried(std::mem::replace(self, blank), attempt, steps);
        *self = editor;
        result
    }
}
