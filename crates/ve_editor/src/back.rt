// What takes a list back to what it was before changes of it.
ghost use Rattle.std.specs.Prelude.{◌≡◌, ◌≢◌, ◌≤◌, ◌+◌, ◌-◌, ◌++◌, ◌∷◌, [], length, take, IfOk, IfSome, OnOk, OnErr};
ghost use Rattle.ve_editor.specs.Back.{LieInTurn, backward, undoing};
ghost use Rattle.ve_tx.specs.Spliced.{LieBetween, come_count, spliced_by};

use std::alloc::Global;
use std::marker::Model;
use ve_base::Memory;
use ve_items::Linear;
use ve_tx::Splice;

/// Splices that take a list back, of which the last is made first. It counts their items, so that
/// no sum is taken anew at each change.
pub struct Back {
    splices: Vec<Splice>,
    owed: usize,
}

impl Drop for Back {
    fn drop(self) {
        let Back { splices, owed: _ } = self;
        drop(splices);
    }
}

impl Model for Back {
    ghost use Rattle.std.specs.Prelude.{◌≡◌, List};
    ghost use Rattle.ve_tx.specs.Spliced.{come_count};
    ghost use Rattle.ve_tx.specs.declared.splice.Splice.{Splice};

    ghost Value = { List Splice };

    ghost view = { λ b. b.splices.items };

    ghost invariant = { λ b. b.owed ≡ come_count b.splices.items };
}

/// The splice that undoes a splice of a list.
fn undoing(alloc: Global, list: &Linear, splice: &Splice) -> Result<Splice, Memory>
    requires { splice.now.at + splice.now.removed ≤ length list.now.items }
    ensures { IfOk result (λ back. back ≡ undoing list.now.items splice.now) }
{
    // a `usize` counts the list, and so up to where items go
    let _len = list.len();
    let items = list.slice(alloc, splice.at, splice.at + splice.removed)?;
    Ok(Splice {
        at: splice.at,
        removed: splice.items.as_slice().len(),
        items,
    })
}

/// A number and how many items come with splices, where a `usize` names the sum.
fn with_come(number: usize, splices: &[Splice]) -> Option<usize>
    ensures { IfSome result (λ sum. sum ≡ number + come_count splices.now) }
{
    let mut sum = number;
    for splice in splices {
        sum = sum.checked_add(splice.items.as_slice().len())?;
    }
    Some(sum)
}

impl Back {
    /// Nothing to take back.
    pub fn new(alloc: Global) -> Back
        ensures { result ≡ [] }
    {
        Back {
            splices: Vec::new(alloc),
            owed: 0,
        }
    }

    /// How many splices it has.
    pub fn len(&self) -> usize
        ensures { result ≡ length self.now }
    {
        self.splices.len()
    }

    /// How many items come with them and with other splices, where a `usize` names the number.
    pub fn owed_with(&self, splices: &[Splice]) -> Option<usize>
        ensures { IfSome result (λ count. count ≡ come_count self.now + come_count splices.now) }
    {
        with_come(self.owed, splices)
    }

    /// Puts a splice behind the others. An `Err` changes nothing.
    fn push(&mut self, splice: Splice) -> Result<(), Memory>
        ensures ok { OnOk result (self.new ≡ self.old ++ splice ∷ []) }
        ensures err { OnErr result (self.new ≡ self.old) }
    {
        let Some(owed) = self.owed.checked_add(splice.items.as_slice().len()) else {
            return Err(Memory);
        };
        self.splices.push(splice)?;
        self.owed = owed;
        Ok(())
    }

    /// Notes what undoes splices at rising positions of a list, before they are made. An `Err` may
    /// leave some of it noted.
    pub fn note(&mut self, alloc: Global, list: &Linear, splices: &[Splice]) -> Result<(), Memory>
        requires { LieBetween 0 (length list.now.items) splices.now }
        ensures ok { OnOk result (self.new ≡ self.old ++ backward list.now.items splices.now) }
        ensures kept { take (length self.old) self.new ≡ self.old }
    {
        let mut left = splices.len();
        while left > 0 {
            left -= 1;
            self.push(undoing(alloc, list, &splices[left])?)?;
        }
        Ok(())
    }

    /// Lets the last splice go.
    fn pop(&mut self)
        requires { self.old ≢ [] }
        ensures { self.new ≡ take (length self.old - 1) self.old }
    {
        if let Some(splice) = self.splices.pop() {
            self.owed -= splice.items.as_slice().len();
        }
    }

    /// Lets all splices go but so many of the first.
    pub fn truncate(&mut self, len: usize)
        ensures { self.new ≡ take len self.old }
    {
        while self.len() > len {
            self.pop();
        }
    }

    /// Makes the splices of a list, the last first. It takes no memory.
    pub fn put_back(&self, list: &mut Linear)
        requires turn { LieInTurn list.old.items self.now }
        requires room { come_count self.now ≤ list.old.spare }
        ensures { list.new.items ≡ spliced_by list.old.items self.now }
    {
        let mut left = self.splices.len();
        while left > 0 {
            left -= 1;
            let splice = &self.splices[left];
            let spliced = list
                .splice(splice.at, splice.removed, splice.items.as_slice())
                .is_ok();
            prove!(spliced);
        }
    }
}
