// A list of members of one type.
ghost use Rattle.std.specs.Prelude.{◌≡◌, ◌++◌, ◌∷◌, [], IfOk, OnOk, OnErr};

use crate::{Memory, Same, TryCopy};
use std::alloc::Global;
use std::marker::Model;

/// A list that grows at its end, seen as the list of its members.
pub struct ListOf<T> {
    list: Vec<T>,
}

impl<T: Drop> Drop for ListOf<T> {
    fn drop(self) {
        let ListOf { list } = self;
        drop(list);
    }
}

impl<T> Model for ListOf<T> {
    ghost use Rattle.std.specs.Prelude.{List};
    ghost use Rattle.std.specs.Coded.{coded_list};

    ghost Value = { List T };

    ghost coded = { coded_list T.code };

    ghost view = { λ l. l.list.items };
}

impl<T: Drop> ListOf<T> {
    /// The empty list. It takes no memory.
    pub fn new(alloc: Global) -> ListOf<T>
        ensures { result ≡ [] }
    {
        ListOf {
            list: Vec::new(alloc),
        }
    }

    /// Appends a member. An `Err` changes nothing.
    pub fn push(&mut self, member: T) -> Result<(), Memory>
        ensures ok { OnOk result (self.new ≡ self.old ++ member ∷ []) }
        ensures err { OnErr result (self.new ≡ self.old) }
    {
        self.list.push(member)?;
        Ok(())
    }

    /// Appends the members of another list. An `Err` changes nothing.
    pub fn append(&mut self, mut later: ListOf<T>) -> Result<(), Memory>
        ensures ok { OnOk result (self.new ≡ self.old ++ later) }
        ensures err { OnErr result (self.new ≡ self.old) }
    {
        self.list.append(&mut later.list)?;
        Ok(())
    }

    /// Lends the members in order.
    pub fn as_slice(&self) -> &[T]
        ensures { result.now ≡ self.now }
    {
        self.list.as_slice()
    }

    /// The list of these members. It takes no memory.
    pub fn from_vec(list: Vec<T>) -> ListOf<T>
        ensures { result ≡ list.items }
    {
        ListOf { list }
    }

    /// Hands the members over.
    pub fn into_vec(self) -> Vec<T>
        ensures { result.items ≡ self }
    {
        let ListOf { list } = self;
        list
    }
}

impl<T: TryCopy> ListOf<T> {
    /// The list of these members.
    pub fn copy_of(alloc: Global, members: &[T]) -> Result<ListOf<T>, Memory>
        ensures { IfOk result (λ copy. copy ≡ members.now) }
    {
        let mut list = Vec::new(alloc);
        for member in members {
            list.push(member.copy(alloc)?)?;
        }
        Ok(ListOf { list })
    }
}

impl<T: TryCopy> TryCopy for ListOf<T> {
    fn copy(&self, alloc: Global) -> Result<ListOf<T>, Memory> {
        ListOf::copy_of(alloc, self.as_slice())
    }
}

impl<T: Same> Same for ListOf<T> {
    fn same(&self, other: &ListOf<T>) -> bool {
        if self.list.len() != other.list.len() {
            return false;
        }
        for i in 0..self.list.len() {
            if !self.list[i].same(&other.list[i]) {
                return false;
            }
        }
        true
    }
}
