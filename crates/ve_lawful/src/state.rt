// The open kinds at a position of a list.
ghost use Rattle.std.specs.Prelude.{◌≡◌, ◌<◌, ◌≤◌, length, slice_get, IfErr, OnErr, OnOk, Ok, Err, Some};
ghost use Rattle.model_items.specs.Law as law;
ghost use Rattle.ve_base.specs.Limits.{max_open_kinds};
ghost use Rattle.ve_lawful.specs.Uncited.{step};

use model_items::{Item, LawFault};
use std::marker::Model;
use ve_base::MAX_OPEN_KINDS;
use ve_kinds::{Kind, is_content_branch, may_hold};

/// The open kinds at a position of a list, the root not counted, and whether the internal list was
/// opened before it.
#[derive(Drop)]
pub struct State {
    kinds: [Kind; MAX_OPEN_KINDS],
    len: usize,
    seen: bool,
}

impl Model for State {
    ghost use Rattle.std.specs.Prelude.{◌≤◌};
    ghost use Rattle.model_items.specs.Law as law;
    ghost use Rattle.ve_base.specs.Limits.{max_open_kinds};
    ghost use Rattle.ve_lawful.specs.Stack.{stack_of};

    ghost Value = { law.State };

    ghost view = { λ s. record { stack = stack_of s.kinds s.len; seen = s.seen } };

    ghost invariant = { λ s. s.len ≤ max_open_kinds };
}

impl State {
    /// The state where a list begins: nothing is open, and the internal list is still to come.
    pub fn root() -> Self
        ensures { result ≡ law.start }
    {
        State {
            kinds: [Kind::Root; MAX_OPEN_KINDS],
            len: 0,
            seen: false,
        }
    }

    /// An equal state. It takes no memory.
    pub fn copy(&self) -> Self
        ensures { result ≡ self.now }
    {
        State {
            kinds: self.kinds,
            len: self.len,
            seen: self.seen,
        }
    }

    /// How many nodes are open.
    pub fn depth(&self) -> usize
        ensures depth { result ≡ length self.now.stack }
        ensures within { result ≤ max_open_kinds }
    {
        self.len
    }

    /// The kind `n` levels up, 0 for the innermost.
    pub fn kind(&self, n: usize) -> Kind
        requires { n < length self.now.stack }
        ensures { slice_get self.now.stack n ≡ Some result }
    {
        self.kinds[self.len - 1 - n]
    }

    /// Whether the internal list was opened.
    pub fn seen(&self) -> bool
        ensures { result ≡ self.now.seen }
    {
        self.seen
    }

    /// The innermost open kind, or the root.
    #[tactic(auto, using(crate::proofs::StackLemmas::top_stack_of))]
    fn top(&self) -> Kind
        ensures { result ≡ law.top self.now.stack }
    {
        if self.len == 0 {
            Kind::Root
        } else {
            self.kinds[self.len - 1]
        }
    }

    #[tactic(auto, using(crate::proofs::StackLemmas::is_empty_stack_of))]
    fn is_empty(&self) -> bool
        ensures { result ≡ law.is_empty self.now.stack }
    {
        self.len == 0
    }

    fn may_open(&self, kind: Kind) -> bool
        ensures { result ≡ law.may_open self.now kind }
    {
        let allowed = if kind == Kind::InternalList {
            self.is_empty() && !self.seen
        } else {
            !(self.is_empty() && self.seen)
        };
        may_hold(self.top(), kind) && allowed
    }

    /// Whether no item may follow and the list may end here: nothing is open, and the internal list
    /// was seen.
    pub fn is_over(&self) -> bool
        ensures { result ≡ law.is_over self.now }
    {
        self.is_empty() && self.seen
    }

    /// Goes on by one item. `at` of a fault is 0, and an item that isn't allowed changes nothing.
    #[tactic(auto, using(crate::proofs::StackLemmas::opened_stack_of, crate::proofs::StackLemmas::closed_stack_of))]
    pub fn step(&mut self, item: Item) -> Result<(), LawFault>
        ensures ok { OnOk result (step self.old item ≡ Ok self.new) }
        ensures err { IfErr result (λ fault. step self.old item ≡ Err fault) }
        ensures kept { OnErr result (self.new ≡ self.old) }
    {
        match item {
            Item::Char { .. } => {
                if is_content_branch(self.top()) {
                    Ok(())
                } else {
                    Err(LawFault::Unlawful { at: 0 })
                }
            }
            Item::Opening { kind, .. } => {
                if !self.may_open(kind) {
                    Err(LawFault::Unlawful { at: 0 })
                } else if self.len >= MAX_OPEN_KINDS {
                    Err(LawFault::TooDeep { at: 0 })
                } else {
                    self.kinds[self.len] = kind;
                    self.len += 1;
                    self.seen = self.seen || kind == Kind::InternalList;
                    Ok(())
                }
            }
            Item::Closing { kind, .. } => {
                if self.len > 0 && self.top() == kind {
                    self.len -= 1;
                    Ok(())
                } else {
                    Err(LawFault::Unlawful { at: 0 })
                }
            }
        }
    }
}
