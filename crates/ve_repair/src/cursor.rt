// A cursor in the old tree.
ghost use Rattle.std.specs.Prelude.{◌≡◌, ◌≤◌};
ghost use Rattle.ve_repair.specs.Cursors.{Spot, IsAt, IsAtSome, IsPassed, IsRestOfText, items_in};

use ve_arena::{Arena, NodeId, NodeWhat};

/// A position in the old tree: the innermost open node, its child that comes next, and how many
/// characters of that child are passed.
#[derive(Clone, Copy, Drop)]
pub struct Cursor {
    pub parent: NodeId,
    pub next: Option<NodeId>,
    pub inside: usize,
}

/// The next token of the old list.
#[derive(Clone, Copy, Drop)]
pub enum Ahead {
    /// A node begins.
    Opening(NodeId),
    /// Characters of a text; `ends` says whether they are its last ones.
    Chars { n: NodeId, ends: bool },
    /// The innermost open node ends.
    Closing,
}

/// The passed token, how many items it takes, and the position behind it.
#[derive(Clone, Copy, Drop)]
pub struct Passed {
    pub what: Ahead,
    pub count: usize,
    pub at: Cursor,
}

impl Cursor {
    /// Passes a bracket, or characters of one text, and at most so many items.
    pub(crate) fn pass(self, arena: &Arena, most: usize) -> Passed
        requires some { 1 ≤ most }
        requires at { IsAtSome arena.now.slots self most }
        ensures { (spot : Spot)
            → IsAt arena.now.slots self spot
            → most ≤ items_in spot.rest
            → IsPassed arena.now.slots most spot result }
    {
        let Some(n) = self.next else {
            let node = arena.node(self.parent);
            return Passed {
                what: Ahead::Closing,
                count: 1,
                at: Cursor {
                    parent: node.parent.unwrap_or(self.parent),
                    next: node.after,
                    inside: 0,
                },
            };
        };
        let node = *arena.node(n);
        match node.what {
            NodeWhat::Node(_) => Passed {
                what: Ahead::Opening(n),
                count: 1,
                at: Cursor {
                    parent: n,
                    next: node.first,
                    inside: 0,
                },
            },
            NodeWhat::Run => {
                let left = node.len - self.inside;
                if most < left {
                    Passed {
                        what: Ahead::Chars { n, ends: false },
                        count: most,
                        at: Cursor {
                            parent: self.parent,
                            next: self.next,
                            inside: self.inside + most,
                        },
                    }
                } else {
                    Passed {
                        what: Ahead::Chars { n, ends: true },
                        count: left,
                        at: Cursor {
                            parent: self.parent,
                            next: node.after,
                            inside: 0,
                        },
                    }
                }
            }
        }
    }

    /// How many characters are left of the text that comes next, if one does.
    pub(crate) fn rest_of_text(self, arena: &Arena) -> usize
        requires { IsAtSome arena.now.slots self 0 }
        ensures { (spot : Spot) → IsAt arena.now.slots self spot → IsRestOfText spot result }
    {
        let Some(n) = self.next else {
            return 0;
        };
        let node = arena.node(n);
        match node.what {
            NodeWhat::Run => node.len - self.inside,
            NodeWhat::Node(_) => 0,
        }
    }
}
