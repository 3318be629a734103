// A node of the arena: what it is, and its links.
ghost use Rattle.std.specs.Prelude.{◌≡◌};
ghost use Rattle.ve_arena.specs.Arena.{with_field};

use ve_kinds::Kind;

/// A node's number. It is given out again only after its node was freed.
#[derive(Clone, Copy, Debug, PartialEq, Eq)]
pub struct NodeId(pub usize);

/// The items that a node stands for in the flat list.
#[derive(Clone, Copy, Debug, PartialEq, Eq)]
pub enum NodeWhat {
    /// An opening and its closing, with all that stands between.
    Node(Kind),
    /// A run of characters.
    Run,
}

/// A node with its links, after the tree nodes of VisualEditor's `ve.dm`.
#[derive(Clone, Copy, Debug, PartialEq, Eq)]
pub struct ArenaNode {
    pub what: NodeWhat,
    pub parent: Option<NodeId>,
    /// Its first and its last child.
    pub first: Option<NodeId>,
    pub last: Option<NodeId>,
    /// The siblings next to it.
    pub before: Option<NodeId>,
    pub after: Option<NodeId>,
    /// How many items it takes in the flat list.
    pub len: usize,
}

/// One field of a node, and what it is to have.
#[derive(Clone, Copy)]
pub enum Field {
    Parent(Option<NodeId>),
    First(Option<NodeId>),
    Last(Option<NodeId>),
    Before(Option<NodeId>),
    After(Option<NodeId>),
    Len(usize),
}

impl ArenaNode {
    /// Writes a field.
    pub(crate) fn set(&mut self, field: Field)
        ensures { self.new ≡ with_field field self.old }
    {
        match field {
            Field::Parent(to) => self.parent = to,
            Field::First(to) => self.first = to,
            Field::Last(to) => self.last = to,
            Field::Before(to) => self.before = to,
            Field::After(to) => self.after = to,
            Field::Len(len) => self.len = len,
        }
    }
}
