// Counts of one pass over operations.
ghost use Rattle.std.specs.Prelude.{◌≡◌, ◌≤◌, ◌+◌, ◌^◌, ◌&&◌, not};
ghost use Rattle.ve_tx.specs.Normal.{size, total_size};
ghost use Rattle.ve_rebase.specs.Totals.{with_op, with_ops, nothing, inserted_size};

use ve_tx::Op;

/// The old and the new length, the retain after all other operations, and which operations there
/// are.
#[derive(Clone, Copy)]
pub struct Totals {
    pub old: usize,
    pub new: usize,
    pub end: usize,
    pub has_replace: bool,
    pub has_attribute: bool,
}

impl Totals {
    /// Whether there are attribute operations and no replaces.
    pub fn sets_attributes_alone(self) -> bool
        ensures { result ≡ (self.has_attribute && not self.has_replace) }
    {
        self.has_attribute && !self.has_replace
    }

    fn with(self, op: &Op) -> Totals
        requires old { self.old + size op.now ≤ 2 ^ 60 }
        requires new { self.new + size op.now ≤ 2 ^ 60 }
        ensures { result ≡ with_op self op.now }
    {
        match op {
            Op::Retain(count) => Totals {
                old: self.old + *count,
                new: self.new + *count,
                end: *count,
                has_replace: self.has_replace,
                has_attribute: self.has_attribute,
            },
            Op::Replace { removed, inserted } => Totals {
                old: self.old + removed.as_slice().len(),
                new: self.new + inserted.as_slice().len(),
                end: 0,
                has_replace: true,
                has_attribute: self.has_attribute,
            },
            Op::Attribute { .. } => Totals {
                old: self.old,
                new: self.new,
                end: 0,
                has_replace: self.has_replace,
                has_attribute: true,
            },
        }
    }
}

pub fn count(ops: &[Op]) -> Totals
    requires { total_size ops.now ≤ 2 ^ 60 }
    ensures { result ≡ with_ops nothing ops.now }
{
    let mut counted = Totals {
        old: 0,
        new: 0,
        end: 0,
        has_replace: false,
        has_attribute: false,
    };
    for op in ops {
        counted = counted.with(op);
    }
    counted
}

/// How many items the operations insert.
pub fn inserted_count(ops: &[Op]) -> usize
    requires { total_size ops.now ≤ 2 ^ 60 }
    ensures count { result ≡ inserted_size ops.now }
    ensures small { result ≤ 2 ^ 60 }
{
    let mut inserts = 0;
    for op in ops {
        if let Op::Replace { inserted, .. } = op {
            inserts += inserted.as_slice().len();
        }
    }
    inserts
}
