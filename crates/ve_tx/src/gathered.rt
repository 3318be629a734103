// Operations as they are put together.
ghost use Rattle.std.specs.Prelude.{◌≡◌, ◌++◌, ◌∷◌, [], None, OnOk, vec_len};
ghost use Rattle.ve_tx.specs.Ends.{retain_of};
ghost use Rattle.ve_tx.specs.Gathered.{gathered};
ghost use Rattle.ve_tx.specs.Operation.{with_position};

use crate::Op;
use std::alloc::Global;
use ve_base::Memory;

/// Operations, with the position that each keeps beside it.
#[derive(Drop)]
pub struct Gathered {
    pub ops: Vec<Op>,
    pub kept: Vec<Option<usize>>,
}

impl Gathered {
    /// None yet. It takes no memory.
    pub fn new(alloc: Global) -> Gathered
        ensures ops { result.ops.items ≡ [] }
        ensures kept { result.kept.items ≡ [] }
    {
        Gathered {
            ops: Vec::new(alloc),
            kept: Vec::new(alloc),
        }
    }

    /// Puts an operation after the others.
    pub fn push(&mut self, op: Op, kept: Option<usize>) -> Result<(), Memory>
        requires even { vec_len self.old.ops ≡ vec_len self.old.kept }
        ensures even { OnOk result (vec_len self.new.ops ≡ vec_len self.new.kept) }
        ensures ops { OnOk result (self.new.ops.items ≡ self.old.ops.items ++ op ∷ []) }
        ensures ok { OnOk result (
            gathered self.new ≡ gathered self.old ++ with_position op kept ∷ []) }
    {
        self.ops.push(op)?;
        self.kept.push(kept)?;
        Ok(())
    }

    /// Puts a retain after the others; one of nothing is left out.
    pub fn retain(&mut self, count: usize) -> Result<(), Memory>
        requires even { vec_len self.old.ops ≡ vec_len self.old.kept }
        ensures even { OnOk result (vec_len self.new.ops ≡ vec_len self.new.kept) }
        ensures ok { OnOk result (gathered self.new ≡ gathered self.old ++ retain_of count) }
    {
        if count > 0 {
            self.push(Op::Retain(count), None)?;
        }
        Ok(())
    }
}
