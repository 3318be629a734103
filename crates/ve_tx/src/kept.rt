// The positions that operations keep.
ghost use Rattle.std.specs.Prelude.{◌≡◌, ◌<◌, length};
ghost use Rattle.ve_tx.specs.Operation.{is_setting, kept_at, with_positions};

use crate::Op;

fn is_setting(op: &Op) -> bool
    ensures { result ≡ is_setting op.now }
{
    match op {
        Op::Attribute { .. } => true,
        Op::Retain(_) | Op::Replace { .. } => false,
    }
}

/// The position that operation `k` keeps, of operations with the positions beside them.
#[tactic(auto, using(crate::proofs::KeptLemmas::kept_past, crate::proofs::KeptLemmas::kept_other))]
pub fn kept_among(ops: &[Op], kept: &[Option<usize>], k: usize) -> Option<usize>
    requires { k < length ops.now }
    ensures { result ≡ kept_at (with_positions ops.now kept.now) k }
{
    if !is_setting(&ops[k]) {
        return None;
    }
    if k >= kept.len() {
        return None;
    }
    kept[k]
}
