// Where operations are active.
ghost use Rattle.std.specs.Prelude.{◌≡◌, ◌≤◌, ◌^◌, None};
ghost use Rattle.ve_base.specs.Limits.{max_total_length};
ghost use Rattle.ve_tx.specs.Normal.{total_size};
ghost use Rattle.ve_tx.specs.Range.{widened, range_from};

use crate::Op;

fn wider(range: Option<(usize, usize)>, from: usize, to: usize) -> Option<(usize, usize)>
    ensures { result ≡ widened range from to }
{
    match range {
        Some((start, end)) => Some((start, end.max(to))),
        None => Some((from, to)),
    }
}

/// The active range: from the start of the first operation that isn't a retain to the end of the
/// last, in the old list.
pub fn range_of(ops: &[Op]) -> Option<(usize, usize)>
    requires { total_size ops.now ≤ max_total_length }
    ensures { result ≡ range_from 0 None ops.now }
{
    let mut at = 0;
    let mut range = None;
    for op in ops {
        match op {
            Op::Retain(count) => at += *count,
            Op::Replace { removed, .. } => {
                let end = at + removed.as_slice().len();
                range = wider(range, at, end);
                at = end;
            }
            Op::Attribute { .. } => range = wider(range, at, at + 1),
        }
    }
    range
}
