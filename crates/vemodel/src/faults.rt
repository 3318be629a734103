// How often a reader or a writer of std has failed.
ghost use Rattle.std.specs.Prelude.{◌≡◌, ◌+◌, ◌-◌, ◌^◌, ◌<◌, ◌≤◌, ◌⊎◌, length, min, Ok, IfOk, OnErr, IsErr};
ghost use Rattle.ve_base.specs.Outside.{HasCause, Rose};

use std::io;
use ve_base::Failed;

/// A count of what std told as failed. Nothing else can raise it: where std's call gave a number,
/// the count stays, but for a writer that took nothing of a piece.
#[derive(Drop)]
pub struct Faults {
    count: u64,
}

impl Faults {
    /// None so far.
    pub fn none() -> Faults
        ensures { result.count ≡ 0 }
    {
        Faults { count: 0 }
    }

    /// One more. The count stands still at its last value.
    fn rise(&mut self) -> Failed
        ensures one { self.new.count ≡ min (self.old.count + 1) (2 ^ 64 - 1) }
        ensures later { self.old.count ≤ self.new.count }
        ensures rose { Rose self.old.count self.new.count }
    {
        self.count = self.count.saturating_add(1);
        Failed
    }

    /// Hands on what a read gave. 0 is the end, and no fault.
    pub fn of_read(&mut self, given: io::Result<usize>) -> Result<usize, Failed>
        ensures stays { IfOk given (λ n. (result ≡ Ok n) × (self.new ≡ self.old)) }
        ensures rises { OnErr given (IsErr result × (self.new.count ≡ min (self.old.count + 1) (2 ^ 64 - 1))) }
        ensures cause { HasCause self.old.count self.new.count result }
    {
        match given {
            Ok(given) => Ok(given),
            Err(_) => Err(self.rise()),
        }
    }

    /// Hands on what a write took of a piece.
    pub fn of_write(&mut self, piece: &[u8], taken: io::Result<usize>) -> Result<usize, Failed>
        ensures stays { IfOk taken (λ n. (0 < n) ⊎ (length piece.now ≡ 0)
            → (result ≡ Ok n) × (self.new ≡ self.old)) }
        ensures none { IfOk taken (λ n. n ≡ 0 → 0 < length piece.now
            → IsErr result × (self.new.count ≡ min (self.old.count + 1) (2 ^ 64 - 1))) }
        ensures rises { OnErr taken (IsErr result × (self.new.count ≡ min (self.old.count + 1) (2 ^ 64 - 1))) }
        ensures cause { HasCause self.old.count self.new.count result }
    {
        match taken {
            Ok(taken) if taken > 0 || piece.is_empty() => Ok(taken),
            _ => Err(self.rise()),
        }
    }
}
