// A world, and its reply to the last line.
ghost use Rattle.std.specs.Prelude.{◌≡◌, true, IfOk, OnOk, OnErr, IsErr, length};
ghost use Rattle.vemodel_c.specs.Sessions.{started, answered, out_of_memory};

use std::alloc::Global;
use std::sync::ledger::Ledger;
use ve_base::{Bytes, Memory, Steps};
use ve_session::World;

/// A world, and the text of its last reply, without the newline.
#[derive(Drop)]
pub struct Session {
    pub world: World,
    pub reply: Bytes,
}

impl Session {
    /// A session at its beginning. It takes no memory.
    pub fn new(alloc: Global) -> Session
        ensures { result ≡ started }
    {
        Session {
            world: World::new(alloc),
            reply: Bytes::new(alloc),
        }
    }

    /// Answers a line, keeps the reply's text, and tells how long it is. After `Memory` the world
    /// is spent.
    pub fn step<L: Ledger>(&mut self, line: &[u8], steps: &mut Steps<L>) -> Result<usize, Memory>
        ensures done { OnOk result (self.new ≡ answered self.old line.now) }
        ensures length { IfOk result (λ n. n ≡ length self.new.reply) }
        ensures spent { OnErr result (self.new ≡ out_of_memory) }
        ensures stays_spent { self.old.world.is_spent ≡ true → IsErr result }
    {
        self.reply.clear();
        self.world.step(line, &mut self.reply, steps)?;
        let len = self.reply.as_slice().len() - 1;
        self.reply.truncate(len);
        Ok(len)
    }
}
