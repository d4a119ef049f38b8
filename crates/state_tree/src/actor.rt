ghost use Rattle.std.specs.Prelude.{◌≡◌, IfOk};

use fil_base::{Cid, Mem, Token};
use std::alloc::Global;

/// An actor (the Filecoin specification, "Actor").
#[derive(Debug, Drop)]
pub struct Actor {
    /// The CID of its code.
    pub code: Cid,

    /// The CID of its state.
    pub head: Cid,

    /// The number of the next message that it sends.
    pub sequence: u64,

    /// Its balance, in the smallest unit.
    pub balance: Token,
}

impl Actor {
    /// An equal one.
    pub fn copy(&self, alloc: Global) -> Mem<Actor>
        ensures { IfOk result (λ copy. copy ≡ self.now) }
    {
        let code = self.code.copy(alloc)?;
        let head = self.head.copy(alloc)?;
        Ok(Actor {
            code,
            head,
            sequence: self.sequence,
            balance: self.balance,
        })
    }
}
