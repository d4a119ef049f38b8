use crate::actor::Actor;
use cid_core::{Block, BlockSource};
use fil_base::{ActorId, Bytes, Cid, Token};
use gas_prices::Codes;
use std::test::Fail;

/// A base of two blocks.
#[derive(Drop)]
pub(crate) struct TwoBlocks {
    pub first: Block,
    pub second: Block,
}

impl BlockSource for TwoBlocks {
    ghost use Rattle.std.specs.Prelude.{[], ◌∷◌};

    ghost blocks = { λ base. base.first ∷ base.second ∷ [] };

    fn find(&self, cid: &Cid) -> Option<&Block> {
        if self.first.cid() == cid {
            Some(&self.first)
        } else if self.second.cid() == cid {
            Some(&self.second)
        } else {
            None
        }
    }
}

/// The DAG-CBOR block of these bytes.
pub(crate) fn block(rt: HostRuntime, bytes: &[u8]) -> Result<Block, Fail> {
    let bytes = Bytes::copy_of(rt.alloc(), bytes)?;
    Ok(Block::of(rt.alloc(), 0x71, bytes)?)
}

/// A CID of raw bytes under the identity hash, with a digest of one byte.
pub(crate) fn cid(rt: HostRuntime, digest: u8) -> Result<Cid, Fail> {
    let digest = Bytes::copy_of(rt.alloc(), &[digest])?;
    Ok(Cid::new(1, 0x55, 0, digest).ok_or("no CID")?)
}

/// The codes 1 of the init actor, 2 of the reward actor and 3 of accounts.
pub(crate) fn codes(rt: HostRuntime) -> Result<Codes, Fail> {
    Ok(Codes {
        system: cid(rt, 0)?,
        init: cid(rt, 1)?,
        account: cid(rt, 3)?,
        reward: cid(rt, 2)?,
    })
}

pub(crate) fn id(number: u64) -> Result<ActorId, Fail> {
    Ok(ActorId::new(number).ok_or("no ID")?)
}

/// An account.
pub(crate) fn account(rt: HostRuntime, sequence: u64, balance: u128) -> Result<Actor, Fail> {
    Ok(Actor {
        code: cid(rt, 3)?,
        head: cid(rt, 9)?,
        sequence,
        balance: Token::new(balance).ok_or("no amount")?,
    })
}
