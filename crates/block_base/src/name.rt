ghost use Rattle.std.specs.Prelude.{◌≡◌, IfOk};
ghost use Rattle.block_base.specs.Order.{key_of as key};
ghost use Rattle.block_base.specs.Names.{AreNames, IsName};

use cid_core::Block;
use fil_base::{Cid, Mem};
use std::alloc::Global;

/// What a block is found by, in the order in which it is compared, and at last its place.
#[derive(Clone, Copy, PartialEq, Eq, PartialOrd, Ord)]
pub(crate) struct Name<'a> {
    pub(crate) key: u64,
    version: u8,
    codec: u64,
    hash: u64,
    digest: &'a [u8],
    pub(crate) place: usize,
}

/// The name of the CID at a place.
pub(crate) fn name_of(cid: &Cid, place: usize) -> Name<'_>
    ensures { IsName result cid.now place }
{
    Name {
        key: key_of(cid),
        version: cid.version(),
        codec: cid.codec(),
        hash: cid.hash(),
        digest: cid.digest(),
        place,
    }
}

/// The first eight bytes of the digest as a number, which tells most CIDs apart; 0 where there are fewer.
#[tactic(auto, unfolding(crate::specs::Order::key_of))]
pub(crate) fn key_of(cid: &Cid) -> u64
    ensures { result ≡ key cid.now }
{
    match cid.digest().first_chunk::<8>() {
        Some(front) => u64::from_be_bytes(*front),
        None => 0,
    }
}

/// The name of each block.
pub(crate) fn names_of(alloc: Global, blocks: &[Block]) -> Mem<Vec<Name<'_>>>
    ensures { IfOk result (λ names. AreNames blocks.now names.items) }
{
    let mut names = Vec::with_capacity(alloc, blocks.len())?;
    for (place, block) in blocks.iter().enumerate() {
        names.push(name_of(block.cid(), place))?;
    }
    Ok(names)
}
