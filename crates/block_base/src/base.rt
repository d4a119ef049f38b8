ghost use Rattle.std.specs.Prelude.{◌≡◌, IfOk, is_some, length, slice_get};
ghost use Rattle.std.specs.Option.{option_copied};
ghost use Rattle.cid_core.specs.BlockParts.{block_of, found};
ghost use Rattle.block_base.specs.Base.{base_of, empty_list as no_items};

use crate::index::{Entry, find_first, index_of};
use cid_core::{Block, BlockSource};
use fil_base::{Bytes, Cid, Mem, Row};
use std::alloc::Global;
use std::marker::Model;

/// The blocks of one file, found by their CID.
#[derive(Debug, Drop)]
pub struct Base {
    blocks: Vec<Block>,
    index: Vec<Entry>,
}

impl Model for Base {
    ghost use Rattle.std.specs.Prelude.{List};
    ghost use Rattle.cid_core.specs.BlockParts.{BlockParts};
    ghost use Rattle.block_base.specs.Index.{IsIndex};

    ghost Value = { List BlockParts };

    ghost view = { λ base. base.blocks.items };

    ghost invariant = { λ base. IsIndex base.blocks.items base.index.items };
}

impl Base {
    /// The blocks in their order, followed by the DAG-CBOR block of the empty list, `80`, where no block has its CID.
    pub fn of(alloc: Global, blocks: Row<Block>) -> Mem<Base>
        ensures { IfOk result (λ base. base ≡ base_of blocks) }
    {
        let empty_list = empty_list(alloc)?;
        let mut blocks = blocks.into_vec();
        if !holds(&blocks, empty_list.cid()) {
            blocks.push(empty_list)?;
        }
        let index = index_of(alloc, &blocks)?;
        Ok(Base { blocks, index })
    }

    /// How many blocks.
    pub fn count(&self) -> usize
        ensures { result ≡ length self.now }
    {
        self.blocks.len()
    }

    /// The block at a place; none if and only if the place is not below the count.
    pub fn at(&self, at: usize) -> Option<&Block>
        ensures { option_copied result ≡ slice_get self.now at }
    {
        self.blocks.get(at)
    }

    /// The first block under the CID among those given to [`Base::of`], the added one included.
    pub fn code(&self, cid: &Cid) -> Option<&Block>
        ensures { option_copied result ≡ found self.now cid.now }
    {
        let Base { blocks, index } = self;
        find_first(blocks, index, cid)
    }
}

impl BlockSource for Base {
    ghost blocks = { λ base. base };

    fn find(&self, cid: &Cid) -> Option<&Block> {
        self.code(cid)
    }
}

// The DAG-CBOR block (code 71) of the empty list.
fn empty_list(alloc: Global) -> Mem<Block>
    ensures { IfOk result (λ block. block ≡ no_items) }
{
    let bytes = Bytes::copy_of(alloc, &[0x80])?;
    Block::of(alloc, 0x71, bytes)
}

// Whether a block has the CID.
fn holds(blocks: &[Block], cid: &Cid) -> bool
    ensures { result ≡ is_some (found blocks.now cid.now) }
{
    for block in blocks {
        if block.cid() == cid {
            return true;
        }
    }
    false
}
