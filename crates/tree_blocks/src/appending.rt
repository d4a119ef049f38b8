ghost use Rattle.std.specs.Prelude.{◌≡◌, ◌++◌, ◌∷◌, [], List, OnErr, OnOk, if◌then◌else◌, is_some};
ghost use Rattle.cid_core.specs.BlockParts.{BlockParts, found};
ghost use Rattle.tree_blocks.specs.NewBlocks.{new_blocks};

use cid_core::{Block, BlockSource};
use fil_base::{Cid, Mem};

/// Puts a block behind the new ones, if neither they nor the base have its CID.
pub fn put_new<B: BlockSource>(base: &B, new: &mut Vec<Block>, block: Block) -> Mem<()>
    ensures after { OnOk result (new.new.items
        ≡ (if is_some (found (B.blocks base.now ++ new.old.items) block.cid) then new.old.items
        else new.old.items ++ block ∷ [])) }
    ensures unchanged { OnErr result (new.new.items ≡ new.old.items) }
    // The new blocks of a list become those of the list with the block behind it.
    ensures new { (blocks : List BlockParts) → new.old.items ≡ new_blocks (B.blocks base.now) blocks
        → OnOk result (new.new.items ≡ new_blocks (B.blocks base.now) (blocks ++ block ∷ [])) }
{
    if is_there(base, new, block.cid()) {
        return Ok(());
    }
    new.push(block)?;
    Ok(())
}

/// Whether the base or the new blocks have the CID.
fn is_there<B: BlockSource>(base: &B, new: &[Block], cid: &Cid) -> bool
    ensures { result ≡ is_some (found (B.blocks base.now ++ new.now) cid.now) }
{
    if base.find(cid).is_some() {
        return true;
    }
    holds(new, cid)
}

/// Whether one of the blocks has the CID.
fn holds(blocks: &[Block], cid: &Cid) -> bool
    ensures { result ≡ is_some (found blocks.now cid.now) }
{
    for block in blocks {
        if block.cid() == cid {
            return true;
        }
    }
    false
}
