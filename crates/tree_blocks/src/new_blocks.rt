ghost use Rattle.std.specs.Prelude.{◌≡◌, ◌++◌, ◌∷◌, [], All, List, IfOk, IfSome, OnOk, is_some, if◌then◌else◌};
ghost use Rattle.cid_core.specs.BlockParts.{BlockParts, found};
ghost use Rattle.tree_blocks.specs.NewBlocks.{AreDigests, IsNodeBlock, new_blocks, node_cid};

use cid_core::{Block, BlockSource};
use fil_base::{Cid, Mem, NoMemory, Row};
use std::alloc::Global;
use std::collections::BTreeSet;

/// The nodes that the base does not hold, each once, in their order.
pub fn new_of<B: BlockSource>(alloc: Global, base: &B, nodes: Vec<Block>) -> Mem<Row<Block>>
    requires { All IsNodeBlock nodes.items }
    ensures { IfOk result (λ new. new ≡ new_blocks (B.blocks base.now) nodes.items) }
{
    let mut seen = BTreeSet::new(alloc);
    let mut new = Vec::new(alloc);
    for node in nodes {
        put_new(base, &mut seen, &mut new, node)?;
    }
    Ok(Row::of(new))
}

/// Puts a node behind the new ones, if neither they nor the base have it. `seen` has the digests of the new ones.
fn put_new<B: BlockSource>(
    base: &B,
    seen: &mut BTreeSet<[u8; 32]>,
    new: &mut Vec<Block>,
    node: Block,
) -> Mem<()>
    requires seen { AreDigests seen.old.keys new.old.items }
    requires node { IsNodeBlock node }
    ensures after { OnOk result (new.new.items
        ≡ (if is_some (found (B.blocks base.now ++ new.old.items) node.cid) then new.old.items
        else new.old.items ++ node ∷ [])) }
    ensures seen { OnOk result (AreDigests seen.new.keys new.new.items) }
{
    let Some(digest) = digest_of(node.cid()) else {
        return Err(NoMemory);
    };
    if is_held(base, seen, node.cid(), &digest) {
        return Ok(());
    }
    seen.insert(digest)?;
    new.push(node)?;
    Ok(())
}

/// The digest of a node's CID, which has 32 bytes.
fn digest_of(cid: &Cid) -> Option<[u8; 32]>
    ensures { IfSome result (λ digest. digest ≡ cid.now.digest) }
{
    cid.digest().try_into().ok()
}

/// Whether the base or the nodes with these digests have the CID of a node, whose digest is this.
fn is_held<B: BlockSource>(
    base: &B,
    seen: &BTreeSet<[u8; 32]>,
    cid: &Cid,
    digest: &[u8; 32],
) -> bool
    requires node { cid.now ≡ node_cid cid.now.digest }
    requires digest { digest.now ≡ cid.now.digest }
    ensures { (nodes : List BlockParts) → AreDigests seen.now.keys nodes
        → result ≡ is_some (found (B.blocks base.now ++ nodes) cid.now) }
{
    if base.find(cid).is_some() {
        return true;
    }
    seen.contains(digest)
}
