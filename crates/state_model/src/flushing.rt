ghost use Rattle.std.specs.Prelude.{◌≡◌, ◌++◌, IfOk, List, OnOk, filter, is_some, not};
ghost use Rattle.cid_core.specs.BlockParts.{BlockParts, found};
ghost use Rattle.init_names.specs.Names.{init_head};
ghost use Rattle.state_model.specs.Stands.{StandFor};
ghost use Rattle.state_model.specs.State.{State, flushed, init_of, state_nodes, state_root, with_init_head};
ghost use Rattle.state_tree.specs.Stands.{Stands};
ghost use Rattle.tree_blocks.specs.NewBlocks.{new_blocks};

use cid_core::{Block, BlockSource};
use fil_base::{ActorId, Cid, Mem, Row};
use init_names::Names;
use state_tree::StateTree;

/// The number of the init actor.
const INIT: u64 = 1;

/// The root of the state that a tree of actors and names stand for, and its blocks that the base does not hold, each
/// once: the nodes of the names' tree, the init actor's state, the nodes of the actors' tree, the root's block. The init
/// actor gets its state as head.
pub fn flush_state<B: BlockSource>(
    base: &B,
    tree: &mut StateTree,
    names: &mut Names,
) -> Mem<(Cid, Row<Block>)>
    ensures root { (s : State) → StandFor tree.old names.old (B.blocks base.now) s → IfOk result (λ r. r.0 ≡ state_root s) }
    ensures nodes { (s : State) → StandFor tree.old names.old (B.blocks base.now) s
        → IfOk result (λ r. r.1 ≡ new_blocks (B.blocks base.now) (state_nodes s)) }
    ensures after { (s : State) → StandFor tree.old names.old (B.blocks base.now) s
        → OnOk result (StandFor tree.new names.new (B.blocks base.now) (flushed s)) }
{
    let (head, of_names) = names.flush(base)?;
    put_init_head(base, tree, head)?;
    let (root, of_actors) = tree.flush(base)?;
    let mut new = of_names.into_vec();
    put_all_new(&mut new, of_actors)?;
    Ok((root, Row::of(new)))
}

/// Makes a CID the head of the init actor, if there is one.
fn put_init_head<B: BlockSource>(base: &B, tree: &mut StateTree, head: Cid) -> Mem<()>
    ensures { (s : State) → Stands tree.old (B.blocks base.now) s.actors s.info → head ≡ init_head (init_of s)
        → OnOk result (Stands tree.new (B.blocks base.now) (with_init_head s) s.info) }
{
    let id = init_id();
    if let Some(mut actor) = tree.actor(base, id)? {
        actor.head = head;
        tree.put_actor(base, id, actor)?;
    }
    Ok(())
}

/// The ID of the init actor.
fn init_id() -> ActorId
    ensures { result ≡ 1 }
{
    ActorId::new(INIT).unwrap()
}

/// Puts behind the new blocks of some trees those of others that are not among them. A block is known by its CID, and is
/// compared with each that was there.
pub fn put_all_new(new: &mut Vec<Block>, blocks: Row<Block>) -> Mem<()>
    ensures { (held first second : List BlockParts)
        → new.old.items ≡ new_blocks held first → blocks ≡ new_blocks held second
        → OnOk result (new.new.items ≡ new_blocks held (first ++ second)) }
{
    let mut others = blocks.into_vec();
    keep_others(&mut others, new);
    new.append(&mut others)?;
    Ok(())
}

/// Takes out the blocks whose CIDs are among those of others.
fn keep_others(blocks: &mut Vec<Block>, others: &[Block])
    ensures { blocks.new.items ≡ filter (λ b. not (is_some (found others.now b.cid))) blocks.old.items }
{
    blocks.retain(|block| !has_cid(others, block.cid()));
}

/// Whether one of the blocks has the CID.
fn has_cid(blocks: &[Block], cid: &Cid) -> bool
    ensures { result ≡ is_some (found blocks.now cid.now) }
{
    for block in blocks {
        if block.cid() == cid {
            return true;
        }
    }
    false
}
