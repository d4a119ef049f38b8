ghost use Rattle.std.specs.Prelude.{◌≡◌, ◌≤◌, ◌<◌, ◌+◌, ◌-◌, ◌^◌, ◌++◌, ◌||◌, All, IfOk, OnOk, T, if◌then◌else◌, is_some, length, map, nat_lt};
ghost use Rattle.std.specs.FinMap.{entries};
ghost use Rattle.std.specs.FinMap.Entries.{is_sorted};
ghost use Rattle.std.specs.Option.{option_map};
ghost use Rattle.dag_cbor.specs.Spelling.{joined, spelled};
ghost use Rattle.dag_cbor.specs.declared.value.Value.TheVariants.{Link as link_to};
ghost use Rattle.tree_blocks.specs.NewBlocks.{IsNodeBlock};
ghost use Rattle.hamt_map.specs.Ahead.{pointer_text};
ghost use Rattle.hamt_map.specs.Canonical.{map_of};
ghost use Rattle.hamt_map.specs.Groups.{nodes_of, nodes_under, pointer_to, pointers_of};
ghost use Rattle.hamt_map.specs.HashOrder.{AreLent, ArePointers};
ghost use Rattle.hamt_map.specs.Holds.{FitNodes, Holds};
ghost use Rattle.hamt_map.specs.Kept.{IsKept, over};
ghost use Rattle.hamt_map.specs.KeptNode.{IsKeptGroup, IsKeptNode};
ghost use Rattle.hamt_map.specs.Lent.{lent_of};
ghost use Rattle.hamt_map.specs.Node.{bucket as bucket_of, hamt_nodes, hamt_root, node_block as block_at};
ghost use Rattle.hamt_map.specs.Omitted.{Adds, Omits};
ghost use Rattle.hamt_map.specs.Pairs.{Map, Pairs, key_cmp};

use crate::hashed::Hashed;
use crate::kept_bucket::{covers, over_bucket};
use crate::nodes::{DAG_CBOR, MAX_BELOW, put_group, put_pointer};
use crate::pairs::Spelled;
use crate::pointers::Pointers;
use crate::runs::first_run;
use crate::stepping::{is_link, linked, places_in};
use cid_core::{Block, BlockSource};
use dag_cbor::put_link;
use fil_base::{Bytes, Cid, Mem, NoMemory};
use std::alloc::Global;

/// The canonical root of the tree of pairs that lie over those of a tree in the base, and the blocks of its nodes without
/// some that the base holds: children before parents, by rising place.
pub(crate) fn nodes_over<B: BlockSource>(
    alloc: Global,
    base: &B,
    root: &Cid,
    pairs: &Spelled,
) -> Mem<(Cid, Vec<Block>)>
    ensures root { (own kept : Map) → Holds pairs.now own → IsKept (B.blocks base.now) root.now kept
        → IfOk result (λ r. r.0 ≡ hamt_root (over own kept)) }
    ensures nodes { (own kept : Map) → Holds pairs.now own → IsKept (B.blocks base.now) root.now kept
        → IfOk result (λ r. Omits (B.blocks base.now) r.1.items (hamt_nodes (over own kept))) }
    ensures cids { IfOk result (λ r. All IsNodeBlock r.1.items) }
{
    let Some(kept) = base.find(root) else {
        return Err(NoMemory);
    };
    let hashed = pairs.by_hash(alloc, MAX_BELOW)?;
    let mut nodes = Vec::new(alloc);
    let top = put_over(
        alloc,
        base,
        &mut nodes,
        MAX_BELOW,
        kept.bytes(),
        hashed.as_slice(),
    )?;
    let cid = top.cid().copy(alloc)?;
    nodes.push(top)?;
    Ok((cid, nodes))
}

/// Answers the block of the node of pairs that lie over those of a node that the base holds. It puts the nodes under it
/// behind those that are there, without some that the base holds.
#[cycle(rebuilding)]
pub(crate) fn put_over<B: BlockSource>(
    alloc: Global,
    base: &B,
    nodes: &mut Vec<Block>,
    below: u64,
    bytes: &[u8],
    pairs: &[Hashed],
) -> Mem<Block>
    requires { below ≤ 50 }
    ensures block { (ps old : Pairs) → AreLent below (map lent_of pairs.now) ps
        → IsKeptNode (B.blocks base.now) below bytes.now old
        → IfOk result (λ block. block ≡ block_at below (entries (map_of (ps ++ old)))) }
    ensures under { (ps old : Pairs) → AreLent below (map lent_of pairs.now) ps
        → IsKeptNode (B.blocks base.now) below bytes.now old
        → OnOk result (Adds (B.blocks base.now) nodes.old.items nodes.new.items
        (nodes_under below (entries (map_of (ps ++ old))))) }
    ensures cids { All IsNodeBlock nodes.old.items → OnOk result (All IsNodeBlock nodes.new.items) }
    ensures own { IfOk result IsNodeBlock }
{
    let pointers = put_pointers(alloc, base, nodes, below, bytes, pairs)?;
    let bytes = pointers.node(alloc)?;
    Block::of(alloc, DAG_CBOR, Bytes::of(bytes))
}

/// The pointers of that node. It puts the nodes under them behind those that are there.
#[cycle(rebuilding)]
fn put_pointers<B: BlockSource>(
    alloc: Global,
    base: &B,
    nodes: &mut Vec<Block>,
    below: u64,
    bytes: &[u8],
    pairs: &[Hashed],
) -> Mem<Pointers>
    requires { below ≤ 50 }
    ensures pointers { (ps old : Pairs) → AreLent below (map lent_of pairs.now) ps
        → IsKeptNode (B.blocks base.now) below bytes.now old
        → IfOk result (λ pointers. ArePointers below (entries (map_of (ps ++ old)))
        pointers.bits pointers.count pointers.spellings.items) }
    ensures under { (ps old : Pairs) → AreLent below (map lent_of pairs.now) ps
        → IsKeptNode (B.blocks base.now) below bytes.now old
        → OnOk result (Adds (B.blocks base.now) nodes.old.items nodes.new.items
        (nodes_under below (entries (map_of (ps ++ old))))) }
    ensures cids { All IsNodeBlock nodes.old.items → OnOk result (All IsNodeBlock nodes.new.items) }
{
    let Some(places) = places_in(bytes) else {
        return Err(NoMemory);
    };
    let mut pointers = Pointers::none(alloc)?;
    let mut ahead = places;
    let mut done = 0;
    for place in 0..32usize {
        let (_, rest) = pairs.split_at(done);
        let run = first_run(51 - below, place, rest);
        let Some((pointer, behind)) = ahead.step() else {
            return Err(NoMemory);
        };
        put_place(
            alloc,
            base,
            nodes,
            &mut pointers,
            below,
            place,
            pointer,
            run,
        )?;
        ahead = behind;
        done += run.len();
    }
    Ok(pointers)
}

/// Puts the pointer to the group at a place behind those that are there, if the group has pairs, and likewise its nodes:
/// that of pairs over those under a pointer that the node had there.
#[cycle(rebuilding)]
fn put_place<B: BlockSource>(
    alloc: Global,
    base: &B,
    nodes: &mut Vec<Block>,
    pointers: &mut Pointers,
    below: u64,
    place: usize,
    pointer: Option<&[u8]>,
    group: &[Hashed],
) -> Mem<()>
    requires levels { below ≤ 50 }
    requires place { place < 32 }
    requires bits { pointers.old.bits < 2 ^ place }
    requires count { pointers.old.count ≤ place }
    ensures bits { OnOk result (pointers.new.bits
        ≡ pointers.old.bits + (if is_some pointer.entry || nat_lt 0 (length group.now) then 2 ^ place else 0)) }
    ensures count { OnOk result (pointers.new.count
        ≡ pointers.old.count + (if is_some pointer.entry || nat_lt 0 (length group.now) then 1 else 0)) }
    ensures spellings { (ps old : Pairs) → AreLent (below - 1) (map lent_of group.now) ps
        → IsKeptGroup (B.blocks base.now) below old
        → option_map (λ p. p.now) pointer.entry ≡ pointer_text below old
        → OnOk result (pointers.new.spellings.items ≡ pointers.old.spellings.items
        ++ joined (map spelled (pointers_of below (entries (map_of (ps ++ old)))))) }
    ensures under { (ps old : Pairs) → AreLent (below - 1) (map lent_of group.now) ps
        → IsKeptGroup (B.blocks base.now) below old
        → option_map (λ p. p.now) pointer.entry ≡ pointer_text below old
        → OnOk result (Adds (B.blocks base.now) nodes.old.items nodes.new.items
        (nodes_of below (entries (map_of (ps ++ old))))) }
    ensures cids { All IsNodeBlock nodes.old.items → OnOk result (All IsNodeBlock nodes.new.items) }
{
    let Some(pointer) = pointer else {
        return put_group(alloc, nodes, pointers, below, place, group);
    };
    pointers.add(place);
    if group.is_empty() {
        pointers.spellings.extend_from_slice(pointer)?;
        return Ok(());
    }
    put_pointer_over(
        alloc,
        base,
        nodes,
        &mut pointers.spellings,
        below,
        pointer,
        group,
    )
}

/// Writes the pointer to a group of pairs over those under a pointer, likewise.
#[cycle(rebuilding)]
fn put_pointer_over<B: BlockSource>(
    alloc: Global,
    base: &B,
    nodes: &mut Vec<Block>,
    out: &mut Vec<u8>,
    below: u64,
    pointer: &[u8],
    group: &[Hashed],
) -> Mem<()>
    requires { below ≤ 50 }
    ensures text { (ps old : Pairs) → AreLent (below - 1) (map lent_of group.now) ps
        → IsKeptGroup (B.blocks base.now) below old
        → pointer.now ≡ spelled (pointer_to below old)
        → OnOk result (out.new.items
        ≡ out.old.items ++ spelled (pointer_to below (entries (map_of (ps ++ old))))) }
    ensures under { (ps old : Pairs) → AreLent (below - 1) (map lent_of group.now) ps
        → IsKeptGroup (B.blocks base.now) below old
        → pointer.now ≡ spelled (pointer_to below old)
        → OnOk result (Adds (B.blocks base.now) nodes.old.items nodes.new.items
        (nodes_of below (entries (map_of (ps ++ old))))) }
    ensures cids { All IsNodeBlock nodes.old.items → OnOk result (All IsNodeBlock nodes.new.items) }
{
    if is_link(pointer) {
        put_link_over(alloc, base, nodes, out, below, pointer, group)
    } else {
        put_bucket_over(alloc, nodes, out, below, pointer, group)
    }
}

/// Writes the pointer to a group of pairs over those of a bucket, likewise.
fn put_bucket_over(
    alloc: Global,
    nodes: &mut Vec<Block>,
    out: &mut Vec<u8>,
    below: u64,
    bucket: &[u8],
    group: &[Hashed],
) -> Mem<()>
    requires { below ≤ 50 }
    ensures text { (ps old : Pairs) → AreLent (below - 1) (map lent_of group.now) ps
        → FitNodes old → T (is_sorted key_cmp old) → bucket.now ≡ spelled (bucket_of old)
        → OnOk result (out.new.items
        ≡ out.old.items ++ spelled (pointer_to below (entries (map_of (ps ++ old))))) }
    ensures under { (ps old : Pairs) → AreLent (below - 1) (map lent_of group.now) ps
        → FitNodes old → T (is_sorted key_cmp old) → bucket.now ≡ spelled (bucket_of old)
        → OnOk result (nodes.new.items
        ≡ nodes.old.items ++ nodes_of below (entries (map_of (ps ++ old)))) }
    ensures cids { All IsNodeBlock nodes.old.items → OnOk result (All IsNodeBlock nodes.new.items) }
{
    if covers(group, bucket) {
        return put_pointer(alloc, nodes, out, below, group);
    }
    let both = over_bucket(alloc, below.saturating_sub(1), group, bucket)?;
    put_pointer(alloc, nodes, out, below, both.as_slice())
}

/// Writes the pointer to a group of pairs over those under a link, likewise.
#[cycle(rebuilding)]
fn put_link_over<B: BlockSource>(
    alloc: Global,
    base: &B,
    nodes: &mut Vec<Block>,
    out: &mut Vec<u8>,
    below: u64,
    link: &[u8],
    group: &[Hashed],
) -> Mem<()>
    requires { below ≤ 50 }
    ensures text { (ps old : Pairs) → AreLent (below - 1) (map lent_of group.now) ps
        → IsKeptGroup (B.blocks base.now) below old → 3 < length old
        → link.now ≡ spelled (link_to (block_at (below - 1) old).cid)
        → OnOk result (out.new.items
        ≡ out.old.items ++ spelled (pointer_to below (entries (map_of (ps ++ old))))) }
    ensures under { (ps old : Pairs) → AreLent (below - 1) (map lent_of group.now) ps
        → IsKeptGroup (B.blocks base.now) below old → 3 < length old
        → link.now ≡ spelled (link_to (block_at (below - 1) old).cid)
        → OnOk result (Adds (B.blocks base.now) nodes.old.items nodes.new.items
        (nodes_of below (entries (map_of (ps ++ old))))) }
    ensures cids { All IsNodeBlock nodes.old.items → OnOk result (All IsNodeBlock nodes.new.items) }
{
    if below == 0 {
        return Err(NoMemory);
    }
    let child = linked(alloc, link)?;
    let Some(kept) = base.find(&child) else {
        return Err(NoMemory);
    };
    let block = put_over(alloc, base, nodes, below - 1, kept.bytes(), group)?;
    put_link(out, block.cid())?;
    nodes.push(block)?;
    Ok(())
}
