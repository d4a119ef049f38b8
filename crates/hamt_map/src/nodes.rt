ghost use Rattle.std.specs.Prelude.{◌≡◌, ◌≤◌, ◌<◌, ◌+◌, ◌-◌, ◌^◌, ◌++◌, ◌==◌, ◌||◌, All, IfOk, OnOk, if◌then◌else◌, length, map, nat_le, nat_lt};
ghost use Rattle.std.specs.FinMap.{entries};
ghost use Rattle.dag_cbor.specs.Spelling.{joined, spelled};
ghost use Rattle.tree_blocks.specs.NewBlocks.{IsNodeBlock};
ghost use Rattle.hamt_map.specs.Canonical.{map_of};
ghost use Rattle.hamt_map.specs.Groups.{nodes_of, nodes_under, pointer_to, pointers_of};
ghost use Rattle.hamt_map.specs.HashOrder.{AreLent, ArePointers};
ghost use Rattle.hamt_map.specs.Lent.{lent_of};
ghost use Rattle.hamt_map.specs.Node.{hamt_nodes, hamt_root, node_block as block_at};
ghost use Rattle.hamt_map.specs.Pairs.{Map, Pairs};
ghost use Rattle.hamt_map.specs.Holds.{Holds};

use crate::buckets::put_bucket;
use crate::hashed::Hashed;
use crate::pairs::Spelled;
use crate::pointers::Pointers;
use crate::runs::first_run;
use cid_core::Block;
use dag_cbor::put_link;
use fil_base::{Bytes, Cid, Mem};
use std::alloc::Global;

/// The codec of DAG-CBOR (multicodec).
pub(crate) const DAG_CBOR: u64 = 0x71;

/// How many levels are below the root.
pub(crate) const MAX_BELOW: u64 = 50;

/// The greatest number of pairs that stand in a bucket on a level that is not the last.
pub(crate) const BUCKET_SIZE: usize = 3;

/// The block of the node of these pairs that has so many levels below.
pub(crate) fn node_block(alloc: Global, below: u64, pairs: &Spelled) -> Mem<Block>
    requires { below ≤ 50 }
    ensures { (m : Map) → Holds pairs.now m → IfOk result (λ block. block ≡ block_at below (entries m)) }
{
    let hashed = pairs.by_hash(alloc, below)?;
    let mut under = Vec::new(alloc);
    put_under(alloc, &mut under, below, hashed.as_slice())
}

/// The canonical root of the tree of these pairs, and the blocks of all its nodes: children before parents, by rising
/// place.
pub(crate) fn all_nodes(alloc: Global, pairs: &Spelled) -> Mem<(Cid, Vec<Block>)>
    ensures root { (m : Map) → Holds pairs.now m → IfOk result (λ r. r.0 ≡ hamt_root m) }
    ensures nodes { (m : Map) → Holds pairs.now m → IfOk result (λ r. r.1.items ≡ hamt_nodes m) }
    ensures cids { IfOk result (λ r. All IsNodeBlock r.1.items) }
{
    let hashed = pairs.by_hash(alloc, MAX_BELOW)?;
    let mut nodes = Vec::new(alloc);
    let root = put_under(alloc, &mut nodes, MAX_BELOW, hashed.as_slice())?;
    let cid = root.cid().copy(alloc)?;
    nodes.push(root)?;
    Ok((cid, nodes))
}

/// Puts the nodes under the node of these pairs behind those that are there, and answers the node's own block.
#[cycle(building)]
fn put_under(alloc: Global, nodes: &mut Vec<Block>, below: u64, pairs: &[Hashed]) -> Mem<Block>
    requires { below ≤ 50 }
    ensures block { (ps : Pairs) → AreLent below (map lent_of pairs.now) ps
        → IfOk result (λ block. block ≡ block_at below (entries (map_of ps))) }
    ensures under { (ps : Pairs) → AreLent below (map lent_of pairs.now) ps
        → OnOk result (nodes.new.items ≡ nodes.old.items ++ nodes_under below (entries (map_of ps))) }
    ensures cids { All IsNodeBlock nodes.old.items → OnOk result (All IsNodeBlock nodes.new.items) }
    ensures own { IfOk result IsNodeBlock }
{
    let pointers = put_pointers(alloc, nodes, below, pairs)?;
    let bytes = pointers.node(alloc)?;
    Block::of(alloc, DAG_CBOR, Bytes::of(bytes))
}

/// The pointers of the node of these pairs. It puts their nodes behind those that are there.
#[cycle(building)]
fn put_pointers(
    alloc: Global,
    nodes: &mut Vec<Block>,
    below: u64,
    pairs: &[Hashed],
) -> Mem<Pointers>
    requires { below ≤ 50 }
    ensures pointers { (ps : Pairs) → AreLent below (map lent_of pairs.now) ps
        → IfOk result (λ pointers. ArePointers below (entries (map_of ps)) pointers.bits pointers.count pointers.spellings.items) }
    ensures under { (ps : Pairs) → AreLent below (map lent_of pairs.now) ps
        → OnOk result (nodes.new.items ≡ nodes.old.items ++ nodes_under below (entries (map_of ps))) }
    ensures cids { All IsNodeBlock nodes.old.items → OnOk result (All IsNodeBlock nodes.new.items) }
{
    let mut pointers = Pointers::none(alloc)?;
    let mut done = 0;
    for place in 0..32usize {
        let (_, rest) = pairs.split_at(done);
        let run = first_run(51 - below, place, rest);
        put_group(alloc, nodes, &mut pointers, below, place, run)?;
        done += run.len();
    }
    Ok(pointers)
}

/// Puts the pointer to the group at a place behind those that are there, if the group has pairs, and likewise its nodes.
#[cycle(building)]
pub(crate) fn put_group(
    alloc: Global,
    nodes: &mut Vec<Block>,
    pointers: &mut Pointers,
    below: u64,
    place: usize,
    group: &[Hashed],
) -> Mem<()>
    requires levels { below ≤ 50 }
    requires place { place < 32 }
    requires bits { pointers.old.bits < 2 ^ place }
    requires count { pointers.old.count ≤ place }
    ensures bits { OnOk result (pointers.new.bits
        ≡ pointers.old.bits + (if nat_lt 0 (length group.now) then 2 ^ place else 0)) }
    ensures count { OnOk result (pointers.new.count
        ≡ pointers.old.count + (if nat_lt 0 (length group.now) then 1 else 0)) }
    ensures spellings { (ps : Pairs) → AreLent (below - 1) (map lent_of group.now) ps
        → OnOk result (pointers.new.spellings.items
        ≡ pointers.old.spellings.items ++ joined (map spelled (pointers_of below (entries (map_of ps))))) }
    ensures under { (ps : Pairs) → AreLent (below - 1) (map lent_of group.now) ps
        → OnOk result (nodes.new.items ≡ nodes.old.items ++ nodes_of below (entries (map_of ps))) }
    ensures cids { All IsNodeBlock nodes.old.items → OnOk result (All IsNodeBlock nodes.new.items) }
{
    if group.is_empty() {
        return Ok(());
    }
    pointers.add(place);
    put_pointer(alloc, nodes, &mut pointers.spellings, below, group)
}

/// Writes the pointer to a group. It puts the group's nodes behind those that are there.
#[cycle(building)]
pub(crate) fn put_pointer(
    alloc: Global,
    nodes: &mut Vec<Block>,
    out: &mut Vec<u8>,
    below: u64,
    group: &[Hashed],
) -> Mem<()>
    requires { below ≤ 50 }
    ensures text { (ps : Pairs) → AreLent (below - 1) (map lent_of group.now) ps
        → OnOk result (out.new.items ≡ out.old.items ++ spelled (pointer_to below (entries (map_of ps)))) }
    ensures under { (ps : Pairs) → AreLent (below - 1) (map lent_of group.now) ps
        → OnOk result (nodes.new.items ≡ nodes.old.items ++ nodes_of below (entries (map_of ps))) }
    ensures cids { All IsNodeBlock nodes.old.items → OnOk result (All IsNodeBlock nodes.new.items) }
{
    if stands_in_bucket(below, group.len()) {
        return put_bucket(alloc, out, group);
    }
    let block = put_under(alloc, nodes, below - 1, group)?;
    put_link(out, block.cid())?;
    nodes.push(block)?;
    Ok(())
}

/// Whether a group of so many pairs, below whose node there are so many levels, stands in a bucket.
fn stands_in_bucket(below: u64, len: usize) -> bool
    ensures { result ≡ (below == 0 || nat_le len 3) }
{
    below == 0 || len <= BUCKET_SIZE
}
