ghost use Rattle.std.specs.Prelude.{◌≡◌, ◌≤◌, ◌&&◌, ℕ, IfErr, IfOk, IsTrue};
ghost use Rattle.std.specs.FinMap.{from_entries};
ghost use Rattle.dag_cbor.specs.Spelling.{spelled};
ghost use Rattle.amt_map.specs.Canonical.{IsReadRoot, has_numbers as are_numbers, is_node_cid as is_name_of_node};
ghost use Rattle.amt_map.specs.Holds.{Holds, spellings};
ghost use Rattle.amt_map.specs.Loading.{IsFaultOf};
ghost use Rattle.amt_map.specs.Node.{height_of as tree_height, node as node_at};
ghost use Rattle.amt_map.specs.OneNode.{IsOneNode};
ghost use Rattle.amt_map.specs.Pairs.{Map, Pairs};
ghost use Rattle.amt_map.specs.Reading.{AreSpelled, shown};
ghost use Rattle.amt_map.specs.Walk.{judged, judged_root};

use crate::nodes::{DAG_CBOR, node_block, root_block};
use crate::pairs::Spelled;
use crate::runs::height_of_index;
use cid_core::Block;
use fil_base::{Cid, Failure, Mem};
use std::alloc::Global;
use tree_blocks::TreeFault;

/// The code of BLAKE2b-256 (multicodec).
const BLAKE2B_256: u64 = 0xb220;

/// Judges a node at a height: it is the one of the pairs under it. A full node, all of whose children have pairs, has
/// the right bytes, so that only its CID is judged.
pub(crate) fn judge(
    alloc: Global,
    height: u64,
    block: &Block,
    full: bool,
    pairs: &[(u64, Vec<u8>)],
) -> Result<(), Failure<TreeFault>>
    requires height { height ≤ 19 }
    requires node { (place : ℕ) × IsOneNode height place (shown pairs.now) }
    ensures found { (those : Pairs) → shown pairs.now ≡ spellings those
        → (IsTrue full → block.now.bytes ≡ spelled (node_at height those))
        → IfOk result (λ _. judged height block.now those ≡ Ok those) }
    ensures fault { (those : Pairs) → shown pairs.now ≡ spellings those
        → IfErr result (IsFaultOf (judged height block.now those)) }
{
    if has_node_form(full, block.cid()) {
        return Ok(());
    }
    judge_anew(alloc, height, block, pairs)
}

/// Judges a node at a height, by building the one of the pairs under it.
fn judge_anew(
    alloc: Global,
    height: u64,
    block: &Block,
    pairs: &[(u64, Vec<u8>)],
) -> Result<(), Failure<TreeFault>>
    requires height { height ≤ 19 }
    requires node { (place : ℕ) × IsOneNode height place (shown pairs.now) }
    ensures found { (those : Pairs) → shown pairs.now ≡ spellings those
        → IfOk result (λ _. judged height block.now those ≡ Ok those) }
    ensures fault { (those : Pairs) → shown pairs.now ≡ spellings those
        → IfErr result (IsFaultOf (judged height block.now those)) }
{
    let node = node_block(alloc, height, pairs)?;
    if node.cid() == block.cid() && node.bytes() == block.bytes() {
        Ok(())
    } else {
        Err(TreeFault::not_canonical(alloc, block.cid(), node.cid()))
    }
}

/// Judges a root of a height and a count: it is the one of the map of the pairs under it. If its node is full, the node
/// has the right bytes.
pub(crate) fn judge_root(
    alloc: Global,
    block: &Block,
    height: u64,
    count: u128,
    full: bool,
    pairs: Vec<(u64, Vec<u8>)>,
) -> Result<Spelled, Failure<TreeFault>>
    requires spelled { (those : Pairs) × AreSpelled (shown pairs.items) those }
    requires node { IsOneNode 19 0 (shown pairs.items) }
    ensures found { (those : Pairs) → IsReadRoot block.now height count full (shown pairs.items) those
        → IfOk result (λ map. (judged_root block.now (from_entries those) ≡ Ok (from_entries those))
        × Holds map (from_entries those)) }
    ensures fault { (those : Pairs) → AreSpelled (shown pairs.items) those
        → IfErr result (IsFaultOf (judged_root block.now (from_entries those))) }
{
    let canonical = has_root_form(full, block.cid(), height, count, pairs.as_slice());
    let map = map_of(alloc, pairs)?;
    if canonical {
        return Ok(map);
    }
    judge_root_anew(alloc, block, map)
}

/// Judges a root, by building the one of the map under it.
fn judge_root_anew(
    alloc: Global,
    block: &Block,
    pairs: Spelled,
) -> Result<Spelled, Failure<TreeFault>>
    ensures found { (m : Map) → Holds pairs m
        → IfOk result (λ same. (judged_root block.now m ≡ Ok m) × Holds same m) }
    ensures fault { (m : Map) → Holds pairs m → IfErr result (IsFaultOf (judged_root block.now m)) }
{
    let root = root_block(alloc, &pairs)?;
    if root.cid() == block.cid() && root.bytes() == block.bytes() {
        Ok(pairs)
    } else {
        Err(TreeFault::not_canonical(alloc, block.cid(), root.cid()))
    }
}

/// Whether a node that has the right bytes if it is full is canonical under a CID.
fn has_node_form(full: bool, cid: &Cid) -> bool
    ensures { result ≡ (full && is_name_of_node cid.now) }
{
    full && is_node_cid(cid)
}

/// Whether a root of a height and a count, whose node has the right bytes if it is full, is canonical under a CID.
fn has_root_form(full: bool, cid: &Cid, height: u64, count: u128, pairs: &[(u64, Vec<u8>)]) -> bool
    requires { IsOneNode 19 0 (shown pairs.now) }
    ensures { result ≡ ((full && is_name_of_node cid.now) && are_numbers height count (shown pairs.now)) }
{
    has_node_form(full, cid) && has_numbers(height, count, pairs)
}

/// Whether a CID has the codec and the hash of a node.
fn is_node_cid(cid: &Cid) -> bool
    ensures { result ≡ is_name_of_node cid.now }
{
    cid.codec() == DAG_CBOR && cid.hash() == BLAKE2B_256
}

/// Whether a height and a count are those of pairs.
fn has_numbers(height: u64, count: u128, pairs: &[(u64, Vec<u8>)]) -> bool
    requires { IsOneNode 19 0 (shown pairs.now) }
    ensures { result ≡ are_numbers height count (shown pairs.now) }
{
    count == pairs.len() as u128 && height == last_height(pairs)
}

/// The height of the tree of pairs.
fn last_height(pairs: &[(u64, Vec<u8>)]) -> u64
    requires { IsOneNode 19 0 (shown pairs.now) }
    ensures { result ≡ tree_height (shown pairs.now) }
{
    match pairs.last() {
        None => 0,
        Some(pair) => height_of_index(pair.0),
    }
}

/// The map of pairs.
pub(crate) fn map_of(alloc: Global, pairs: Vec<(u64, Vec<u8>)>) -> Mem<Spelled>
    requires { (those : Pairs) × AreSpelled (shown pairs.items) those }
    ensures { (those : Pairs) → AreSpelled (shown pairs.items) those
        → IfOk result (λ map. Holds map (from_entries those)) }
{
    let mut pairs = pairs;
    let mut map = Spelled::empty(alloc);
    while let Some((index, spelling)) = pairs.pop() {
        map.insert_spelling(index, spelling)?;
    }
    Ok(map)
}
