ghost use Rattle.std.specs.Prelude.{◌≡◌, ◌≤◌, ◌<◌, ◌+◌, ◌*◌, ◌^◌, ◌&&◌, ℕ, suc, All, IfErr, IfOk, IsTrue, OnOk, nat_lt};
ghost use Rattle.fil_base.specs.Failure.{IfFault};
ghost use Rattle.amt_map.specs.Holds.{Holds};
ghost use Rattle.amt_map.specs.Loading.{ArePut, HasPairs, IsFaultOf, IsNodeOf, block_value, child_pairs};
ghost use Rattle.amt_map.specs.Pairs.{Map};
ghost use Rattle.amt_map.specs.Reading.{shown};
ghost use Rattle.amt_map.specs.ValueBytes.{IsOneValue, the_value};
ghost use Rattle.amt_map.specs.Walk.{amt_at, gathered, inner_of, inner_pairs, leaf_of, leaf_pairs, node_pairs, parts_in};
ghost use Rattle.tree_blocks.specs.Forms.{if_some};

use crate::judging::{judge, judge_root};
use crate::node_form::{ReadRoot, inner_in, leaf_in, root_in};
use crate::pairs::Spelled;
use crate::value_bytes::is_one_value;
use cid_core::{Block, BlockSource};
use fil_base::{Cid, Failure};
use std::alloc::Global;
use tree_blocks::TreeFault;

/// The pairs of the tree under a root.
pub(crate) fn load_pairs<B: BlockSource>(
    alloc: Global,
    base: &B,
    root: &Cid,
) -> Result<Spelled, Failure<TreeFault>>
    ensures found { IfOk result (λ pairs.
        (m : Map) × (amt_at (B.blocks base.now) root.now ≡ Ok m) × Holds pairs m) }
    ensures fault { IfErr result (λ failure. IfFault failure (λ fault.
        amt_at (B.blocks base.now) root.now ≡ Err fault)) }
{
    let block = value_under(alloc, base, root)?;
    let Some(read) = root_in(alloc, block.bytes())? else {
        return Err(TreeFault::no_node(alloc, root));
    };
    let ReadRoot {
        height,
        count,
        node,
    } = read;
    let mut pairs = Vec::new(alloc);
    let full = put_pairs(alloc, base, &mut pairs, height, root, 0, node)?;
    judge_root(alloc, block, height, count, full, pairs)
}

/// The block under a CID, whose bytes spell a value.
fn value_under<'a, B: BlockSource>(
    alloc: Global,
    base: &'a B,
    cid: &Cid,
) -> Result<&'a Block, Failure<TreeFault>>
    ensures found { IfOk result (λ block.
        block_value (B.blocks base.now) cid.now ≡ Ok (block.now, the_value block.now.bytes)) }
    ensures value { IfOk result (λ block. IsOneValue block.now.bytes) }
    ensures fault { IfErr result (IsFaultOf (block_value (B.blocks base.now) cid.now)) }
{
    let Some(block) = base.find(cid) else {
        return Err(TreeFault::missing(alloc, cid));
    };
    if !is_one_value(block.bytes()) {
        return Err(TreeFault::no_node(alloc, cid));
    }
    Ok(block)
}

/// Puts the pairs of the node that a value is, in the block under a CID, behind those that are there. The node's height
/// and its first index are given. It answers whether the node is full: all its children have pairs.
#[cycle(walking)]
fn put_pairs<B: BlockSource>(
    alloc: Global,
    base: &B,
    pairs: &mut Vec<(u64, Vec<u8>)>,
    height: u64,
    cid: &Cid,
    from: u64,
    node: &[u8],
) -> Result<bool, Failure<TreeFault>>
    requires height { height ≤ 19 }
    requires from { from + 8 ^ suc height ≤ 2 ^ 60 }
    requires place { (place : ℕ) × (from ≡ place * 8 ^ suc height) }
    requires value { IsOneValue node.now }
    ensures found { OnOk result (ArePut (node_pairs (B.blocks base.now) height cid.now from (the_value node.now))
        (shown pairs.old.items) (shown pairs.new.items)) }
    ensures node { IfOk result (λ full. IsTrue full → IsNodeOf height (the_value node.now)
        (node_pairs (B.blocks base.now) height cid.now from (the_value node.now))) }
    ensures fault { IfErr result (IsFaultOf (node_pairs (B.blocks base.now) height cid.now from (the_value node.now))) }
{
    if height == 0 {
        put_leaf(alloc, pairs, cid, from, node)
    } else {
        put_inner(alloc, base, pairs, height - 1, cid, from, node)
    }
}

/// Puts the pairs of a node at height 0 behind those that are there. It answers that the node is full.
fn put_leaf(
    alloc: Global,
    pairs: &mut Vec<(u64, Vec<u8>)>,
    cid: &Cid,
    from: u64,
    node: &[u8],
) -> Result<bool, Failure<TreeFault>>
    requires from { from + 8 ≤ 2 ^ 60 }
    requires place { (place : ℕ) × (from ≡ place * 8) }
    requires value { IsOneValue node.now }
    ensures found { OnOk result (ArePut (leaf_pairs cid.now from (if_some (parts_in (the_value node.now)) leaf_of))
        (shown pairs.old.items) (shown pairs.new.items)) }
    ensures node { IfOk result (λ full. IsTrue full → IsNodeOf 0 (the_value node.now)
        (leaf_pairs cid.now from (if_some (parts_in (the_value node.now)) leaf_of))) }
    ensures fault { IfErr result (IsFaultOf (leaf_pairs cid.now from (if_some (parts_in (the_value node.now)) leaf_of))) }
{
    let Some(values) = leaf_in(alloc, node)? else {
        return Err(TreeFault::no_node(alloc, cid));
    };
    for (digit, spelling) in values {
        pairs.push((from + digit, spelling))?;
    }
    Ok(true)
}

/// Puts the pairs under a node with children at a height behind those that are there. It answers whether the node is
/// full.
#[cycle(walking)]
fn put_inner<B: BlockSource>(
    alloc: Global,
    base: &B,
    pairs: &mut Vec<(u64, Vec<u8>)>,
    height: u64,
    cid: &Cid,
    from: u64,
    node: &[u8],
) -> Result<bool, Failure<TreeFault>>
    requires height { height ≤ 18 }
    requires from { from + 8 ^ suc (suc height) ≤ 2 ^ 60 }
    requires place { (place : ℕ) × (from ≡ place * 8 ^ suc (suc height)) }
    requires value { IsOneValue node.now }
    ensures found { OnOk result (ArePut (inner_pairs (child_pairs (B.blocks base.now) height) (8 ^ suc height) cid.now from
        (if_some (parts_in (the_value node.now)) inner_of)) (shown pairs.old.items) (shown pairs.new.items)) }
    ensures node { IfOk result (λ full. IsTrue full → IsNodeOf (suc height) (the_value node.now)
        (inner_pairs (child_pairs (B.blocks base.now) height) (8 ^ suc height) cid.now from
        (if_some (parts_in (the_value node.now)) inner_of))) }
    ensures fault { IfErr result (IsFaultOf (inner_pairs (child_pairs (B.blocks base.now) height) (8 ^ suc height) cid.now from
        (if_some (parts_in (the_value node.now)) inner_of))) }
{
    let Some(links) = inner_in(alloc, node)? else {
        return Err(TreeFault::no_node(alloc, cid));
    };
    put_children(alloc, base, pairs, height, from, links)
}

/// Puts the pairs under children at a height behind those that are there. The children's digits are given, and the
/// first index of the node above. It answers whether each child has pairs.
#[cycle(walking)]
fn put_children<B: BlockSource>(
    alloc: Global,
    base: &B,
    pairs: &mut Vec<(u64, Vec<u8>)>,
    height: u64,
    from: u64,
    links: Vec<(u64, Cid)>,
) -> Result<bool, Failure<TreeFault>>
    requires height { height ≤ 18 }
    requires from { from + 8 ^ suc (suc height) ≤ 2 ^ 60 }
    requires place { (place : ℕ) × (from ≡ place * 8 ^ suc (suc height)) }
    requires digits { All (λ link. link.0 < 8) links.items }
    ensures found { OnOk result (ArePut (gathered (child_pairs (B.blocks base.now) height) (8 ^ suc height) from links.items)
        (shown pairs.old.items) (shown pairs.new.items)) }
    ensures full { IfOk result (λ full. IsTrue full → All (λ link. HasPairs
        (child_pairs (B.blocks base.now) height (from + link.0 * 8 ^ suc height) link.1)) links.items) }
    ensures fault { IfErr result (IsFaultOf (gathered (child_pairs (B.blocks base.now) height) (8 ^ suc height) from links.items)) }
{
    let mut full = true;
    for (digit, cid) in links {
        let first = first_index(height, from, digit);
        let before = pairs.len();
        put_child(alloc, base, pairs, height, first, &cid)?;
        full = is_still_full(full, before, pairs.len());
    }
    Ok(full)
}

/// Whether all children have pairs up to one before which there were so many pairs, and so many with those under it.
fn is_still_full(full: bool, before: usize, after: usize) -> bool
    ensures { result ≡ (full && nat_lt before after) }
{
    full && before < after
}

/// The first index of the child at a height that has this digit, where that of the node above is given.
fn first_index(height: u64, from: u64, digit: u64) -> u64
    requires height { height ≤ 18 }
    requires from { from + 8 ^ suc (suc height) ≤ 2 ^ 60 }
    requires place { (place : ℕ) × (from ≡ place * 8 ^ suc (suc height)) }
    requires digit { digit < 8 }
    ensures value { result ≡ from + digit * 8 ^ suc height }
    ensures room { result + 8 ^ suc height ≤ 2 ^ 60 }
    ensures place { (place : ℕ) × (result ≡ place * 8 ^ suc height) }
{
    from + digit * 8u64.pow(height as u32 + 1)
}

/// Puts the pairs under a child behind those that are there, and judges the child.
#[cycle(walking)]
fn put_child<B: BlockSource>(
    alloc: Global,
    base: &B,
    pairs: &mut Vec<(u64, Vec<u8>)>,
    height: u64,
    from: u64,
    cid: &Cid,
) -> Result<(), Failure<TreeFault>>
    requires height { height ≤ 18 }
    requires from { from + 8 ^ suc height ≤ 2 ^ 60 }
    requires place { (place : ℕ) × (from ≡ place * 8 ^ suc height) }
    ensures found { OnOk result (ArePut (child_pairs (B.blocks base.now) height from cid.now)
        (shown pairs.old.items) (shown pairs.new.items)) }
    ensures fault { IfErr result (IsFaultOf (child_pairs (B.blocks base.now) height from cid.now)) }
{
    let block = value_under(alloc, base, cid)?;
    let before = pairs.len();
    let full = put_pairs(alloc, base, pairs, height, cid, from, block.bytes())?;
    judge(alloc, height, block, full, &pairs[before..])
}
