ghost use Rattle.std.specs.Prelude.{◌≡◌, ◌≤◌, ◌<◌, ◌^◌, ◌+◌, ◌++◌, All, IfOk, List, OnOk, map, suc, ℕ};
ghost use Rattle.std.specs.FinMap.{entries};
ghost use Rattle.tree_blocks.specs.NewBlocks.{IsNodeBlock};
ghost use Rattle.amt_map.specs.Holds.{Holds, spellings};
ghost use Rattle.amt_map.specs.Node.{amt_nodes, amt_root, groups, height_of as tree_height, node_block as block_at, root_block as block_of_root};
ghost use Rattle.dag_cbor.specs.Spelling.{head};
ghost use Rattle.amt_map.specs.NodeText.{AreSlots, blocks_of, blocks_under, link_text, links_of, root_text, text_at};
ghost use Rattle.amt_map.specs.OneNode.{IsOneNode};
ghost use Rattle.amt_map.specs.Pairs.{Map, Pairs};

use crate::pairs::Spelled;
use crate::runs::{digit_at, first_run, height_of};
use crate::slots::Slots;
use cid_core::Block;
use dag_cbor::{Value, encode, put_link};
use fil_base::{Bytes, Cid, Mem};
use std::alloc::Global;

/// The codec of DAG-CBOR (multicodec).
pub(crate) const DAG_CBOR: u64 = 0x71;

/// The length of the spelling of a link to a node.
const LINK_LEN: usize = 43;

/// The block of the node at a height of these pairs: indexes with the spellings of their values.
pub(crate) fn node_block(alloc: Global, height: u64, pairs: &[(u64, Vec<u8>)]) -> Mem<Block>
    requires height { height ≤ 19 }
    requires node { (place : ℕ) × IsOneNode height place (map (λ p. (p.0, p.1.items)) pairs.now) }
    ensures { (ps : Pairs) → map (λ p. (p.0, p.1.items)) pairs.now ≡ spellings ps
        → IfOk result (λ block. block ≡ block_at height ps) }
{
    let lent = lent(alloc, pairs)?;
    let mut under = Vec::new(alloc);
    let bytes = write_node(alloc, &mut under, height, lent.as_slice())?;
    Block::of(alloc, DAG_CBOR, Bytes::of(bytes))
}

/// The block of the root of these pairs.
pub(crate) fn root_block(alloc: Global, pairs: &Spelled) -> Mem<Block>
    ensures { (m : Map) → Holds pairs.now m → IfOk result (λ block. block ≡ block_of_root (entries m)) }
{
    let spelled = pairs.spellings(alloc)?;
    let mut under = Vec::new(alloc);
    let bytes = write_root(alloc, &mut under, spelled.as_slice())?;
    Block::of(alloc, DAG_CBOR, Bytes::of(bytes))
}

/// The CID of the root of these pairs, and the blocks of the tree: children before parents, by rising digit.
pub(crate) fn all_nodes(alloc: Global, pairs: &Spelled) -> Mem<(Cid, Vec<Block>)>
    ensures root { (m : Map) → Holds pairs.now m → IfOk result (λ r. r.0 ≡ amt_root m) }
    ensures nodes { (m : Map) → Holds pairs.now m → IfOk result (λ r. r.1.items ≡ amt_nodes m) }
    ensures own { IfOk result (λ r. All IsNodeBlock r.1.items) }
{
    let spelled = pairs.spellings(alloc)?;
    let mut blocks = Vec::new(alloc);
    let bytes = write_root(alloc, &mut blocks, spelled.as_slice())?;
    let root = Block::of(alloc, DAG_CBOR, Bytes::of(bytes))?;
    let cid = root.cid().copy(alloc)?;
    blocks.push(root)?;
    Ok((cid, blocks))
}

/// The bytes of the root of these pairs. It puts the blocks under it behind those that are there.
fn write_root(alloc: Global, blocks: &mut Vec<Block>, pairs: &[(u64, &[u8])]) -> Mem<Vec<u8>>
    requires { IsOneNode 19 0 (map (λ p. (p.0, p.1.now)) pairs.now) }
    ensures text { IfOk result (λ bytes. bytes.items ≡ root_text (map (λ p. (p.0, p.1.now)) pairs.now)) }
    ensures under { OnOk result (blocks.new.items ≡ blocks.old.items
        ++ blocks_under (tree_height (map (λ p. (p.0, p.1.now)) pairs.now)) (map (λ p. (p.0, p.1.now)) pairs.now)) }
{
    let height = height_of(pairs);
    let node = write_node(alloc, blocks, height, pairs)?;
    let count = number(alloc, pairs.len() as u64)?;
    let mut bytes = Vec::with_capacity(alloc, 16 + node.len())?;
    bytes.extend_from_slice(&[0x83, height as u8])?;
    bytes.extend_from_slice(count.as_slice())?;
    bytes.extend_from_slice(node.as_slice())?;
    Ok(bytes)
}

/// The spelling of a number.
fn number(alloc: Global, number: u64) -> Mem<Bytes>
    ensures { IfOk result (λ bytes. bytes ≡ head 0 number) }
{
    encode(alloc, &Value::Int(number as i128))
}

/// The bytes of the node at a height of these pairs. It puts the blocks under it behind those that are there.
#[cycle(writing)]
fn write_node(
    alloc: Global,
    blocks: &mut Vec<Block>,
    height: u64,
    pairs: &[(u64, &[u8])],
) -> Mem<Vec<u8>>
    requires height { height ≤ 19 }
    requires node { (place : ℕ) × IsOneNode height place (map (λ p. (p.0, p.1.now)) pairs.now) }
    ensures text { IfOk result (λ bytes. bytes.items ≡ text_at height (map (λ p. (p.0, p.1.now)) pairs.now)) }
    ensures under { OnOk result (blocks.new.items
        ≡ blocks.old.items ++ blocks_under height (map (λ p. (p.0, p.1.now)) pairs.now)) }
{
    if height == 0 {
        return leaf(alloc, pairs);
    }
    let links = put_children(alloc, blocks, height - 1, pairs)?;
    links.inner_node(alloc)
}

/// The links of the node of these pairs that is above a height. It puts the blocks under it behind those that are there.
#[cycle(writing)]
fn put_children(
    alloc: Global,
    blocks: &mut Vec<Block>,
    below: u64,
    pairs: &[(u64, &[u8])],
) -> Mem<Slots>
    requires height { below < 19 }
    requires node { (place : ℕ) × IsOneNode (suc below) place (map (λ p. (p.0, p.1.now)) pairs.now) }
    ensures links { IfOk result (λ slots. AreSlots (links_of below)
        (groups (suc below) (map (λ p. (p.0, p.1.now)) pairs.now)) slots.bitmap slots.count slots.spellings.items) }
    ensures under { OnOk result (blocks.new.items
        ≡ blocks.old.items ++ blocks_under (suc below) (map (λ p. (p.0, p.1.now)) pairs.now)) }
{
    let mut links = Slots::none(alloc)?;
    let mut done = 0;
    while done < pairs.len() {
        let (_, rest) = pairs.split_at(done);
        let run = first_run(below + 1, rest);
        let link = put_child(alloc, blocks, below, run.pairs)?;
        links.put(run.digit, link.as_slice())?;
        done += run.pairs.len();
    }
    Ok(links)
}

/// The link to the node at a height of these pairs. It puts its block behind those that are there and those under it.
#[cycle(writing)]
fn put_child(
    alloc: Global,
    blocks: &mut Vec<Block>,
    height: u64,
    pairs: &[(u64, &[u8])],
) -> Mem<Bytes>
    requires height { height < 19 }
    requires node { (place : ℕ) × IsOneNode height place (map (λ p. (p.0, p.1.now)) pairs.now) }
    ensures link { IfOk result (λ link. link ≡ link_text (text_at height (map (λ p. (p.0, p.1.now)) pairs.now))) }
    ensures under { OnOk result (blocks.new.items
        ≡ blocks.old.items ++ blocks_of height (map (λ p. (p.0, p.1.now)) pairs.now)) }
{
    let bytes = write_node(alloc, blocks, height, pairs)?;
    let block = Block::of(alloc, DAG_CBOR, Bytes::of(bytes))?;
    let mut link = Vec::with_capacity(alloc, LINK_LEN)?;
    put_link(&mut link, block.cid())?;
    blocks.push(block)?;
    Ok(Bytes::of(link))
}

/// The bytes of the node at height 0 of these pairs.
fn leaf(alloc: Global, pairs: &[(u64, &[u8])]) -> Mem<Vec<u8>>
    requires { (place : ℕ) × IsOneNode 0 place (map (λ p. (p.0, p.1.now)) pairs.now) }
    ensures { IfOk result (λ bytes. bytes.items ≡ text_at 0 (map (λ p. (p.0, p.1.now)) pairs.now)) }
{
    let mut values = Slots::none(alloc)?;
    for pair in pairs {
        values.put(digit_at(0, pair.0), pair.1)?;
    }
    values.leaf(alloc)
}

/// The same pairs, with the spellings lent.
fn lent(alloc: Global, pairs: &[(u64, Vec<u8>)]) -> Mem<Vec<(u64, &[u8])>>
    ensures { IfOk result (λ lent. map {B = ℕ × List ℕ} (λ p. (p.0, p.1.now)) lent.items ≡ map (λ p. (p.0, p.1.items)) pairs.now) }
{
    let mut lent = Vec::with_capacity(alloc, pairs.len())?;
    for pair in pairs {
        lent.push((pair.0, pair.1.as_slice()))?;
    }
    Ok(lent)
}
