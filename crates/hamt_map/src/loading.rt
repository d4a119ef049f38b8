ghost use Rattle.std.specs.Prelude.{◌≡◌, ◌≤◌, ◌<◌, ◌-◌, ◌++◌, Err, List, IfErr, IfOk, IfSome, OnOk, drop, take, length, vec_len};
ghost use Rattle.std.specs.List.{AllZip};
ghost use Rattle.fil_base.specs.Failure.{IfFault};
ghost use Rattle.cid_core.specs.BlockParts.{BlockParts};
ghost use Rattle.hamt_map.specs.Canonical.{bucket_place as place_of_bucket, child_place as place_of_child, has_canonical_form as is_form_of, with_place as with_one};
ghost use Rattle.hamt_map.specs.Holds.{Holds};
ghost use Rattle.hamt_map.specs.Kept.{IsJudged};
ghost use Rattle.hamt_map.specs.Loading.{IsFaultOf, gathered_map, map_under, walk_child as child_at};
ghost use Rattle.hamt_map.specs.Pairs.{Map};
ghost use Rattle.hamt_map.specs.ReadPointers.{IsPointer};
ghost use Rattle.hamt_map.specs.Walk.{Child, Pointer, hamt_at, judged, walk as walked_at};
ghost use Rattle.hamt_map.specs.WalkedPairs.{ArePointersPut, IsPointerPut, IsRead, IsTreePut};

use crate::bit_field::is_bit_field;
use crate::leaf::{Leaf, common_place, is_rising};
use crate::node_form::{ReadNode, ReadPointer, node_in};
use crate::nodes::{BUCKET_SIZE, DAG_CBOR, node_block};
use crate::once::put_once;
use crate::pairs::Spelled;
use cid_core::{Block, BlockSource};
use fil_base::{Cid, Failure, Mem, Row};
use std::alloc::Global;
use tree_blocks::TreeFault;

/// How many levels are below the root.
pub(crate) const BELOW_ROOT: u64 = 50;

/// The code of BLAKE2b-256 (multicodec).
const BLAKE2B_256: u64 = 0xb220;

/// Judges the tree under a root: nothing, where all its nodes have the form of canonical ones, or else its pairs.
pub(crate) fn judge_tree<B: BlockSource>(
    alloc: Global,
    base: &B,
    root: &Cid,
) -> Result<Option<Spelled>, Failure<TreeFault>>
    ensures found { IfOk result (IsJudged (B.blocks base.now) root.now) }
    ensures fault { IfErr result (λ failure. IfFault failure (λ fault.
        hamt_at (B.blocks base.now) root.now ≡ Err fault)) }
{
    let mut leaves = Vec::new(alloc);
    let by_form = put_tree(alloc, base, &mut leaves, BELOW_ROOT, root)?;
    if by_form {
        return Ok(None);
    }
    let pairs = Spelled::of_leaves(alloc, leaves.as_slice())?;
    Ok(Some(pairs))
}

/// Puts the pairs of the tree under a node with so many levels below behind those that are there, and answers whether
/// all its nodes have the form of canonical ones.
#[cycle(walking)]
pub(crate) fn put_tree<'a, B: BlockSource>(
    alloc: Global,
    base: &'a B,
    leaves: &mut Vec<Leaf<'a>>,
    below: u64,
    cid: &Cid,
) -> Result<bool, Failure<TreeFault>>
    requires { below ≤ 50 }
    ensures found { IfOk result (IsTreePut (B.blocks base.now) below (walked_at (B.blocks base.now) below cid.now)
        leaves.old.items leaves.new.items) }
    ensures fault { IfErr result (IsFaultOf (walked_at (B.blocks base.now) below cid.now)) }
{
    let Some(block) = base.find(cid) else {
        return Err(TreeFault::missing(alloc, cid));
    };
    let Some(node) = node_in(alloc, below, block.bytes())? else {
        return Err(TreeFault::no_node(alloc, cid));
    };
    let start = leaves.len();
    let ReadNode { bits, pointers } = node;
    let places = put_pointers(alloc, base, leaves, below, pointers)?;
    judge(alloc, below, block, bits, places, leaves, start)
}

/// Puts the pairs under pointers of a node with so many levels below behind those that are there, and answers the bits
/// of their places, if they rise and each pointer is one of a canonical node.
#[cycle(walking)]
fn put_pointers<'a, B: BlockSource>(
    alloc: Global,
    base: &'a B,
    leaves: &mut Vec<Leaf<'a>>,
    below: u64,
    pointers: Row<ReadPointer<'a>>,
) -> Result<Option<u64>, Failure<TreeFault>>
    requires { below ≤ 50 }
    ensures found { (those : List Pointer) → AllZip IsPointer pointers.entry those → IfOk result
        (ArePointersPut (B.blocks base.now) (child_at (B.blocks base.now) below) below those leaves.old.items
        leaves.new.items) }
    ensures fault { (those : List Pointer) → AllZip IsPointer pointers.entry those
        → IfErr result (IsFaultOf (gathered_map (child_at (B.blocks base.now) below) those)) }
{
    let mut places = Some(0);
    for pointer in pointers.into_vec() {
        let place = put_pointer(alloc, base, leaves, below, pointer)?;
        places = with_place(places, place);
    }
    Ok(places)
}

/// Puts the pairs under a pointer of a node with so many levels below behind those that are there, and answers their
/// place, if the pointer is one of a canonical node.
#[cycle(walking)]
fn put_pointer<'a, B: BlockSource>(
    alloc: Global,
    base: &'a B,
    leaves: &mut Vec<Leaf<'a>>,
    below: u64,
    pointer: ReadPointer<'a>,
) -> Result<Option<usize>, Failure<TreeFault>>
    requires { below ≤ 50 }
    ensures found { (that : Pointer) → IsPointer pointer.entry that → IfOk result
        (IsPointerPut (B.blocks base.now) (child_at (B.blocks base.now) below) below that leaves.old.items
        leaves.new.items) }
    ensures small { IfOk result (λ place. IfSome place (λ p. p < 32)) }
    ensures fault { (that : Pointer) → IsPointer pointer.entry that
        → IfErr result (IsFaultOf (map_under (child_at (B.blocks base.now) below) that)) }
{
    match pointer {
        ReadPointer::Bucket(bucket) => Ok(put_bucket(leaves, below, bucket)?),
        ReadPointer::Child(cid) => put_child(alloc, base, leaves, below, &cid),
    }
}

/// Puts the pairs of a bucket of a node with so many levels below behind those that are there, and answers their place,
/// if the bucket is one of a canonical node.
fn put_bucket<'a>(
    leaves: &mut Vec<Leaf<'a>>,
    below: u64,
    bucket: Row<Leaf<'a>>,
) -> Mem<Option<usize>>
    requires { below ≤ 50 }
    ensures put { OnOk result (leaves.new.items ≡ leaves.old.items ++ bucket.entry) }
    ensures place { IfOk result (λ place. place ≡ place_of_bucket below bucket.entry) }
{
    let mut bucket = bucket.into_vec();
    let place = bucket_place(bucket.as_slice(), below);
    leaves.append(&mut bucket)?;
    Ok(place)
}

/// The place of the pairs of a bucket of a node with so many levels below, if the bucket is one of a canonical node.
fn bucket_place(bucket: &[Leaf], below: u64) -> Option<usize>
    requires { below ≤ 50 }
    ensures { result ≡ place_of_bucket below bucket.now }
{
    if (below == 0 || bucket.len() <= BUCKET_SIZE) && is_rising(bucket) {
        common_place(bucket, 51 - below)
    } else {
        None
    }
}

/// Puts the pairs under a child of a node with so many levels below behind those that are there, and answers their
/// place, if the link to it is one of a canonical node.
#[cycle(walking)]
fn put_child<'a, B: BlockSource>(
    alloc: Global,
    base: &'a B,
    leaves: &mut Vec<Leaf<'a>>,
    below: u64,
    cid: &Cid,
) -> Result<Option<usize>, Failure<TreeFault>>
    requires { below ≤ 50 }
    ensures found { IfOk result (IsPointerPut (B.blocks base.now) (child_at (B.blocks base.now) below) below
        (Child cid.now) leaves.old.items leaves.new.items) }
    ensures small { IfOk result (λ place. IfSome place (λ p. p < 32)) }
    ensures fault { IfErr result (IsFaultOf (child_at (B.blocks base.now) below cid.now)) }
{
    // The last level has no children: there no link is a pointer.
    if below == 0 {
        return Err(TreeFault::no_node(alloc, cid));
    }
    let start = leaves.len();
    let by_form = put_tree(alloc, base, leaves, below - 1, cid)?;
    if by_form {
        Ok(child_place(leaves, start, below))
    } else {
        Ok(None)
    }
}

/// The place of the pairs from a place in a list on, which are those under a child of a node with so many levels below,
/// if the link to it is one of a canonical node.
fn child_place(leaves: &[Leaf], start: usize, below: u64) -> Option<usize>
    requires levels { below ≤ 50 }
    requires within { start ≤ length leaves.now }
    ensures { result ≡ place_of_child below (drop start leaves.now) }
{
    let pairs = &leaves[start..];
    if pairs.len() > BUCKET_SIZE {
        common_place(pairs, 51 - below)
    } else {
        None
    }
}

/// The bits of places with one more, if it is behind them all.
fn with_place(places: Option<u64>, place: Option<usize>) -> Option<u64>
    requires { IfSome place (λ p. p < 32) }
    ensures { result ≡ with_one places place }
{
    let bits = places?;
    let bit = 1 << place?;
    if bits < bit { Some(bits + bit) } else { None }
}

/// Judges a node that has so many levels below: it is the one of the pairs under it, which stand in a list from a place
/// on. Where it has the form of a canonical node, as all nodes under it then have, nothing is built, and the answer is
/// `true`.
fn judge<'a>(
    alloc: Global,
    below: u64,
    block: &Block,
    bits: &[u8],
    places: Option<u64>,
    leaves: &mut Vec<Leaf<'a>>,
    start: usize,
) -> Result<bool, Failure<TreeFault>>
    requires levels { below ≤ 50 }
    requires within { start ≤ vec_len leaves.old }
    ensures found { (held : List BlockParts) (m : Map)
        → IsRead held below block.now bits.now places (drop start leaves.old.items) m
        → IfOk result (IsTreePut held below (judged below block.now m) (take start leaves.old.items) leaves.new.items) }
    ensures fault { (held : List BlockParts) (m : Map)
        → IsRead held below block.now bits.now places (drop start leaves.old.items) m
        → IfErr result (IsFaultOf (judged below block.now m)) }
{
    if has_canonical_form(alloc, places, bits, block.cid())? {
        return Ok(true);
    }
    let own = leaves.split_off(start)?;
    let pairs = Spelled::of_leaves(alloc, own.as_slice())?;
    judge_anew(alloc, below, block, &pairs)?;
    put_once(alloc, leaves, own.as_slice())?;
    Ok(false)
}

/// Whether a CID and a bit field are those of a canonical node.
fn has_canonical_form(alloc: Global, places: Option<u64>, bits: &[u8], cid: &Cid) -> Mem<bool>
    ensures { IfOk result (λ yes. yes ≡ is_form_of places bits.now cid.now) }
{
    let Some(places) = places else {
        return Ok(false);
    };
    if cid.codec() != DAG_CBOR || cid.hash() != BLAKE2B_256 {
        return Ok(false);
    }
    is_bit_field(alloc, places, bits)
}

/// Judges a node that has so many levels below, by building the one of the pairs under it.
fn judge_anew(
    alloc: Global,
    below: u64,
    block: &Block,
    pairs: &Spelled,
) -> Result<(), Failure<TreeFault>>
    requires { below ≤ 50 }
    ensures found { (m : Map) → Holds pairs.now m → IfOk result (λ _. judged below block.now m ≡ Ok m) }
    ensures fault { (m : Map) → Holds pairs.now m → IfErr result (IsFaultOf (judged below block.now m)) }
{
    let node = node_block(alloc, below, pairs)?;
    if node.cid() == block.cid() && node.bytes() == block.bytes() {
        Ok(())
    } else {
        Err(TreeFault::not_canonical(alloc, block.cid(), node.cid()))
    }
}
