ghost use Rattle.std.specs.Prelude.{◌≡◌, ◌==◌, ◌&&◌, [], ◌∷◌, ℕ, nat_le, suc, IfOk, List, None, false, length, true};
ghost use Rattle.std.specs.List.{AllZip};
ghost use Rattle.dag_cbor.specs.Plain.{IsPlain};
ghost use Rattle.dag_cbor.specs.Spelling.{spelled};
ghost use Rattle.dag_cbor.specs.declared.value.Value.{Value, out-Value};
ghost use Rattle.hamt_map.specs.ReadPointers.{AreAt, AreParts, IsAt, IsFound, IsLeafAt, IsNode, IsNodeIn, IsPointer, IsPointerAt, link_in};
ghost use Rattle.tree_blocks.specs.Forms.{for_each, items_in as list_in, set_bits as ones_in};
ghost use Rattle.hamt_map.specs.Walk.{Bucket, node_in as pointers_at, pair_in as pair_of, pointer_of as pointer_there, pointer_values as values_in, pointers_in as node_at, two_in as both_in};

use crate::leaf::Leaf;
use dag_cbor::{MAX_DEPTH, Value, blob, decode, list_head, split_item};
use fil_base::{Cid, Failure, Mem, NoMemory, Row};
use std::alloc::Global;
use tree_blocks::set_bits;

/// What a pointer of a node points to.
#[derive(Drop)]
pub(crate) enum ReadPointer<'a> {
    /// The pairs of a bucket, in their order.
    Bucket(Row<Leaf<'a>>),

    /// A node below.
    Child(Cid),
}

/// A node that was read: its bit field, and its pointers in their order.
#[derive(Drop)]
pub(crate) struct ReadNode<'a> {
    pub(crate) bits: &'a [u8],
    pub(crate) pointers: Row<ReadPointer<'a>>,
}

/// The node that the bytes spell, if they spell one with so many levels below.
pub(crate) fn node_in(alloc: Global, below: u64, bytes: &[u8]) -> Mem<Option<ReadNode<'_>>>
    ensures { IfOk result (λ found. IsFound (IsNodeIn bytes.now) found (pointers_at below bytes.now)) }
{
    // Then no item is cut off where one is looked for.
    if is_value(bytes) {
        node_of(alloc, below, bytes)
    } else {
        Ok(None)
    }
}

/// Whether the bytes spell a value.
fn is_value(bytes: &[u8]) -> bool
    ensures found { result ≡ true → (value : Value) × IsPlain MAX_DEPTH value × (bytes.now ≡ spelled value) }
    ensures only { result ≡ false → (value : Value) → IsPlain MAX_DEPTH value → bytes.now ≡ spelled value → ⊥ }
{
    match split_item(MAX_DEPTH, bytes) {
        Some((_, rest)) => rest.is_empty(),
        None => false,
    }
}

/// The node that the value is which the bytes spell, if it is one.
fn node_of(alloc: Global, below: u64, bytes: &[u8]) -> Mem<Option<ReadNode<'_>>>
    ensures { (value : Value) → IsAt 128 value bytes.now []
        → IfOk result (λ found. IsFound (IsNode value) found (node_at below value)) }
{
    let Some((bits, count, behind)) = node_parts(bytes) else {
        return Ok(None);
    };
    let Some(pointers) = pointers_of(alloc, below, count, behind)? else {
        return Ok(None);
    };
    Ok(Some(ReadNode { bits, pointers }))
}

/// The bit field of a node, how many pointers it has, which are as many as it has set bits, and the bytes of these.
fn node_parts(bytes: &[u8]) -> Option<(&[u8], u64, &[u8])>
    ensures { (value : Value) → IsAt 128 value bytes.now []
        → IsFound (λ x values. AreParts value x.0.now x.1 x.2.now values) result (values_in value) }
{
    let both = two_at(bytes)?;
    let (bits, behind) = blob(both)?;
    prove!(bits.len() <= usize::MAX);
    let (count, pointers) = list_head(behind)?;
    prove!(count <= u64::MAX);
    if is_field_of(count, bits) {
        Some((bits, count, pointers))
    } else {
        None
    }
}

/// Whether a bit field has 4 bytes at most, and as many set bits as there are pointers.
fn is_field_of(count: u64, bits: &[u8]) -> bool
    ensures { result ≡ (nat_le (length bits.now) 4 && count == ones_in bits.now) }
{
    bits.len() <= 4 && count == set_bits(bits) as u64
}

/// The pointers that so many values at the front are, if each is one.
fn pointers_of(
    alloc: Global,
    below: u64,
    count: u64,
    bytes: &[u8],
) -> Mem<Option<Row<ReadPointer<'_>>>>
    ensures { (values : List Value) (last : List ℕ) → length values ≡ count → AreAt 126 values bytes.now last
        → IfOk result (λ found. IsFound (AllZip IsPointer) found
        (for_each (λ value. pointer_there below (out-Value value)) values)) }
{
    let mut pointers = Vec::new(alloc);
    let mut rest = bytes;
    let mut left = count;
    while left > 0 {
        left -= 1;
        let Some((pointer, behind)) = pointer_at(alloc, below, rest)? else {
            return Ok(None);
        };
        pointers.push(pointer)?;
        rest = behind;
    }
    Ok(Some(Row::of(pointers)))
}

/// The pointer that the value at the front is, and the bytes behind it: a bucket, or a link where there is a level
/// below.
fn pointer_at(alloc: Global, below: u64, bytes: &[u8]) -> Mem<Option<(ReadPointer<'_>, &[u8])>>
    ensures { (value : Value) (rest : List ℕ) → IsAt 126 value bytes.now rest
        → IfOk result (λ found. IsFound (λ x pointer. IsPointerAt rest x.0 x.1.now pointer) found
        (pointer_there below (out-Value value))) }
{
    match list_head(bytes) {
        Some((count, pairs)) => {
            prove!(count <= u64::MAX);
            bucket_of(alloc, count, pairs)
        }
        None => child_at(alloc, below, bytes),
    }
}

/// The bucket of the pairs that so many values at the front are, if each is one, and the bytes behind them.
fn bucket_of(alloc: Global, count: u64, bytes: &[u8]) -> Mem<Option<(ReadPointer<'_>, &[u8])>>
    ensures { (values : List Value) (last : List ℕ) → length values ≡ count → AreAt 125 values bytes.now last
        → IfOk result (λ found. IsFound (λ x pairs. IsPointerAt last x.0 x.1.now (Bucket pairs)) found
        (for_each pair_of values)) }
{
    let mut leaves = Vec::new(alloc);
    let mut rest = bytes;
    let mut left = count;
    while left > 0 {
        left -= 1;
        let Some((leaf, behind)) = pair_at(rest) else {
            return Ok(None);
        };
        leaves.push(leaf)?;
        rest = behind;
    }
    Ok(Some((ReadPointer::Bucket(Row::of(leaves)), rest)))
}

/// The node below to which the value at the front is a link, if there is a level below, and the bytes behind it.
fn child_at(alloc: Global, below: u64, bytes: &[u8]) -> Mem<Option<(ReadPointer<'_>, &[u8])>>
    ensures { (value : Value) (rest : List ℕ) → IsAt 126 value bytes.now rest → list_in (out-Value value) ≡ None
        → IfOk result (λ found. IsFound (λ x pointer. IsPointerAt rest x.0 x.1.now pointer) found
        (pointer_there below (out-Value value))) }
{
    if below == 0 {
        return Ok(None);
    }
    let Some((item, rest)) = split_item(126, bytes) else {
        return Ok(None);
    };
    let Some(cid) = link_of(alloc, item)? else {
        return Ok(None);
    };
    Ok(Some((ReadPointer::Child(cid), rest)))
}

/// The CID to which the value is a link that the bytes spell, if it is one.
fn link_of(alloc: Global, bytes: &[u8]) -> Mem<Option<Cid>>
    ensures { (value : Value) → IsPlain 126 value → bytes.now ≡ spelled value
        → IfOk result (λ cid. cid ≡ link_in (out-Value value)) }
{
    match decode(alloc, bytes) {
        Ok(value) => copy_of_link(alloc, &value),
        Err(Failure::NoMemory) => Err(NoMemory),
        Err(Failure::Fault(_)) => Ok(None),
    }
}

/// The CID to which a value is a link.
fn copy_of_link(alloc: Global, value: &Value) -> Mem<Option<Cid>>
    ensures { IfOk result (λ cid. cid ≡ link_in (out-Value value.now)) }
{
    match value {
        Value::Link(cid) => Ok(Some(cid.copy(alloc)?)),
        _ => Ok(None),
    }
}

/// The pair of a bucket at the front, and the bytes behind it.
fn pair_at(bytes: &[u8]) -> Option<(Leaf<'_>, &[u8])>
    ensures { (value : Value) (rest : List ℕ) → IsAt 125 value bytes.now rest
        → IsFound (λ x pair. IsLeafAt rest x.0 x.1.now pair) result (pair_of value) }
{
    let both = two_at(bytes)?;
    let (key, behind) = blob(both)?;
    prove!(key.len() <= usize::MAX);
    let (spelling, rest) = split_item(124, behind)?;
    Some((Leaf::of(key, spelling), rest))
}

/// The two items of the list of two at the front.
fn two_at(bytes: &[u8]) -> Option<&[u8]>
    ensures { (depth : ℕ) (value : Value) (rest : List ℕ) → IsAt (suc depth) value bytes.now rest
        → IsFound (λ x both. AreAt depth (both.0 ∷ both.1 ∷ []) x.now rest) result (both_in value) }
{
    let (count, items) = list_head(bytes)?;
    prove!(count <= u64::MAX);
    if count == 2 { Some(items) } else { None }
}
