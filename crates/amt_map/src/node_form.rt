ghost use Rattle.std.specs.Prelude.{◌≡◌, ◌≤◌, ◌<◌, ◌/◌, ◌%◌, ◌^◌, ◌==◌, ◌∷◌, [], All, IfOk, IfSome, None, if◌then◌else◌, length, pos};
ghost use Rattle.std.specs.List.{list_all};
ghost use Rattle.std.specs.Option.{option_map};
ghost use Rattle.dag_cbor.specs.declared.value.Value.{out-Value};
ghost use Rattle.dag_cbor.specs.declared.value.Value.TheVariants as values;
ghost use Rattle.amt_map.specs.Depth.{is_within};
ghost use Rattle.amt_map.specs.Reading.{AreSpelled, IsFound, shown};
ghost use Rattle.amt_map.specs.ValueBytes.{IsOneList, IsOneValue, the_items, the_value};
ghost use Rattle.amt_map.specs.Walk.{by_digit, inner_of, leaf_of, link_in as cid_in, one_byte as byte_in, parts_in as parts_at, root_parts as root_at, set_digits as digits_in};
ghost use Rattle.tree_blocks.specs.Forms.{for_each, if_some};

use crate::value_bytes::{bytes_in, items_of, link_in, list_in, number_in, split_front, three_in};
use dag_cbor::split_item;
use fil_base::{Cid, Mem};
use std::alloc::Global;

/// The greatest depth of a value in a node: a root has three levels around it.
const VALUE_DEPTH: u64 = 125;

/// The greatest height of a tree, at which all indexes below 2^60 have a place.
const MAX_HEIGHT: u128 = 19;

/// A root that was read.
#[derive(Clone, Copy)]
pub(crate) struct ReadRoot<'a> {
    pub(crate) height: u64,

    /// How many pairs it says that there are.
    pub(crate) count: u128,

    /// The bytes of its node.
    pub(crate) node: &'a [u8],
}

/// The root that a value is, if it is one.
pub(crate) fn root_in(alloc: Global, value: &[u8]) -> Mem<Option<ReadRoot<'_>>>
    requires { IsOneValue value.now }
    ensures found { IfOk result (λ root. option_map (λ r. (r.height, the_value r.node.now)) root
        ≡ root_at (the_value value.now)) }
    ensures whole { IfOk result (λ root. IfSome root (λ r. the_value value.now
        ≡ values.List (values.Int (pos r.height) ∷ values.Int (pos r.count) ∷ the_value r.node.now ∷ []))) }
    ensures node { IfOk result (λ root. IfSome root (λ r. IsOneValue r.node.now)) }
{
    let Some((height, count, node)) = three_in(value) else {
        return Ok(None);
    };
    let Some(height) = number_in(alloc, height)? else {
        return Ok(None);
    };
    let Some(count) = number_in(alloc, count)? else {
        return Ok(None);
    };
    if height > MAX_HEIGHT {
        return Ok(None);
    }
    let height = height as u64;
    Ok(Some(ReadRoot {
        height,
        count,
        node,
    }))
}

/// The digits and the spellings of the values of the node at height 0 that a value is, if it is one.
pub(crate) fn leaf_in(alloc: Global, value: &[u8]) -> Mem<Option<Vec<(u64, Vec<u8>)>>>
    requires { IsOneValue value.now }
    ensures found { IfOk result (λ found. IsFound (λ values leaf. AreSpelled (shown values.items) leaf) found
        (if_some (parts_at (the_value value.now)) leaf_of)) }
    ensures digits { IfOk result (λ found. IfSome found (λ values. All (λ v. v.0 < 8) values.items)) }
{
    let Some((bits, links, values)) = parts_in(value) else {
        return Ok(None);
    };
    if !is_empty(links) {
        return Ok(None);
    }
    spellings_by_digit(alloc, bits, values)
}

/// The digits and the CIDs of the links of the node above height 0 that a value is, if it is one.
pub(crate) fn inner_in(alloc: Global, value: &[u8]) -> Mem<Option<Vec<(u64, Cid)>>>
    requires { IsOneValue value.now }
    ensures found { IfOk result (λ found. option_map (λ links. links.items) found
        ≡ if_some (parts_at (the_value value.now)) inner_of) }
    ensures digits { IfOk result (λ found. IfSome found (λ links. All (λ link. link.0 < 8) links.items)) }
{
    let Some((bits, links, values)) = parts_in(value) else {
        return Ok(None);
    };
    if !is_empty(values) {
        return Ok(None);
    }
    cids_by_digit(alloc, bits, links)
}

/// The spellings of the values of a list by the digits of a bitmap, if there are as many, and none is too deep.
fn spellings_by_digit(alloc: Global, bits: u8, values: &[u8]) -> Mem<Option<Vec<(u64, Vec<u8>)>>>
    requires { IsOneList values.now }
    ensures found { IfOk result (λ found. IsFound (λ spelled leaf. AreSpelled (shown spelled.items) leaf) found
        (if list_all (is_within 125) (the_items values.now) then by_digit bits (the_items values.now) else None)) }
    ensures digits { IfOk result (λ found. IfSome found (λ spelled. All (λ v. v.0 < 8) spelled.items)) }
{
    let digits = set_digits(alloc, bits)?;
    let (value_count, items) = items_of(values);
    if value_count != digits.len() as u64 {
        return Ok(None);
    }
    let mut spellings = Vec::with_capacity(alloc, digits.len())?;
    let mut rest = items;
    for place in 0..digits.len() {
        let Some((item, behind)) = split_item(VALUE_DEPTH, rest) else {
            return Ok(None);
        };
        let spelling = Vec::from_slice(alloc, item)?;
        spellings.push((digits[place], spelling))?;
        rest = behind;
    }
    Ok(Some(spellings))
}

/// The CIDs of the links of a list by the digits of a bitmap, if each is a link and there are as many.
fn cids_by_digit(alloc: Global, bits: u8, links: &[u8]) -> Mem<Option<Vec<(u64, Cid)>>>
    requires { IsOneList links.now }
    ensures found { IfOk result (λ found. option_map (λ cids. cids.items) found
        ≡ if_some (for_each (λ link. cid_in (out-Value link)) (the_items links.now)) (by_digit bits)) }
    ensures digits { IfOk result (λ found. IfSome found (λ cids. All (λ cid. cid.0 < 8) cids.items)) }
{
    let digits = set_digits(alloc, bits)?;
    let (link_count, items) = items_of(links);
    if link_count != digits.len() as u64 {
        return Ok(None);
    }
    let mut cids = Vec::with_capacity(alloc, digits.len())?;
    let mut rest = items;
    for place in 0..digits.len() {
        let (item, behind) = split_front(rest);
        let Some(cid) = link_in(alloc, item)? else {
            return Ok(None);
        };
        cids.push((digits[place], cid))?;
        rest = behind;
    }
    Ok(Some(cids))
}

/// The digits whose bits are set in a bitmap, rising.
fn set_digits(alloc: Global, bits: u8) -> Mem<Vec<u64>>
    ensures { IfOk result (λ digits. digits.items ≡ digits_in bits) }
{
    let mut digits = Vec::with_capacity(alloc, 8)?;
    for digit in 0..8u64 {
        if is_set(bits, digit) {
            digits.push(digit)?;
        }
    }
    Ok(digits)
}

/// Whether the bit of a digit is set.
fn is_set(bits: u8, digit: u64) -> bool
    requires { digit < 8 }
    ensures { result ≡ (bits / 2 ^ digit % 2 == 1) }
{
    u64::from(bits) >> digit & 1 == 1
}

/// Whether a list has no items.
fn is_empty(list: &[u8]) -> bool
    requires { IsOneList list.now }
    ensures { result ≡ (length (the_items list.now) == 0) }
{
    let (count, _) = items_of(list);
    count == 0
}

/// A node's bitmap, and the lists of its links and its values.
fn parts_in(value: &[u8]) -> Option<(u8, &[u8], &[u8])>
    requires { IsOneValue value.now }
    ensures parts { option_map (λ node. record { bits = node.0; links = the_items node.1.now; values = the_items node.2.now })
        result ≡ parts_at (the_value value.now) }
    ensures lists { IfSome result (λ node. IsOneList node.1.now × IsOneList node.2.now) }
{
    let (bits, links, values) = three_in(value)?;
    let bytes = bytes_in(bits)?;
    let bits = one_byte(bytes)?;
    let links = list_in(links)?;
    let values = list_in(values)?;
    Some((bits, links, values))
}

/// The one byte of a byte string of one.
fn one_byte(bytes: &[u8]) -> Option<u8>
    ensures { result ≡ byte_in bytes.now }
{
    if bytes.len() == 1 {
        Some(bytes[0])
    } else {
        None
    }
}
