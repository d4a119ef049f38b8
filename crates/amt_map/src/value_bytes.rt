ghost use Rattle.std.specs.Prelude.{◌≡◌, ◌++◌, ℕ, List, IfOk, IfSome, IsTrue, None, false, length, map};
ghost use Rattle.std.specs.Option.{option_map};
ghost use Rattle.dag_cbor.specs.Plain.{IsPlain};
ghost use Rattle.dag_cbor.specs.Spelling.{joined, spelled};
ghost use Rattle.dag_cbor.specs.declared.value.Value.{Value, out-Value};
ghost use Rattle.amt_map.specs.ValueBytes.{IsFront, IsOneList, IsOneValue, the_items, the_value};
ghost use Rattle.amt_map.specs.Walk.{link_in as cid_at, number_in as natural_at, three_in as three_at, value_in as value_at};
ghost use Rattle.tree_blocks.specs.Forms.{bytes_in as blob_at, items_in as items_at};

use dag_cbor::{MAX_DEPTH, Value, blob, decode, list_head, split_item};
use fil_base::{Cid, Failure, Mem, NoMemory};
use std::alloc::Global;

/// Whether bytes spell one value.
pub(crate) fn is_one_value(bytes: &[u8]) -> bool
    ensures found { IsTrue result → IsOneValue bytes.now }
    ensures only { result ≡ false → value_at bytes.now ≡ None }
{
    match split_item(MAX_DEPTH, bytes) {
        Some((_, rest)) => rest.is_empty(),
        None => false,
    }
}

/// The bytes of the three items of a list of three.
pub(crate) fn three_in(value: &[u8]) -> Option<(&[u8], &[u8], &[u8])>
    requires { IsOneValue value.now }
    ensures three { option_map (λ three.
        record { first = the_value three.0.now; second = the_value three.1.now; third = the_value three.2.now }) result
        ≡ three_at (the_value value.now) }
    ensures ones { IfSome result (λ three. IsOneValue three.0.now × IsOneValue three.1.now × IsOneValue three.2.now) }
{
    let list = list_in(value)?;
    let (count, items) = items_of(list);
    if count == 3 {
        let (first, rest) = split_front(items);
        let (second, third) = split_front(rest);
        Some((first, second, third))
    } else {
        None
    }
}

/// The list that a value is.
pub(crate) fn list_in(value: &[u8]) -> Option<&[u8]>
    requires { IsOneValue value.now }
    ensures items { option_map (λ list. the_items list.now) result ≡ items_at (out-Value (the_value value.now)) }
    ensures one { IfSome result (λ list. IsOneList list.now) }
    ensures same { IfSome result (λ list. list.now ≡ value.now) }
{
    match list_head(value) {
        Some((_count, _)) => Some(value),
        None => None,
    }
}

/// How many items a list has, and their spellings, one after another.
pub(crate) fn items_of(list: &[u8]) -> (u64, &[u8])
    requires { IsOneList list.now }
    ensures count { result.0 ≡ length (the_items list.now) }
    ensures items { result.1.now ≡ joined (map spelled (the_items list.now)) }
{
    match list_head(list) {
        Some((count, items)) => (count, items),
        None => unreachable!(),
    }
}

/// The spelling of the value at the front, and the bytes behind it.
pub(crate) fn split_front(bytes: &[u8]) -> (&[u8], &[u8])
    requires { IsFront bytes.now }
    ensures { (value : Value) (rest : List ℕ) → IsPlain 128 value → bytes.now ≡ spelled value ++ rest
        → (result.0.now ≡ spelled value) × (result.1.now ≡ rest) }
{
    match split_item(MAX_DEPTH, bytes) {
        Some(found) => found,
        None => unreachable!(),
    }
}

/// The bytes of a byte string.
pub(crate) fn bytes_in(value: &[u8]) -> Option<&[u8]>
    requires { IsOneValue value.now }
    ensures { option_map (λ bytes. bytes.now) result ≡ blob_at (out-Value (the_value value.now)) }
{
    match blob(value) {
        Some((bytes, _)) => {
            // Gives the proof that the length is below 2^64.
            let _len = bytes.len();
            Some(bytes)
        }
        None => None,
    }
}

/// A number that is not negative.
pub(crate) fn number_in(alloc: Global, value: &[u8]) -> Mem<Option<u128>>
    requires { IsOneValue value.now }
    ensures { IfOk result (λ number. number ≡ natural_at (out-Value (the_value value.now))) }
{
    let value = decoded(alloc, value)?;
    Ok(number_of(&value))
}

/// The CID of a link.
pub(crate) fn link_in(alloc: Global, value: &[u8]) -> Mem<Option<Cid>>
    requires { IsOneValue value.now }
    ensures { IfOk result (λ cid. cid ≡ cid_at (out-Value (the_value value.now))) }
{
    let value = decoded(alloc, value)?;
    Ok(link_of(value))
}

/// The value that bytes spell.
fn decoded(alloc: Global, bytes: &[u8]) -> Mem<Value>
    requires { IsOneValue bytes.now }
    ensures { IfOk result (λ value. value ≡ the_value bytes.now) }
{
    match decode(alloc, bytes) {
        Ok(value) => Ok(value),
        Err(Failure::NoMemory) => Err(NoMemory),
        Err(Failure::Fault(_)) => unreachable!(),
    }
}

/// A number that is not negative.
fn number_of(value: &Value) -> Option<u128>
    ensures { result ≡ natural_at (out-Value value.now) }
{
    match value {
        Value::Int(number) => u128::try_from(*number).ok(),
        _ => None,
    }
}

/// The CID of a link.
fn link_of(value: Value) -> Option<Cid>
    ensures { result ≡ cid_at (out-Value value) }
{
    match value {
        Value::Link(cid) => Some(cid),
        _ => None,
    }
}
