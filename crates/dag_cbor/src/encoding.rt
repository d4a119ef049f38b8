ghost use Rattle.std.specs.Prelude.{◌≡◌, ◌++◌, ◌-◌, ◌<◌, length, All, IfOk};
ghost use Rattle.std.specs.List.{flat_map};
ghost use Rattle.dag_cbor.specs.Plain.{IsPlain};
ghost use Rattle.dag_cbor.specs.Spelling.{head, spelled, spelled_pair};

use crate::decoding::MAX_DEPTH;
use crate::head::{BYTES, LIST, MAP, SIMPLE, TEXT};
use crate::value::Value;
use crate::writing::{put_bool, put_head, put_integer, put_link, put_string};
use fil_base::{Bytes, Mem};
use std::alloc::Global;

/// The greatest length of a head, in bytes.
const HEAD_LEN: usize = 9;

/// The length of the head of a list of at most 65,535 items.
const LIST_HEAD_LEN: usize = 3;

/// How many bytes a usual link has in front of its digest.
const LINK_FRONT_LEN: usize = 11;

/// The room that is made for a list or a map within a list, in bytes.
const INNER_LEN: usize = 64;

/// The one spelling of a value.
pub fn encode(alloc: Global, value: &Value) -> Mem<Bytes>
    requires { IsPlain MAX_DEPTH value.now }
    ensures { IfOk result (λ bytes. bytes ≡ spelled value.now) }
{
    let mut out = Vec::with_capacity(alloc, room_for(value))?;
    put_value(&mut out, MAX_DEPTH, value)?;
    Ok(Bytes::of(out))
}

/// About as many bytes as the spelling of a value has, so that few values are moved while they are written: no fewer for
/// a list of at most 65,535 numbers, strings and usual links, as an actor's record is.
fn room_for(value: &Value) -> usize {
    match value {
        Value::List(items) => room_for_items(items.as_slice()),
        _ => room_for_item(value),
    }
}

/// Likewise for the list of these items.
fn room_for_items(items: &[Value]) -> usize {
    let mut room = LIST_HEAD_LEN;
    for item in items {
        room = room.saturating_add(room_for_item(item));
    }
    room
}

/// Likewise for an item of a list, without regard to the items in it.
fn room_for_item(item: &Value) -> usize {
    match item {
        Value::Null | Value::Bool(_) => 1,
        Value::Int(_) => HEAD_LEN,
        Value::Blob(bytes) => HEAD_LEN.saturating_add(bytes.as_slice().len()),
        Value::Text(text) => HEAD_LEN.saturating_add(text.as_slice().len()),
        Value::List(_) => INNER_LEN,
        Value::Map(_) => INNER_LEN,
        Value::Link(cid) => LINK_FRONT_LEN.saturating_add(cid.digest().len()),
    }
}

/// Writes the spelling of a value of at most this depth.
#[cycle(putting)]
fn put_value(out: &mut Vec<u8>, depth: u64, value: &Value) -> Mem<()>
    requires { IsPlain depth value.now }
    ensures { IfOk result (λ _. out.new.items ≡ out.old.items ++ spelled value.now) }
{
    match value {
        Value::Null => put_head(out, SIMPLE, 22),
        Value::Bool(truth) => put_bool(out, *truth),
        Value::Int(integer) => put_integer(out, integer),
        Value::Blob(bytes) => put_string(out, BYTES, bytes.as_slice()),
        Value::Text(text) => put_string(out, TEXT, text.as_slice()),
        Value::List(items) => put_list(out, depth, items.as_slice()),
        Value::Map(pairs) => put_map(out, depth, pairs.as_slice()),
        Value::Link(cid) => put_link(out, cid),
    }
}

/// Writes the spelling of the list of these items, which is of at most this depth.
#[cycle(putting)]
fn put_list(out: &mut Vec<u8>, depth: u64, items: &[Value]) -> Mem<()>
    requires deep { 0 < depth }
    requires plain { All (IsPlain (depth - 1)) items.now }
    ensures { IfOk result (λ _. out.new.items
        ≡ out.old.items ++ (head 4 (length items.now) ++ flat_map spelled items.now)) }
{
    put_head(out, LIST, items.len() as u64)?;
    for item in items {
        put_value(out, depth - 1, item)?;
    }
    Ok(())
}

/// Writes the spelling of the map of these pairs, which is of at most this depth.
#[cycle(putting)]
fn put_map(out: &mut Vec<u8>, depth: u64, pairs: &[(Bytes, Value)]) -> Mem<()>
    requires deep { 0 < depth }
    requires plain { All (λ p. IsPlain (depth - 1) p.1) pairs.now }
    ensures { IfOk result (λ _. out.new.items
        ≡ out.old.items ++ (head 5 (length pairs.now) ++ flat_map (λ p. spelled_pair (p.0, spelled p.1)) pairs.now)) }
{
    put_head(out, MAP, pairs.len() as u64)?;
    for (key, value) in pairs {
        put_string(out, TEXT, key.as_slice())?;
        put_value(out, depth - 1, value)?;
    }
    Ok(())
}
