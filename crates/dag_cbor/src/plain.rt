ghost use Rattle.std.specs.Prelude.{◌≡◌, ◌<◌, ◌^◌, ◌↔◌, length, map, All, IsTrue};
ghost use Rattle.fil_base.specs.CidParts.{IsCid};
ghost use Rattle.dag_cbor.specs.declared.value.Value.TheOpen as layer;
ghost use Rattle.dag_cbor.specs.Plain.{IsPlain, IsPlainLayer, IsText, KeysRise, key_cmp};
ghost use Rattle.std.specs.declared.cmp.Ordering.TheVariants.{Less};

use crate::decoding::MAX_DEPTH;
use crate::key::key_order;
use crate::value::Value;
use fil_base::{Bytes, Cid};
use std::cmp::Ordering;
use std::str;

/// Whether a value has a spelling: its integers are from -2^64 to 2^64 - 1, its texts are UTF-8, the keys of its maps
/// rise, and its depth is at most [`MAX_DEPTH`].
pub fn is_plain(value: &Value) -> bool
    ensures { IsTrue result ↔ IsPlain MAX_DEPTH value.now }
{
    is_plain_within(MAX_DEPTH, value)
}

/// Whether a value has a spelling, and at most this depth.
#[cycle(judging)]
pub fn is_plain_within(depth: u64, value: &Value) -> bool
    ensures { IsTrue result ↔ IsPlain depth value.now }
{
    if depth == 0 {
        return false;
    }
    match value {
        Value::Null => true,
        Value::Bool(_) => true,
        Value::Int(integer) => is_integer(integer),
        Value::Blob(bytes) => fits_a_head(bytes.as_slice().len()),
        Value::Text(text) => is_text(text.as_slice()),
        Value::List(items) => is_plain_list(depth - 1, items.as_slice()),
        Value::Map(pairs) => is_plain_map(depth - 1, pairs.as_slice()),
        Value::Link(cid) => is_cid(cid),
    }
}

/// Whether a list has a spelling, and its items at most this depth.
#[cycle(judging)]
fn is_plain_list(depth: u64, items: &[Value]) -> bool
    ensures { IsTrue result ↔ (length items.now < 2 ^ 64) × All (IsPlain depth) items.now }
{
    for item in items {
        if !is_plain_within(depth, item) {
            return false;
        }
    }
    fits_a_head(items.len())
}

/// Whether a map has a spelling, and its items at most this depth.
#[cycle(judging)]
fn is_plain_map(depth: u64, pairs: &[(Bytes, Value)]) -> bool
    ensures { IsTrue result ↔ (length pairs.now < 2 ^ 64) × KeysRise (map (λ p. p.0) pairs.now)
        × All (λ p. IsText p.0 × IsPlain depth p.1) pairs.now }
{
    for (key, item) in pairs {
        if !is_text(key.as_slice()) || !is_plain_within(depth, item) {
            return false;
        }
    }
    fits_a_head(pairs.len()) && keys_rise(pairs)
}

/// Whether each key comes before the next.
fn keys_rise(pairs: &[(Bytes, Value)]) -> bool
    ensures { IsTrue result ↔ KeysRise (map (λ p. p.0) pairs.now) }
{
    for i in 1..pairs.len() {
        if !is_before(pairs[i - 1].0.as_slice(), pairs[i].0.as_slice()) {
            return false;
        }
    }
    true
}

/// Whether a key comes before another.
fn is_before(key: &[u8], other: &[u8]) -> bool
    ensures { IsTrue result ↔ (key_cmp key.now other.now ≡ Less) }
{
    key_order(key, other) == Ordering::Less
}

/// Whether an integer goes into a head.
fn is_integer(integer: &i128) -> bool
    ensures { IsTrue result ↔ IsPlainLayer (IsPlain 0) (layer.Int integer.now) }
{
    let integer = *integer;
    -(1 << 64) <= integer && integer < 1 << 64
}

/// Whether a length goes into a head, as each does on a machine of 64 bits.
fn fits_a_head(len: usize) -> bool
    ensures { IsTrue result ↔ (len < 2 ^ 64) }
{
    u64::try_from(len).is_ok()
}

/// Whether bytes are a text.
fn is_text(bytes: &[u8]) -> bool
    ensures { IsTrue result ↔ IsText bytes.now }
{
    str::from_utf8(bytes).is_ok()
}

/// Whether a CID has a spelling, as each has.
fn is_cid(cid: &Cid) -> bool
    ensures { IsTrue result ↔ IsCid cid.now }
{
    cid.version() <= 1
}
