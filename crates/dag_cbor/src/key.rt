ghost use Rattle.std.specs.Prelude.{◌≡◌, ℕ, List, Some};
ghost use Rattle.dag_cbor.specs.Plain.{key_cmp};
ghost use Rattle.dag_cbor.specs.Keys.{last_key, order_after};
ghost use Rattle.dag_cbor.specs.Reading.{Gives, in_order, key_at};
ghost use Rattle.dag_cbor.specs.Behind.{any_key_at, key_after};

use crate::fault::{CborKind, Flaw};
use crate::head::{TEXT, head_of};
use crate::text::text_of;
use crate::value::Value;
use fil_base::Bytes;
use std::cmp::Ordering;

/// The key at the front, behind these pairs and with so much depth left, and the bytes after it.
#[inline(always)]
#[tactic(auto, unfolding(crate::specs::Reading::key_at, crate::specs::Behind::any_key_at))]
pub fn key_of<'a>(
    room: u64,
    done: &[(Bytes, Value)],
    bytes: &'a [u8],
) -> Result<(&'a [u8], &'a [u8]), Flaw>
    ensures { Gives (λ x. (x.0.now, x.1.now)) result (key_at room done.now bytes.now) }
{
    let left = bytes.len() as u64;
    let (key, rest) = any_key_of(room, bytes)?;
    in_order(order_behind(done, key), left, key, rest)
}

/// The key at the front, behind this one and with so much depth left, and the bytes after it.
#[tactic(auto, unfolding(crate::specs::Behind::key_after))]
pub fn next_key_of<'a>(
    room: u64,
    last: &[u8],
    bytes: &'a [u8],
) -> Result<(&'a [u8], &'a [u8]), Flaw>
    ensures { Gives (λ x. (x.0.now, x.1.now)) result (key_after room (Some last.now) bytes.now) }
{
    let left = bytes.len() as u64;
    let (key, rest) = any_key_of(room, bytes)?;
    in_order(key_order(last, key), left, key, rest)
}

/// The key at the front, with so much depth left and at any place in a map, and the bytes after it.
#[inline(always)]
#[tactic(auto, unfolding(crate::specs::Behind::any_key_at))]
pub fn any_key_of(room: u64, bytes: &[u8]) -> Result<(&[u8], &[u8]), Flaw>
    ensures { Gives (λ x. (x.0.now, x.1.now)) result (any_key_at room bytes.now) }
{
    let left = bytes.len() as u64;
    let (head, after) = head_of(bytes)?;
    if head.major != TEXT {
        return Err(Flaw {
            kind: CborKind::KeyKind,
            left,
        });
    }
    if room == 0 {
        return Err(Flaw {
            kind: CborKind::Depth,
            left,
        });
    }
    text_of(left, head.number, after)
}

/// A key and the bytes after it, if the last key stands so to it, with so many bytes left at its head.
#[inline(always)]
fn in_order<'a>(
    order: Ordering,
    left: u64,
    key: &'a [u8],
    rest: &'a [u8],
) -> Result<(&'a [u8], &'a [u8]), Flaw>
    ensures { Gives {Y = List ℕ × List ℕ} (λ x. (x.0.now, x.1.now)) result (in_order order left (key.now, rest.now)) }
{
    match order {
        Ordering::Less => Ok((key, rest)),
        Ordering::Equal => Err(Flaw {
            kind: CborKind::KeyRepeat,
            left,
        }),
        Ordering::Greater => Err(Flaw {
            kind: CborKind::KeyOrder,
            left,
        }),
    }
}

/// How the last key of these pairs stands to the next key.
#[inline(always)]
fn order_behind(done: &[(Bytes, Value)], key: &[u8]) -> Ordering
    ensures { result ≡ order_after (last_key done.now) key.now }
{
    match done.last() {
        None => Ordering::Less,
        Some((last, _)) => key_order(last.as_slice(), key),
    }
}

/// The order of keys: shorter ones first, and those of one length by their bytes.
#[inline(always)]
pub fn key_order(a: &[u8], b: &[u8]) -> Ordering
    ensures { result ≡ key_cmp a.now b.now }
{
    a.len().cmp(&b.len()).then(a.cmp(b))
}
