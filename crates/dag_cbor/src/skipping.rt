ghost use Rattle.std.specs.Prelude.{[], Some};
ghost use Rattle.dag_cbor.specs.Behind.{behind, behind_items, behind_pairs};
ghost use Rattle.dag_cbor.specs.Reading.{Gives, item_at, mapped, token_after};

use crate::fault::{CborKind, Flaw};
use crate::head::{BYTES, Head, LIST, MAP, TAG, TEXT, head_of};
use crate::key::{any_key_of, next_key_of};
use crate::link_form::skip_link;
use crate::short_item::behind_short_item;
use crate::text::{blob_of, text_of};
use crate::usual_link::behind_usual_link;

/// The bytes behind the item at the front, which nests at most so deep. Most items of the chain's blocks are short or
/// usual links.
#[inline(always)]
#[cycle(skipping)]
pub fn skip_item(depth: u64, bytes: &[u8]) -> Result<&[u8], Flaw>
    ensures { Gives (λ rest. rest.now) result (behind (item_at depth bytes.now)) }
{
    if let Some(rest) = behind_short_item(depth, bytes) {
        return Ok(rest);
    }
    if let Some(rest) = behind_usual_link(depth, bytes) {
        return Ok(rest);
    }
    skip_any_item(depth, bytes)
}

/// The bytes behind the item at the front, of any kind.
#[cycle(skipping)]
fn skip_any_item(depth: u64, bytes: &[u8]) -> Result<&[u8], Flaw>
    ensures { Gives (λ rest. rest.now) result (behind (item_at depth bytes.now)) }
{
    let left = bytes.len() as u64;
    let (head, after) = head_of(bytes)?;
    if depth == 0 {
        return Err(Flaw {
            kind: CborKind::Depth,
            left,
        });
    }
    match head.major {
        LIST => skip_items(depth - 1, head.number, after),
        MAP => skip_pairs(depth - 1, head.number, after),
        _ => skip_content(left, head, after),
    }
}

/// The bytes behind so many items.
#[cycle(skipping)]
fn skip_items(depth: u64, count: u64, bytes: &[u8]) -> Result<&[u8], Flaw>
    ensures { Gives (λ rest. rest.now) result (behind_items (item_at depth) count bytes.now) }
{
    let mut rest = bytes;
    for _ in 0..count {
        rest = skip_item(depth, rest)?;
    }
    Ok(rest)
}

/// The bytes behind the pairs of a map of so many.
#[cycle(skipping)]
fn skip_pairs(depth: u64, count: u64, bytes: &[u8]) -> Result<&[u8], Flaw>
    ensures { Gives (λ rest. rest.now) result (behind (mapped depth (item_at depth) [] count bytes.now)) }
{
    if count == 0 {
        return Ok(bytes);
    }
    let (first, behind_key) = any_key_of(depth, bytes)?;
    let rest = skip_item(depth, behind_key)?;
    skip_more_pairs(depth, first, count - 1, rest)
}

/// The bytes behind so many pairs, which come after a pair of this key.
#[cycle(skipping)]
fn skip_more_pairs<'a>(
    depth: u64,
    key: &[u8],
    count: u64,
    bytes: &'a [u8],
) -> Result<&'a [u8], Flaw>
    ensures { Gives (λ rest. rest.now) result (behind_pairs depth (item_at depth) (Some key.now) count bytes.now) }
{
    let mut last = key;
    let mut rest = bytes;
    for _ in 0..count {
        let (key, behind_key) = next_key_of(depth, last, rest)?;
        rest = skip_item(depth, behind_key)?;
        last = key;
    }
    Ok(rest)
}

/// The bytes behind the token whose head was this one, with so many bytes left at the head.
fn skip_content(left: u64, head: Head, bytes: &[u8]) -> Result<&[u8], Flaw>
    ensures { Gives (λ rest. rest.now) result (behind (token_after left (head, bytes.now))) }
{
    match head.major {
        BYTES => {
            let (_, rest) = blob_of(head.number, bytes)?;
            Ok(rest)
        }
        TEXT => {
            let (_, rest) = text_of(left, head.number, bytes)?;
            Ok(rest)
        }
        TAG => skip_link(left, bytes),
        _ => Ok(bytes),
    }
}
