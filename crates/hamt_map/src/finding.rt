ghost use Rattle.std.specs.Prelude.{◌≡◌, ◌≤◌, ◌<◌, ◌-◌, ℕ, IfOk, IfSome};
ghost use Rattle.std.specs.FinMap.{get};
ghost use Rattle.std.specs.FinMap.Entries.{find};
ghost use Rattle.std.specs.Option.{option_map};
ghost use Rattle.sha2.specs.Sha256.{sha256};
ghost use Rattle.dag_cbor.specs.Plain.{IsPlain};
ghost use Rattle.dag_cbor.specs.Spelling.{spelled};
ghost use Rattle.dag_cbor.specs.declared.value.Value.{Value as OneValue};
ghost use Rattle.hamt_map.specs.Ahead.{pointer_text};
ghost use Rattle.hamt_map.specs.Groups.{nodes_of, pointer_to};
ghost use Rattle.hamt_map.specs.Holds.{FitNodes};
ghost use Rattle.hamt_map.specs.Kept.{AreHeld, IsKept};
ghost use Rattle.hamt_map.specs.Node.{bucket, node, node_block, nodes};
ghost use Rattle.hamt_map.specs.Pairs.{Map, Pairs, at_place, key_cmp};

use crate::hashed::place_in;
use crate::loading::BELOW_ROOT;
use crate::stepping::{is_link, linked, next_pair, pairs_in, places_in};
use cid_core::BlockSource;
use dag_cbor::{Value, decode};
use fil_base::{Cid, Mem, NoMemory};
use sha2::{Digest, Sha256};
use std::alloc::Global;

/// The value of a key in the tree under a root.
pub(crate) fn kept_value<B: BlockSource>(
    alloc: Global,
    base: &B,
    root: &Cid,
    key: &[u8],
) -> Mem<Option<Value>>
    ensures { (kept : Map) → IsKept (B.blocks base.now) root.now kept
        → IfOk result (λ value. value ≡ get kept key.now) }
{
    let hash = Sha256::digest(key);
    match find_under(alloc, base, BELOW_ROOT, root, &hash, key)? {
        None => Ok(None),
        Some(spelling) => {
            let value = value_in(alloc, spelling)?;
            Ok(Some(value))
        }
    }
}

/// The value that is spelled so.
fn value_in(alloc: Global, spelling: &[u8]) -> Mem<Value>
    ensures { (there : OneValue) → IsPlain 124 there → spelling.now ≡ spelled there → IfOk result (λ value. value ≡ there) }
{
    match decode(alloc, spelling) {
        Ok(value) => Ok(value),
        Err(_) => Err(NoMemory),
    }
}

/// The spelling of a key's value in the tree under a canonical node with so many levels below, all of whose nodes are
/// in the base. The hash is the key's.
#[cycle(finding)]
pub(crate) fn find_under<'a, B: BlockSource>(
    alloc: Global,
    base: &'a B,
    below: u64,
    cid: &Cid,
    hash: &[u8; 32],
    key: &[u8],
) -> Mem<Option<&'a [u8]>>
    requires { below ≤ 50 }
    ensures { (ps : Pairs) → hash.now ≡ sha256 key.now → cid.now ≡ (node_block below ps).cid
        → AreHeld (B.blocks base.now) (nodes below ps) → FitNodes ps
        → IfOk result (λ found. option_map (λ s. s.now) found ≡ option_map spelled (find key_cmp key.now ps)) }
{
    let Some(block) = base.find(cid) else {
        return Err(NoMemory);
    };
    match pointer_at(block.bytes(), place_in(hash, 51 - below)) {
        Some(Some(pointer)) => find_behind(alloc, base, below, pointer, hash, key),
        Some(None) => Ok(None),
        None => Err(NoMemory),
    }
}

/// The spelling of a key's value behind a pointer of a canonical node with so many levels below.
#[cycle(finding)]
fn find_behind<'a, B: BlockSource>(
    alloc: Global,
    base: &'a B,
    below: u64,
    pointer: &'a [u8],
    hash: &[u8; 32],
    key: &[u8],
) -> Mem<Option<&'a [u8]>>
    requires { below ≤ 50 }
    ensures { (group : Pairs) → hash.now ≡ sha256 key.now → pointer.now ≡ spelled (pointer_to below group)
        → AreHeld (B.blocks base.now) (nodes_of below group) → FitNodes group
        → IfOk result (λ found. option_map (λ s. s.now) found ≡ option_map spelled (find key_cmp key.now group)) }
{
    if !is_link(pointer) {
        return match find_in_bucket(pointer, key) {
            Some(found) => Ok(found),
            None => Err(NoMemory),
        };
    }
    if below == 0 {
        return Err(NoMemory);
    }
    let cid = linked(alloc, pointer)?;
    find_under(alloc, base, below - 1, &cid, hash, key)
}

/// The spelling of the pointer at a place of the canonical node that the bytes spell, if it has one there.
fn pointer_at(bytes: &[u8], place: usize) -> Option<Option<&[u8]>>
    requires { place < 32 }
    ensures { (below : ℕ) (ps : Pairs) → bytes.now ≡ spelled (node below ps) → FitNodes ps
        → IfSome result (λ found. option_map (λ pointer. pointer.now) found
        ≡ pointer_text below (at_place (51 - below) place ps)) }
{
    let mut ahead = places_in(bytes)?;
    if (ahead.bits >> place) % 2 == 0 {
        return Some(None);
    }
    for _ in 0..place {
        let (_, behind) = ahead.step()?;
        ahead = behind;
    }
    let (pointer, _) = ahead.step()?;
    Some(pointer)
}

/// The spelling of a key's value in a bucket.
fn find_in_bucket<'a>(bytes: &'a [u8], key: &[u8]) -> Option<Option<&'a [u8]>>
    ensures { (ps : Pairs) → bytes.now ≡ spelled (bucket ps) → FitNodes ps
        → IfSome result (λ found. option_map (λ s. s.now) found ≡ option_map spelled (find key_cmp key.now ps)) }
{
    let (count, pairs) = pairs_in(bytes)?;
    let mut rest = pairs;
    let mut left = count;
    while left > 0 {
        left -= 1;
        let (own, spelling, behind) = next_pair(rest)?;
        if own == key {
            return Some(Some(spelling));
        }
        rest = behind;
    }
    Some(None)
}
