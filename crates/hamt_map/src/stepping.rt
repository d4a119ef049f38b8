ghost use Rattle.std.specs.Prelude.{◌≡◌, ◌-◌, ◌∷◌, ℕ, false, IfOk, IfSome, List, length, true};
ghost use Rattle.std.specs.Int.Digits.{number_from_digits};
ghost use Rattle.std.specs.Option.{option_map};
ghost use Rattle.fil_base.specs.CidParts.{CidParts, IsCid};
ghost use Rattle.dag_cbor.specs.Spelling.{spelled};
ghost use Rattle.dag_cbor.specs.declared.value.Value.TheVariants as v;
ghost use Rattle.dag_cbor.specs.declared.value.Value.{Value};
ghost use Rattle.hamt_map.specs.Ahead.{AreAhead, PairsAhead, pointer_text};
ghost use Rattle.hamt_map.specs.Groups.{by_place};
ghost use Rattle.hamt_map.specs.Holds.{FitNodes};
ghost use Rattle.hamt_map.specs.Node.{bucket, node};
ghost use Rattle.hamt_map.specs.Pairs.{Pairs};

use dag_cbor::{Value, blob, decode, list_head, split_item};
use fil_base::{Cid, Failure, Mem, NoMemory};
use std::alloc::Global;

/// The first byte of a link's spelling: a tag whose number is in the next byte.
const TAG: u8 = 0xd8;

/// The places of a canonical node from one on, in the bytes of its block.
#[derive(Clone, Copy)]
pub(crate) struct Ahead<'a> {
    /// The bit of each place that has a pointer.
    pub(crate) bits: u64,

    /// The spellings of the pointers, one after another.
    pub(crate) pointers: &'a [u8],
}

/// All places of the canonical node that the bytes spell.
pub(crate) fn places_in(bytes: &[u8]) -> Option<Ahead<'_>>
    ensures { (below : ℕ) (ps : Pairs) → bytes.now ≡ spelled (node below ps) → FitNodes ps
        → IfSome result (λ x. AreAhead below (by_place (51 - below) ps) x.bits x.pointers.now) }
{
    let (_, parts) = list_head(bytes)?;
    let (field, behind) = blob(parts)?;
    let (_, pointers) = list_head(behind)?;
    let bits = number_of(field)?;
    Some(Ahead { bits, pointers })
}

/// The number of a bit field, which has four bytes at most.
fn number_of(field: &[u8]) -> Option<u64>
    ensures { IfSome result (λ number. number ≡ number_from_digits 256 field.now) }
{
    if field.len() > 4 {
        return None;
    }
    let mut number: u64 = 0;
    for byte in field {
        number = number * 256 + u64::from(*byte);
    }
    Some(number)
}

impl<'a> Ahead<'a> {
    /// The spelling of the pointer at the next place, if it has one, and the places behind it.
    pub(crate) fn step(&self) -> Option<(Option<&'a [u8]>, Ahead<'a>)>
        ensures { (below : ℕ) (group : Pairs) (more : List Pairs)
            → AreAhead below (group ∷ more) self.now.bits self.now.pointers.now
            → IfSome result (λ x. (option_map (λ pointer. pointer.now) x.0 ≡ pointer_text below group)
            × AreAhead below more x.1.bits x.1.pointers.now) }
    {
        let bits = self.bits / 2;
        if self.bits % 2 == 0 {
            let pointers = self.pointers;
            return Some((None, Ahead { bits, pointers }));
        }
        let (pointer, pointers) = split_item(126, self.pointers)?;
        Some((Some(pointer), Ahead { bits, pointers }))
    }
}

/// Whether a pointer is a link, and no bucket.
pub(crate) fn is_link(pointer: &[u8]) -> bool
    ensures bucket { (ps : Pairs) → pointer.now ≡ spelled (bucket ps) → result ≡ false }
    ensures link { (cid : CidParts) → pointer.now ≡ spelled (v.Link cid) → result ≡ true }
{
    match pointer.first() {
        Some(first) => *first == TAG,
        None => false,
    }
}

/// The CID to which a pointer is a link.
pub(crate) fn linked(alloc: Global, pointer: &[u8]) -> Mem<Cid>
    ensures { (cid : CidParts) → IsCid cid → pointer.now ≡ spelled (v.Link cid) → IfOk result (λ found. found ≡ cid) }
{
    match decode(alloc, pointer) {
        Ok(value) => cid_of(value),
        Err(Failure::NoMemory) => Err(NoMemory),
        Err(Failure::Fault(_)) => Err(NoMemory),
    }
}

/// The CID to which a value is a link.
fn cid_of(value: Value) -> Mem<Cid>
    ensures { (cid : CidParts) → value ≡ v.Link cid → IfOk result (λ found. found ≡ cid) }
{
    match value {
        Value::Link(cid) => Ok(cid),
        _ => Err(NoMemory),
    }
}

/// How many pairs a bucket has, and their spellings, one after another.
pub(crate) fn pairs_in(bytes: &[u8]) -> Option<(u64, &[u8])>
    ensures { (ps : Pairs) → bytes.now ≡ spelled (bucket ps) → FitNodes ps
        → IfSome result (λ x. (x.0 ≡ length ps) × PairsAhead ps x.1.now) }
{
    let (count, pairs) = list_head(bytes)?;
    Some((count, pairs))
}

/// The key of the next pair of a bucket, the spelling of its value, and the bytes behind it.
pub(crate) fn next_pair(bytes: &[u8]) -> Option<(&[u8], &[u8], &[u8])>
    ensures { (p : List ℕ × Value) (more : Pairs) → PairsAhead (p ∷ more) bytes.now
        → IfSome result (λ x. (x.0.now ≡ p.0) × (x.1.now ≡ spelled p.1) × PairsAhead more x.2.now) }
{
    let (_, parts) = list_head(bytes)?;
    let (key, behind) = blob(parts)?;
    let (spelling, rest) = split_item(124, behind)?;
    Some((key, spelling, rest))
}
