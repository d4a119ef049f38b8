ghost use Rattle.std.specs.Prelude.{◌≡◌, ◌≤◌, ◌++◌, ℕ, All, IfOk, List, OnOk, T, is_some, map, true};
ghost use Rattle.std.specs.FinMap.Entries.{find, is_sorted};
ghost use Rattle.dag_cbor.specs.Spelling.{spelled};
ghost use Rattle.hamt_map.specs.Canonical.{map_of};
ghost use Rattle.hamt_map.specs.HashOrder.{AreLent, MapLent};
ghost use Rattle.hamt_map.specs.Holds.{FitNodes, Holds};
ghost use Rattle.hamt_map.specs.Lent.{IsHashed, lent_of};
ghost use Rattle.hamt_map.specs.Node.{bucket as bucket_of};
ghost use Rattle.hamt_map.specs.Pairs.{Pairs, key_cmp};

use crate::hashed::Hashed;
use crate::stepping::{next_pair, pairs_in};
use fil_base::{Mem, NoMemory};
use std::alloc::Global;
use std::collections::BTreeMap;

/// Pairs and those of a bucket under them, lent, by the bits of their hashes that count where so many levels are below.
/// Of a key that both have the first value counts.
pub(crate) fn over_bucket<'a>(
    alloc: Global,
    below: u64,
    pairs: &[Hashed<'a>],
    bucket: &'a [u8],
) -> Mem<Vec<Hashed<'a>>>
    requires { below ≤ 50 }
    ensures { (start : ℕ) (ps old : Pairs) → AreLent start (map lent_of pairs.now) ps
        → FitNodes old → T (is_sorted key_cmp old) → bucket.now ≡ spelled (bucket_of old)
        → IfOk result (λ hashed. MapLent below (map_of (ps ++ old)) (map lent_of hashed.items)) }
{
    let mut ordered = lent_pairs(alloc, bucket)?;
    put_over(&mut ordered, pairs)?;
    let mut hashed = by_hash(alloc, below, &ordered)?;
    hashed.sort_unstable();
    Ok(hashed)
}

/// The keys of a bucket, with the spellings of their values.
fn lent_pairs<'a>(alloc: Global, bucket: &'a [u8]) -> Mem<BTreeMap<&'a [u8], &'a [u8]>>
    ensures { (old : Pairs) → FitNodes old → T (is_sorted key_cmp old) → bucket.now ≡ spelled (bucket_of old)
        → IfOk result (λ made. Holds (map (λ e. (e.0.now, e.1.now)) made.entries) (map_of old)) }
{
    let Some((count, pairs)) = pairs_in(bucket) else {
        return Err(NoMemory);
    };
    let mut ordered = BTreeMap::new(alloc);
    let mut rest = pairs;
    for _ in 0..count {
        let Some((key, spelling, behind)) = next_pair(rest) else {
            return Err(NoMemory);
        };
        ordered.insert(key, spelling)?;
        rest = behind;
    }
    Ok(ordered)
}

/// Puts pairs over those that are there. Of a key that is met twice the first value counts.
fn put_over<'a>(ordered: &mut BTreeMap<&'a [u8], &'a [u8]>, pairs: &[Hashed<'a>]) -> Mem<()>
    ensures { (below : ℕ) (ps old : Pairs) → AreLent below (map lent_of pairs.now) ps
        → Holds (map (λ e. (e.0.now, e.1.now)) ordered.old.entries) (map_of old)
        → OnOk result (Holds (map (λ e. (e.0.now, e.1.now)) ordered.new.entries) (map_of (ps ++ old))) }
{
    let mut left = pairs.len();
    while left > 0 {
        left -= 1;
        let pair = &pairs[left];
        ordered.insert(pair.key, pair.spelling)?;
    }
    Ok(())
}

/// Pairs, lent, with the bits of their hashes that count where so many levels are below.
fn by_hash<'a>(
    alloc: Global,
    below: u64,
    ordered: &BTreeMap<&'a [u8], &'a [u8]>,
) -> Mem<Vec<Hashed<'a>>>
    requires { below ≤ 50 }
    ensures lent { (pairs : List (List ℕ × List ℕ)) → map (λ e. (e.0.now, e.1.now)) ordered.now.entries ≡ pairs
        → IfOk result (λ hashed. map (λ p. (p.key.now, p.spelling.now)) hashed.items ≡ pairs) }
    ensures hashes { IfOk result (λ hashed. All (IsHashed below) hashed.items) }
{
    let mut hashed = Vec::with_capacity(alloc, ordered.len())?;
    for (key, spelling) in ordered {
        hashed.push(Hashed::of(below, key, spelling))?;
    }
    Ok(hashed)
}

/// Whether each key of a bucket is among those of pairs.
pub(crate) fn covers(pairs: &[Hashed], bucket: &[u8]) -> bool
    ensures { (below : ℕ) (ps old : Pairs) → AreLent below (map lent_of pairs.now) ps
        → FitNodes old → bucket.now ≡ spelled (bucket_of old)
        → result ≡ true → map_of (ps ++ old) ≡ map_of ps }
{
    let Some((count, spellings)) = pairs_in(bucket) else {
        return false;
    };
    let mut rest = spellings;
    for _ in 0..count {
        let Some((key, _, behind)) = next_pair(rest) else {
            return false;
        };
        if !has_key(pairs, key) {
            return false;
        }
        rest = behind;
    }
    true
}

/// Whether a key is among those of pairs.
fn has_key(pairs: &[Hashed], key: &[u8]) -> bool
    ensures { (below : ℕ) (ps : Pairs) → AreLent below (map lent_of pairs.now) ps
        → result ≡ true → is_some (find key_cmp key.now ps) ≡ true }
{
    for pair in pairs {
        if pair.key == key {
            return true;
        }
    }
    false
}
