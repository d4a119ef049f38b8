ghost use Rattle.std.specs.Prelude.{◌≡◌, ◌++◌, ℕ, IfOk, List, OnOk, map};
ghost use Rattle.std.specs.FinMap.{entries};
ghost use Rattle.std.specs.List.{flat_map};
ghost use Rattle.dag_cbor.specs.Spelling.{spelled};
ghost use Rattle.hamt_map.specs.Canonical.{map_of};
ghost use Rattle.hamt_map.specs.HashOrder.{AreLent, pair_text};
ghost use Rattle.hamt_map.specs.Lent.{lent_of};
ghost use Rattle.hamt_map.specs.Holds.{spellings};
ghost use Rattle.hamt_map.specs.Node.{bucket};
ghost use Rattle.hamt_map.specs.Pairs.{Pairs};

use crate::hashed::Hashed;
use crate::pointers::{BYTES, LIST};
use dag_cbor::{put_head, put_string};
use fil_base::Mem;
use std::alloc::Global;

/// Writes the bucket of pairs.
pub(crate) fn put_bucket(alloc: Global, out: &mut Vec<u8>, pairs: &[Hashed]) -> Mem<()>
    ensures { (below : ℕ) (ps : Pairs)
        → AreLent below (map lent_of pairs.now) ps
        → OnOk result (out.new.items ≡ out.old.items ++ spelled (bucket (entries (map_of ps)))) }
{
    // Most buckets have one pair, which needs no order.
    if pairs.len() == 1 {
        put_head(out, LIST, 1)?;
        return put_pair(out, pairs[0].key, pairs[0].spelling);
    }
    let ordered = by_key(alloc, pairs)?;
    put_head(out, LIST, ordered.len() as u64)?;
    put_pairs(out, ordered.as_slice())
}

/// Writes the pairs of a bucket.
fn put_pairs(out: &mut Vec<u8>, pairs: &[(&[u8], &[u8])]) -> Mem<()>
    ensures { OnOk result (out.new.items
        ≡ out.old.items ++ flat_map pair_text (map (λ p. (p.0.now, p.1.now)) pairs.now)) }
{
    for pair in pairs {
        put_pair(out, pair.0, pair.1)?;
    }
    Ok(())
}

/// Writes a pair of a bucket: a list of the key and the value, which is spelled so.
fn put_pair(out: &mut Vec<u8>, key: &[u8], spelling: &[u8]) -> Mem<()>
    ensures { OnOk result (out.new.items ≡ out.old.items ++ pair_text (key.now, spelling.now)) }
{
    put_head(out, LIST, 2)?;
    put_string(out, BYTES, key)?;
    out.extend_from_slice(spelling)?;
    Ok(())
}

/// Keys with the spellings of their values, by rising key.
fn by_key<'a>(alloc: Global, pairs: &[Hashed<'a>]) -> Mem<Vec<(&'a [u8], &'a [u8])>>
    ensures { (below : ℕ) (ps : Pairs)
        → AreLent below (map lent_of pairs.now) ps
        → IfOk result (λ ordered. map (λ p. (p.0.now, p.1.now)) ordered.items ≡ spellings (entries (map_of ps))) }
{
    let mut ordered = without_hashes(alloc, pairs)?;
    ordered.sort_unstable();
    Ok(ordered)
}

/// Keys with the spellings of their values.
fn without_hashes<'a>(alloc: Global, pairs: &[Hashed<'a>]) -> Mem<Vec<(&'a [u8], &'a [u8])>>
    ensures { IfOk result (λ texts. map {B = List ℕ × List ℕ} (λ p. (p.0.now, p.1.now)) texts.items
        ≡ map (λ p. (p.key.now, p.spelling.now)) pairs.now) }
{
    let mut texts = Vec::with_capacity(alloc, pairs.len())?;
    for pair in pairs {
        texts.push((pair.key, pair.spelling))?;
    }
    Ok(texts)
}
