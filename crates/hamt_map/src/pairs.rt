ghost use Rattle.std.specs.Prelude.{◌≡◌, ◌≤◌, ◌++◌, All, IfOk, IfSome, IsSome, OnErr, OnOk, map};
ghost use Rattle.std.specs.FinMap.{empty, entries, from_entries, get, insert, remove};
ghost use Rattle.std.specs.FinMap.Entries.{find, put};
ghost use Rattle.std.specs.Option.{option_map};
ghost use Rattle.dag_cbor.specs.Plain.{IsPlain};
ghost use Rattle.dag_cbor.specs.Spelling.{spelled};
ghost use Rattle.hamt_map.specs.HashOrder.{MapLent};
ghost use Rattle.hamt_map.specs.Holds.{FitNodes, Holds, IsSpelling, spellings};
ghost use Rattle.hamt_map.specs.Lent.{IsHashed, lent_of};
ghost use Rattle.hamt_map.specs.Pairs.{Map, Pairs, key_cmp};

use crate::hashed::Hashed;
use crate::leaf::Leaf;
use dag_cbor::{Value, decode, encode};
use fil_base::{Bytes, Failure, Mem, NoMemory};
use std::alloc::Global;
use std::collections::BTreeMap;
use std::marker::Model;

/// The pairs of a map: keys with the spellings of their values, by rising key. In clauses, `Holds pairs m` says that
/// the map is `m`.
#[derive(Drop)]
pub(crate) struct Spelled {
    inner: BTreeMap<Vec<u8>, Vec<u8>>,
}

impl Model for Spelled {
    ghost use Rattle.std.specs.Prelude.{List, ℕ, map};
    ghost use Rattle.hamt_map.specs.Holds.{Holds};
    ghost use Rattle.hamt_map.specs.Pairs.{Map};

    ghost Value = { List (List ℕ × List ℕ) };

    ghost view = { λ pairs. map (λ e. (e.0.items, e.1.items)) pairs.inner.entries };

    ghost invariant = { λ pairs. (m : Map) × Holds (map (λ e. (e.0.items, e.1.items)) pairs.inner.entries) m };
}

impl Spelled {
    pub(crate) fn empty(alloc: Global) -> Spelled
        ensures { Holds result empty }
    {
        Spelled {
            inner: BTreeMap::new(alloc),
        }
    }

    /// The pairs of leaves. Of a key that is met twice the first value counts.
    pub(crate) fn of_leaves(alloc: Global, leaves: &[Leaf]) -> Mem<Spelled>
        ensures { (pairs : Pairs) → leaves.now ≡ spellings pairs → FitNodes pairs
            → IfOk result (λ made. Holds made (from_entries pairs)) }
    {
        let mut pairs = Spelled::empty(alloc);
        let mut left = leaves.len();
        while left > 0 {
            left -= 1;
            let leaf = &leaves[left];
            let key = Vec::from_slice(alloc, leaf.key())?;
            let spelling = Vec::from_slice(alloc, leaf.spelling())?;
            pairs.put(key, spelling)?;
        }
        Ok(pairs)
    }

    /// Puts the pairs, lent, behind leaves that are there.
    pub(crate) fn put_leaves<'a>(&'a self, leaves: &mut Vec<Leaf<'a>>) -> Mem<()>
        ensures { OnOk result (leaves.new.items ≡ leaves.old.items ++ self.now) }
    {
        for (key, spelling) in &self.inner {
            leaves.push(Leaf::of(key.as_slice(), spelling.as_slice()))?;
        }
        Ok(())
    }

    /// The same pairs.
    pub(crate) fn copy(&self) -> Mem<Spelled>
        ensures { IfOk result (λ copy. copy ≡ self.now) }
    {
        let inner = self.inner.clone()?;
        Ok(Spelled { inner })
    }

    /// The value of a key.
    pub(crate) fn get(&self, alloc: Global, key: &[u8]) -> Mem<Option<Value>>
        ensures { (m : Map) → Holds self.now m → IfOk result (λ value. value ≡ get m key.now) }
    {
        match self.inner.get(key) {
            None => Ok(None),
            Some(spelling) => {
                let value = value_of(alloc, spelling.as_slice())?;
                Ok(Some(value))
            }
        }
    }

    /// Gives a key a value, and answers the old one.
    pub(crate) fn insert(&mut self, alloc: Global, key: &[u8], value: &Value) -> Mem<Option<Value>>
        requires plain { IsPlain 124 value.now }
        ensures old { (m : Map) → Holds self.old m → IfOk result (λ old. old ≡ get m key.now) }
        ensures after { (m : Map) → Holds self.old m → OnOk result (Holds self.new (insert m key.now value.now)) }
        ensures unchanged { OnErr result (self.new ≡ self.old) }
    {
        let spelling = encode(alloc, value)?;
        let owned = Vec::from_slice(alloc, key)?;
        let Some(old) = self.put(owned, spelling.into_vec())? else {
            return Ok(None);
        };
        match value_of(alloc, old.as_slice()) {
            Ok(value) => Ok(Some(value)),
            Err(_) => {
                self.put_back(key, old);
                Err(NoMemory)
            }
        }
    }

    /// Gives a key a value. The old one is not read.
    pub(crate) fn set(&mut self, alloc: Global, key: &[u8], value: &Value) -> Mem<()>
        requires plain { IsPlain 124 value.now }
        ensures after { (m : Map) → Holds self.old m → OnOk result (Holds self.new (insert m key.now value.now)) }
        ensures unchanged { OnErr result (self.new ≡ self.old) }
    {
        let spelling = encode(alloc, value)?;
        let owned = Vec::from_slice(alloc, key)?;
        self.put(owned, spelling.into_vec())?;
        Ok(())
    }

    /// Takes a key away.
    pub(crate) fn remove(&mut self, key: &[u8])
        ensures { (m : Map) → Holds self.old m → Holds self.new (remove m key.now) }
    {
        self.inner.remove(key);
    }

    /// The pairs, lent, by the bits of their hashes that count where so many levels are below.
    pub(crate) fn by_hash(&self, alloc: Global, below: u64) -> Mem<Vec<Hashed<'_>>>
        requires { below ≤ 50 }
        ensures held { IfOk result (λ hashed. (m : Map) × Holds self.now m) }
        ensures lent { (m : Map) → Holds self.now m → IfOk result (λ hashed. MapLent below m
            (map lent_of hashed.items)) }
    {
        let mut hashed = self.hashed(alloc, below)?;
        hashed.sort_unstable();
        Ok(hashed)
    }

    /// The pairs, lent, with the bits of their hashes that count where so many levels are below.
    fn hashed(&self, alloc: Global, below: u64) -> Mem<Vec<Hashed<'_>>>
        requires { below ≤ 50 }
        ensures held { IfOk result (λ hashed. (m : Map) × Holds self.now m) }
        ensures lent { IfOk result (λ hashed. map (λ p. (p.key.now, p.spelling.now)) hashed.items ≡ self.now) }
        ensures hashes { IfOk result (λ hashed. All (IsHashed below) hashed.items) }
    {
        let mut hashed = Vec::with_capacity(alloc, self.inner.len())?;
        for (key, spelling) in &self.inner {
            hashed.push(Hashed::of(below, key.as_slice(), spelling.as_slice()))?;
        }
        Ok(hashed)
    }

    /// All pairs, by rising key.
    pub(crate) fn decoded(&self, alloc: Global) -> Mem<Vec<(Bytes, Value)>>
        ensures map { (m : Map) → Holds self.now m → IfOk result (λ pairs. pairs.items ≡ entries m) }
        ensures fit { IfOk result (λ pairs. FitNodes pairs.items) }
    {
        let mut pairs = Vec::with_capacity(alloc, self.inner.len())?;
        for (key, spelling) in &self.inner {
            let value = value_of(alloc, spelling.as_slice())?;
            let key = Bytes::copy_of(alloc, key.as_slice())?;
            pairs.push((key, value))?;
        }
        Ok(pairs)
    }

    /// Gives a key a spelling, and answers the old one.
    fn put(&mut self, key: Vec<u8>, spelling: Vec<u8>) -> Mem<Option<Vec<u8>>>
        requires { IsSpelling spelling.items }
        ensures held { IfOk result (λ old. (m : Map) × Holds self.old m) }
        ensures old { IfOk result (λ old. option_map (λ s. s.items) old ≡ find key_cmp key.items self.old) }
        ensures spelling { IfOk result (λ old. IfSome old (λ s. IsSpelling s.items)) }
        ensures after { OnOk result (self.new ≡ put key_cmp key.items spelling.items self.old) }
        ensures unchanged { OnErr result (self.new ≡ self.old) }
    {
        let old = self.inner.insert(key, spelling)?;
        Ok(old)
    }

    /// Gives a key the spelling that it had.
    fn put_back(&mut self, key: &[u8], spelling: Vec<u8>)
        requires { IsSpelling spelling.items }
        ensures { IsSome (find key_cmp key.now self.old) → self.new ≡ put key_cmp key.now spelling.items self.old }
    {
        if let Some(place) = self.inner.get_mut(key) {
            *place = spelling;
        }
    }
}

/// The value of a spelling.
fn value_of(alloc: Global, spelling: &[u8]) -> Mem<Value>
    requires { IsSpelling spelling.now }
    ensures plain { IfOk result (IsPlain 124) }
    ensures value { IfOk result (λ value. spelling.now ≡ spelled value) }
{
    match decode(alloc, spelling) {
        Ok(value) => Ok(value),
        Err(Failure::NoMemory) => Err(NoMemory),
        Err(Failure::Fault(_)) => unreachable!(),
    }
}
