ghost use Rattle.std.specs.Prelude.{◌≡◌, ◌<◌, ◌^◌, IfOk, IfSome, IsSome, OnErr, OnOk, length, map};
ghost use Rattle.std.specs.FinMap.{empty, entries, get, insert, remove};
ghost use Rattle.std.specs.FinMap.Entries.{find, put};
ghost use Rattle.std.specs.Option.{option_map};
ghost use Rattle.std.specs.Ordering.{nat_cmp};
ghost use Rattle.dag_cbor.specs.Plain.{IsPlain};
ghost use Rattle.dag_cbor.specs.Spelling.{spelled};
ghost use Rattle.amt_map.specs.Holds.{FitRoot, Holds, IsSpelling};
ghost use Rattle.amt_map.specs.OneNode.{IsOneNode};
ghost use Rattle.amt_map.specs.Pairs.{Map};

use dag_cbor::{Value, decode, encode};
use fil_base::{Failure, Mem, NoMemory};
use std::alloc::Global;
use std::collections::BTreeMap;
use std::marker::Model;

/// The pairs of a map: indexes with the spellings of their values, by rising index. In clauses, `Holds pairs m` says
/// that the map is `m`.
#[derive(Drop)]
pub(crate) struct Spelled {
    inner: BTreeMap<u64, Vec<u8>>,
}

impl Model for Spelled {
    ghost use Rattle.std.specs.Prelude.{List, ℕ, map};
    ghost use Rattle.amt_map.specs.Holds.{Holds};
    ghost use Rattle.amt_map.specs.Pairs.{Map};

    ghost Value = { List (ℕ × List ℕ) };

    ghost view = { λ pairs. map (λ e. (e.0, e.1.items)) pairs.inner.entries };

    ghost invariant = { λ pairs. (m : Map) × Holds (map (λ e. (e.0, e.1.items)) pairs.inner.entries) m };
}

impl Spelled {
    pub(crate) fn empty(alloc: Global) -> Spelled
        ensures { Holds result empty }
    {
        Spelled {
            inner: BTreeMap::new(alloc),
        }
    }

    /// The same pairs.
    pub(crate) fn copy(&self) -> Mem<Spelled>
        ensures { IfOk result (λ copy. copy ≡ self.now) }
    {
        let inner = self.inner.clone()?;
        Ok(Spelled { inner })
    }

    /// How many pairs there are.
    pub(crate) fn count(&self) -> u64
        ensures value { (m : Map) → Holds self.now m → result ≡ length (entries m) }
        ensures map { (m : Map) × Holds self.now m × (result ≡ length (entries m)) }
    {
        self.inner.len() as u64
    }

    /// The value at an index.
    pub(crate) fn get(&self, alloc: Global, index: u64) -> Mem<Option<Value>>
        ensures { (m : Map) → Holds self.now m → IfOk result (λ value. value ≡ get m index) }
    {
        match self.inner.get(&index) {
            None => Ok(None),
            Some(spelling) => {
                let value = value_of(alloc, spelling.as_slice())?;
                Ok(Some(value))
            }
        }
    }

    /// Puts a value at an index, and answers the old one.
    pub(crate) fn insert(&mut self, alloc: Global, index: u64, value: &Value) -> Mem<Option<Value>>
        requires index { index < 2 ^ 60 }
        requires plain { IsPlain 125 value.now }
        ensures old { (m : Map) → Holds self.old m → IfOk result (λ old. old ≡ get m index) }
        ensures after { (m : Map) → Holds self.old m → OnOk result (Holds self.new (insert m index value.now)) }
        ensures unchanged { OnErr result (self.new ≡ self.old) }
    {
        let spelling = encode(alloc, value)?;
        let Some(old) = self.put(index, spelling.into_vec())? else {
            return Ok(None);
        };
        match value_of(alloc, old.as_slice()) {
            Ok(value) => Ok(Some(value)),
            Err(_) => {
                self.put_back(index, old);
                Err(NoMemory)
            }
        }
    }

    /// Puts a spelling at an index.
    pub(crate) fn insert_spelling(&mut self, index: u64, spelling: Vec<u8>) -> Mem<()>
        requires index { index < 2 ^ 60 }
        requires spelling { IsSpelling spelling.items }
        ensures after { (m : Map) (value : Value) → Holds self.old m → IsPlain 125 value → spelling.items ≡ spelled value
            → OnOk result (Holds self.new (insert m index value)) }
        ensures unchanged { OnErr result (self.new ≡ self.old) }
    {
        self.put(index, spelling)?;
        Ok(())
    }

    /// Puts a spelling at an index, and answers the old one.
    fn put(&mut self, index: u64, spelling: Vec<u8>) -> Mem<Option<Vec<u8>>>
        requires index { index < 2 ^ 60 }
        requires spelling { IsSpelling spelling.items }
        ensures held { IfOk result (λ old. (m : Map) × Holds self.old m) }
        ensures old { IfOk result (λ old. option_map (λ s. s.items) old ≡ find nat_cmp index self.old) }
        ensures spelling { IfOk result (λ old. IfSome old (λ s. IsSpelling s.items)) }
        ensures after { OnOk result (self.new ≡ put nat_cmp index spelling.items self.old) }
        ensures unchanged { OnErr result (self.new ≡ self.old) }
    {
        let old = self.inner.insert(index, spelling)?;
        Ok(old)
    }

    /// Puts the spelling that it had at an index.
    fn put_back(&mut self, index: u64, spelling: Vec<u8>)
        requires index { index < 2 ^ 60 }
        requires spelling { IsSpelling spelling.items }
        ensures { IsSome (find nat_cmp index self.old) → self.new ≡ put nat_cmp index spelling.items self.old }
    {
        if let Some(place) = self.inner.get_mut(&index) {
            *place = spelling;
        }
    }

    /// Takes the value at an index away.
    pub(crate) fn remove(&mut self, index: u64)
        ensures { (m : Map) → Holds self.old m → Holds self.new (remove m index) }
    {
        self.inner.remove(&index);
    }

    /// The indexes with the spellings of their values, by rising index.
    pub(crate) fn spellings(&self, alloc: Global) -> Mem<Vec<(u64, &[u8])>>
        ensures same { IfOk result (λ pairs. map (λ p. (p.0, p.1.now)) pairs.items ≡ self.now) }
        ensures node { IfOk result (λ _. IsOneNode 19 0 self.now) }
    {
        let mut pairs = Vec::with_capacity(alloc, self.inner.len())?;
        for (index, spelling) in &self.inner {
            pairs.push((*index, spelling.as_slice()))?;
        }
        Ok(pairs)
    }

    /// All pairs, by rising index.
    pub(crate) fn decoded(&self, alloc: Global) -> Mem<Vec<(u64, Value)>>
        ensures map { (m : Map) → Holds self.now m → IfOk result (λ pairs. pairs.items ≡ entries m) }
        ensures fit { IfOk result (λ pairs. FitRoot pairs.items) }
    {
        let mut pairs = Vec::with_capacity(alloc, self.inner.len())?;
        for (index, spelling) in &self.inner {
            let value = value_of(alloc, spelling.as_slice())?;
            pairs.push((*index, value))?;
        }
        Ok(pairs)
    }
}

/// The value of a spelling.
pub(crate) fn value_of(alloc: Global, spelling: &[u8]) -> Mem<Value>
    requires { IsSpelling spelling.now }
    ensures plain { IfOk result (IsPlain 125) }
    ensures value { IfOk result (λ value. spelling.now ≡ spelled value) }
{
    match decode(alloc, spelling) {
        Ok(value) => Ok(value),
        Err(Failure::NoMemory) => Err(NoMemory),
        Err(Failure::Fault(_)) => unreachable!(),
    }
}
