ghost use Rattle.std.specs.Prelude.{◌≡◌, ◌≤◌, ◌<◌, ◌+◌, ◌^◌, ◌++◌, [], IfOk, List, OnOk, length, map};
ghost use Rattle.std.specs.Int.Digits.{digits_of};
ghost use Rattle.dag_cbor.specs.Spelling.{joined, spelled};
ghost use Rattle.dag_cbor.specs.declared.value.Value.{Value};
ghost use Rattle.hamt_map.specs.Canonical.{node_of};

use crate::bit_field::{digit_count, put_number};
use dag_cbor::put_head;
use fil_base::Mem;
use std::alloc::Global;

/// The major type of byte strings (RFC 8949, section 3.1).
pub(crate) const BYTES: u8 = 2;

/// The major type of lists.
pub(crate) const LIST: u8 = 4;

/// The room that is made at first for the spellings of a node's pointers, in bytes. Eight buckets of one actor's record
/// need no more.
const USUAL_LEN: usize = 1024;

/// The pointers of a node: links and buckets.
#[derive(Drop)]
pub(crate) struct Pointers {
    /// The bit of each place that has one.
    pub(crate) bits: u64,

    /// How many there are.
    pub(crate) count: u64,

    /// Their spellings, one after another.
    pub(crate) spellings: Vec<u8>,
}

impl Pointers {
    /// No pointers.
    pub(crate) fn none(alloc: Global) -> Mem<Pointers>
        ensures bits { IfOk result (λ pointers. pointers.bits ≡ 0) }
        ensures count { IfOk result (λ pointers. pointers.count ≡ 0) }
        ensures spellings { IfOk result (λ pointers. pointers.spellings.items ≡ []) }
    {
        let spellings = Vec::with_capacity(alloc, USUAL_LEN)?;
        Ok(Pointers {
            bits: 0,
            count: 0,
            spellings,
        })
    }

    /// Counts a pointer at a place that is behind those of the others.
    pub(crate) fn add(&mut self, place: usize)
        requires place { place < 32 }
        requires bits { self.old.bits < 2 ^ place }
        requires count { self.old.count ≤ place }
        ensures bits { self.new.bits ≡ self.old.bits + 2 ^ place }
        ensures count { self.new.count ≡ self.old.count + 1 }
        ensures spellings { self.new.spellings ≡ self.old.spellings }
    {
        self.bits += 1 << place;
        self.count += 1;
    }

    /// The bytes of the node that has them.
    pub(crate) fn node(&self, alloc: Global) -> Mem<Vec<u8>>
        ensures { (pointers : List Value) → self.now.count ≡ length pointers
            → self.now.spellings.items ≡ joined (map spelled pointers)
            → IfOk result (λ bytes. bytes.items ≡ spelled (node_of (digits_of 256 self.now.bits) pointers)) }
    {
        let mut bytes = Vec::with_capacity(alloc, 8 + self.spellings.len())?;
        put_head(&mut bytes, LIST, 2)?;
        put_head(&mut bytes, BYTES, digit_count(self.bits))?;
        put_number(&mut bytes, self.bits)?;
        put_head(&mut bytes, LIST, self.count)?;
        bytes.extend_from_slice(self.spellings.as_slice())?;
        Ok(bytes)
    }
}
