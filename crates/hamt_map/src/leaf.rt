ghost use Rattle.std.specs.Prelude.{◌≡◌, ◌≤◌, ◌-◌};
ghost use Rattle.std.specs.FinMap.Entries.{is_sorted};
ghost use Rattle.std.specs.Ordering.{is_lt};
ghost use Rattle.hamt_map.specs.Canonical.{common_place as place_of_all};
ghost use Rattle.hamt_map.specs.Holds.{IsSpelling};
ghost use Rattle.hamt_map.specs.Pairs.{key_cmp, place_on};

use crate::hashed::place_in;
use sha2::{Digest, Sha256};
use std::marker::Model;

/// A key with the spelling of its value, both lent by a block, and with the key's hash.
#[derive(Drop)]
pub(crate) struct Leaf<'a> {
    key: &'a [u8],
    spelling: &'a [u8],
    hash: [u8; 32],
}

impl<'a> Model for Leaf<'a> {
    ghost use Rattle.std.specs.Prelude.{◌≡◌, List, ℕ};
    ghost use Rattle.sha2.specs.Sha256.{sha256};
    ghost use Rattle.hamt_map.specs.Holds.{IsSpelling};

    ghost Value = { List ℕ × List ℕ };

    ghost view = { λ leaf. (leaf.key.now, leaf.spelling.now) };

    ghost invariant = { λ leaf. (leaf.hash ≡ sha256 leaf.key.now) × IsSpelling leaf.spelling.now };
}

impl<'a> Leaf<'a> {
    /// A key and the spelling of its value.
    pub(crate) fn of(key: &'a [u8], spelling: &'a [u8]) -> Leaf<'a>
        requires { IsSpelling spelling.now }
        ensures { result ≡ (key.now, spelling.now) }
    {
        let hash = Sha256::digest(key);
        Leaf {
            key,
            spelling,
            hash,
        }
    }

    /// The key.
    pub(crate) fn key(&self) -> &'a [u8]
        ensures { result.now ≡ self.now.0 }
    {
        self.key
    }

    /// The spelling of the value.
    pub(crate) fn spelling(&self) -> &'a [u8]
        ensures value { result.now ≡ self.now.1 }
        ensures is { IsSpelling result.now }
    {
        self.spelling
    }

    /// Whether the key is before another's.
    pub(crate) fn is_before(&self, other: &Leaf) -> bool
        ensures { result ≡ is_lt (key_cmp self.now.0 other.now.0) }
    {
        self.key.cmp(other.key).is_lt()
    }

    /// The place of the key on a level.
    pub(crate) fn place(&self, level: u64) -> usize
        requires first { 1 ≤ level }
        requires last { level ≤ 51 }
        ensures { result ≡ place_on level self.now.0 }
    {
        place_in(&self.hash, level)
    }
}

/// The place that all keys have on a level, if there are keys and they have one.
pub(crate) fn common_place(leaves: &[Leaf], level: u64) -> Option<usize>
    requires first { 1 ≤ level }
    requires last { level ≤ 51 }
    ensures { result ≡ place_of_all level leaves.now }
{
    let place = leaves.first()?.place(level);
    for leaf in leaves {
        if leaf.place(level) != place {
            return None;
        }
    }
    Some(place)
}

/// Whether keys strictly rise.
pub(crate) fn is_rising(leaves: &[Leaf]) -> bool
    ensures { result ≡ is_sorted key_cmp leaves.now }
{
    for i in 1..leaves.len() {
        if !leaves[i - 1].is_before(&leaves[i]) {
            return false;
        }
    }
    true
}
