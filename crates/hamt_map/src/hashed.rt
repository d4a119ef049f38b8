ghost use Rattle.std.specs.Prelude.{◌≡◌, ◌≤◌, ◌-◌, ◌*◌, ◌/◌, ◌%◌, ◌^◌, ◌++◌, drop, replicate};
ghost use Rattle.std.specs.Int.Digits.{number_from_digits};
ghost use Rattle.hamt_map.specs.HashOrder.{place_of};
ghost use Rattle.hamt_map.specs.Lent.{IsHashed};

use sha2::{Digest, Sha256};

/// A key and the spelling of its value, both lent, with the bits of the key's hash from a level on. They are compared
/// by these bits first.
#[derive(Clone, Copy, PartialEq, Eq, PartialOrd, Ord)]
pub(crate) struct Hashed<'a> {
    pub(crate) hash: [u8; 32],
    pub(crate) key: &'a [u8],
    pub(crate) spelling: &'a [u8],
}

impl<'a> Hashed<'a> {
    /// A pair with the bits of its hash that count where so many levels are below.
    pub(crate) fn of(below: u64, key: &'a [u8], spelling: &'a [u8]) -> Hashed<'a>
        requires { below ≤ 50 }
        ensures key { result.key.now ≡ key.now }
        ensures spelling { result.spelling.now ≡ spelling.now }
        ensures hash { IsHashed below result }
    {
        let hash = low_bits(Sha256::digest(key), 250 - 5 * below as usize);
        Hashed {
            hash,
            key,
            spelling,
        }
    }

    /// The place on a level.
    pub(crate) fn place(&self, level: u64) -> usize
        requires first { 1 ≤ level }
        requires last { level ≤ 51 }
        ensures { result ≡ place_of level (number_from_digits 256 self.now.hash) }
    {
        place_in(&self.hash, level)
    }
}

/// A hash without so many of its first bits.
fn low_bits(hash: [u8; 32], gone: usize) -> [u8; 32]
    requires { gone ≤ 250 }
    ensures { number_from_digits 256 result ≡ number_from_digits 256 hash % 2 ^ (256 - gone) }
{
    let at = gone / 8;
    let kept = u16::from(hash[at]) % (1 << (8 - gone % 8));
    let mut low = without_first(hash, at);
    low[at] = kept as u8;
    low
}

/// A hash without so many of its first bytes.
fn without_first(hash: [u8; 32], count: usize) -> [u8; 32]
    requires { count ≤ 32 }
    ensures { result ≡ replicate count 0 ++ drop count hash }
{
    let mut low = hash;
    for i in 0..count {
        low[i] = 0;
    }
    low
}

/// Five bits of a hash, from the most significant on. They stand in two bytes next to each other.
pub(crate) fn place_in(hash: &[u8; 32], level: u64) -> usize
    requires first { 1 ≤ level }
    requires last { level ≤ 51 }
    ensures { result ≡ number_from_digits 256 hash.now / 2 ^ (256 - 5 * level) % 32 }
{
    let start = 5 * (level as usize - 1);
    let at = (start / 8).min(30);
    let window = usize::from(hash[at]) * 256 + usize::from(hash[at + 1]);
    (window >> (11 + 8 * at - start)) % 32
}
