// How many bytes a digest has.

ghost use Rattle.std.specs.Prelude.{◌≡◌, ℕ, ◌-◌, ◌≤◌, ◌++◌, replicate, take};
ghost use Rattle.blake2b_hash.specs.Blake.{bytes_of};

use std::marker::Model;

// From 1 to 64 bytes.
#[derive(Drop)]
pub(crate) struct DigestLen {
    bytes: u8,
}

impl Model for DigestLen {
    ghost Value = { ℕ };

    ghost view = { λ len. len.bytes };

    ghost invariant = { λ len. (1 ≤ len.bytes) × (len.bytes ≤ 64) };
}

impl DigestLen {
    pub(crate) fn new(bytes: u8) -> DigestLen
        requires at_least_one { 1 ≤ bytes }
        requires at_most_64 { bytes ≤ 64 }
        ensures { result ≡ bytes }
    {
        DigestLen { bytes }
    }

    // The first bytes of a state, then zeros.
    pub(crate) fn digest_of(&self, state: &[u64; 8]) -> [u8; 64]
        ensures { result ≡ take self.now (bytes_of state.now) ++ replicate (64 - self.now) 0 }
    {
        let mut digest = [0u8; 64];
        'words: for i in 0..8 {
            digest[i * 8..i * 8 + 8].copy_from_slice(&state[i].to_le_bytes());
        }
        digest[self.bytes as usize..].fill(0);
        digest
    }
}
