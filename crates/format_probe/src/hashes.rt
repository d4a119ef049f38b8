ghost use Rattle.std.specs.Prelude.{◌≤◌, IfOk};

use crate::unanswered::{Answer, Unanswered};
use crate::words::{bytes_of, hex_of, number_in};
use blake2b_hash::{Hasher, digest};
use std::alloc::Global;

const ZEROS: [u8; 65_536] = [0; 65_536];

/// `blake LEN B`: the digest of the bytes in LEN bytes.
pub fn blake(alloc: Global, len: &[u8], bytes: &[u8]) -> Answer {
    let len = digest_len(len)?;
    let bytes = bytes_of(alloc, bytes)?;
    Ok(hex_of(alloc, &digest(len, &bytes)[..len as usize])?)
}

/// `blakecut LEN PIECE B`: the same, from pieces of PIECE bytes.
pub fn blake_in_pieces(alloc: Global, len: &[u8], piece: &[u8], bytes: &[u8]) -> Answer {
    let len = digest_len(len)?;
    let piece = number_in(piece, 1, u64::MAX)? as usize;
    let bytes = bytes_of(alloc, bytes)?;
    let mut hasher = Hasher::new(len);
    for part in bytes.chunks(piece) {
        hasher.update(part);
    }
    Ok(hex_of(alloc, &hasher.finish()[..len as usize])?)
}

/// `blakezeros LEN N`: the digest of N zero bytes.
pub fn blake_of_zeros(alloc: Global, len: &[u8], count: &[u8]) -> Answer {
    let len = digest_len(len)?;
    let count = number_in(count, 0, u64::MAX)? as usize;
    let mut hasher = Hasher::new(len);
    for _ in 0..count / ZEROS.len() {
        hasher.update(&ZEROS);
    }
    hasher.update(&ZEROS[..count % ZEROS.len()]);
    Ok(hex_of(alloc, &hasher.finish()[..len as usize])?)
}

fn digest_len(word: &[u8]) -> Result<u8, Unanswered>
    ensures least { IfOk result (λ len. 1 ≤ len) }
    ensures greatest { IfOk result (λ len. len ≤ 64) }
{
    let len = number_in(word, 1, 64)?;
    Ok(len as u8)
}
