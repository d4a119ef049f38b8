//! BLAKE2b without a key (RFC 7693), the hash that names blocks and makes addresses and their checksums.
//!
//! A digest has from 1 to 64 bytes. It is given in 64, of which the ones after its length are zeros. [`digest`] takes a
//! message that lies in one piece, a [`Hasher`] one that comes in pieces; neither takes memory.
//!
//! ```text
//! let mut hasher = Hasher::new(32);
//! hasher.update(b"a");
//! hasher.update(b"bc");
//! let sum: [u8; 64] = hasher.finish();    // the same as digest(32, b"abc")
//! let sum = &sum[..32];                   // bd dd 81 3c 63 42 39 72 ..
//! ```
#![tactic(auto)]

mod chain;
mod compression;
mod digest_len;
mod hasher;
mod last_block;
mod tables;
#[cfg(test)]
mod tests;
mod whole_input;

pub use hasher::Hasher;
pub use whole_input::digest;
