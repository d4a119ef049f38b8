ghost use Rattle.std.specs.Prelude.{◌≡◌, ◌↔◌, ◌<◌, ◌^◌, IfOk, IsTrue};
ghost use Rattle.sha2.specs.Sha256.{sha256};
ghost use Rattle.blake2b_hash.specs.Blake.{blake};
ghost use Rattle.cid_core.specs.CidOf.{HasSupportedHash, cid_of as named, digest_under as digest_of};

use blake2b_hash::digest;
use fil_base::{Bytes, Cid, Mem};
use sha2::{Digest, Sha256};
use std::alloc::Global;

// Codes of hash functions (the multicodec table).
const BLAKE2B_256: u64 = 0xb220;

const SHA2_256: u64 = 0x12;

/// The CID of the bytes in a codec (multicodec), below 2^63: version 1, under BLAKE2b-256.
pub fn cid_of(alloc: Global, codec: u64, bytes: &[u8]) -> Mem<Cid>
    requires { codec < 2 ^ 63 }
    ensures { IfOk result (λ cid. cid ≡ named codec bytes.now) }
{
    let hash = Bytes::copy_of(alloc, &blake2b_256(bytes))?;
    Ok(Cid::new(1, codec, BLAKE2B_256, hash).unwrap())
}

/// Whether the hash of the CID can be checked.
pub(crate) fn has_supported_hash(cid: &Cid) -> bool
    ensures { IsTrue result ↔ HasSupportedHash cid.now }
{
    cid.version() == 1 && matches!(cid.hash(), BLAKE2B_256 | SHA2_256) && cid.digest().len() == 32
}

/// The digest of the bytes under a supported hash.
pub(crate) fn digest_under(hash: u64, bytes: &[u8]) -> [u8; 32]
    ensures { result ≡ digest_of hash bytes.now }
{
    if hash == BLAKE2B_256 {
        blake2b_256(bytes)
    } else {
        Sha256::digest(bytes)
    }
}

fn blake2b_256(bytes: &[u8]) -> [u8; 32]
    ensures { result ≡ blake 32 bytes.now }
{
    let mut front = [0; 32];
    front.copy_from_slice(&digest(32, bytes)[..32]);
    front
}
