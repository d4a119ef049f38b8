// The digest of bytes that lie in one piece.

ghost use Rattle.std.specs.Prelude.{◌≡◌, ◌-◌, ◌≤◌, ◌++◌, replicate};
ghost use Rattle.blake2b_hash.specs.Blake.{blake};

use crate::hasher::Hasher;

/// The digest of `bytes` in `len` bytes, from 1 to 64, then zeros (RFC 7693, section 3.3, without a key).
pub fn digest(len: u8, bytes: &[u8]) -> [u8; 64]
    requires at_least_one { 1 ≤ len }
    requires at_most_64 { len ≤ 64 }
    ensures { result ≡ blake len bytes.now ++ replicate (64 - len) 0 }
{
    let mut hasher = Hasher::new(len);
    hasher.update(bytes);
    hasher.finish()
}
