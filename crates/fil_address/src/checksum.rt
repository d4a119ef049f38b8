ghost use Rattle.std.specs.Prelude.{◌≡◌, ◌∷◌, ◌↔◌, IsTrue};
ghost use Rattle.fil_address.specs.AddressText.{checksum};

use blake2b_hash::Hasher;

/// The checksum of an address of this protocol and payload.
pub(crate) fn checksum_of(protocol: u8, payload: &[u8]) -> [u8; 4]
    ensures { result ≡ checksum (protocol ∷ payload.now) }
{
    let mut hasher = Hasher::new(4);
    hasher.update(&[protocol]);
    hasher.update(payload);
    let digest = hasher.finish();
    let mut front = [0; 4];
    front.copy_from_slice(&digest[..4]);
    front
}

/// Whether this is the checksum of an address of this protocol and payload.
pub(crate) fn is_checksum(sum: &[u8; 4], protocol: u8, payload: &[u8]) -> bool
    ensures { IsTrue result ↔ (sum.now ≡ checksum (protocol ∷ payload.now)) }
{
    *sum == checksum_of(protocol, payload)
}
