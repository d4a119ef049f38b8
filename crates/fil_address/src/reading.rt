ghost use Rattle.std.specs.Prelude.{◌≡◌, ◌≢◌, ◌∷◌, ◌<◌, ◌^◌, ℕ, IfErr, IfOk, None, OnErr, Some, length};
ghost use Rattle.fil_base.specs.Varint.{varint};
ghost use Rattle.fil_address.specs.AddressBytes.{AreBytes, IsAddress, address};
ghost use Rattle.fil_address.specs.AddressReading.{address_in};
ghost use Rattle.fil_address.specs.AddressFault.{IsBytesFault};
ghost use Rattle.fil_address.specs.declared.fault.AddressFault.TheVariants.{Length, Number};

use crate::address::Address;
use crate::fault::AddressFault;
use fil_base::{ActorId, read_varint};

/// The address that the bytes spell, all of them: a byte for the protocol, and the payload. Faults in order: `Empty`,
/// `Protocol`, then `Number` for an ID and `Length` for the others.
pub fn from_bytes(bytes: &[u8]) -> Result<Address, AddressFault>
    ensures found { IfOk result (λ a. IsAddress a × (bytes.now ≡ address a)) }
    ensures fault { IfErr result (IsBytesFault bytes.now) }
    ensures read { IfOk result (λ a. address_in bytes.now ≡ Some a) }
    ensures none { OnErr result (address_in bytes.now ≡ None) }
{
    let [protocol, payload @ ..] = bytes else {
        return Err(AddressFault::Empty);
    };
    address_of(*protocol, payload)
}

/// The address of this protocol and payload.
#[tactic(auto, unfolding(crate::specs::AddressBytes::address))]
pub(crate) fn address_of(protocol: u8, payload: &[u8]) -> Result<Address, AddressFault>
    ensures found { IfOk result (λ a. IsAddress a × (protocol ∷ payload.now ≡ address a)) }
    ensures fault { IfErr result (IsBytesFault (protocol ∷ payload.now)) }
{
    match protocol {
        0 => Ok(Address::Id(id_of(payload)?)),
        1 => Ok(Address::Secp(array_of(payload)?)),
        2 => Ok(Address::Made(array_of(payload)?)),
        3 => Ok(Address::Bls(array_of(payload)?)),
        _ => Err(AddressFault::Protocol),
    }
}

// The ID whose varint this is.
fn id_of(bytes: &[u8]) -> Result<ActorId, AddressFault>
    ensures found { IfOk result (λ id. (id < 2 ^ 63) × (bytes.now ≡ varint id)) }
    ensures fault { IfErr result (λ fault. (fault ≡ Number) × ((id : ℕ) → id < 2 ^ 63 → bytes.now ≢ varint id)) }
{
    let Ok((number, length)) = read_varint(bytes) else {
        return Err(AddressFault::Number);
    };
    if length != bytes.len() {
        return Err(AddressFault::Number);
    }
    ActorId::new(number).ok_or(AddressFault::Number)
}

// The bytes, of which there are just so many.
fn array_of<const N: usize>(bytes: &[u8]) -> Result<[u8; N], AddressFault>
    ensures found { IfOk result (λ array. AreBytes array N × (array ≡ bytes.now)) }
    ensures fault { IfErr result (λ fault. (fault ≡ Length) × (length bytes.now ≢ N)) }
{
    bytes.try_into().map_err(|_| AddressFault::Length)
}
