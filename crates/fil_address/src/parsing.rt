ghost use Rattle.std.specs.Prelude.{◌≡◌, ◌≢◌, ◌∷◌, ◌<◌, ◌≤◌, ◌^◌, ◌↔◌, ℕ, List, IfErr, IfOk, IsTrue, Some, length};
ghost use Rattle.std.specs.Fmt.{decimal};
ghost use Rattle.fil_base.specs.Base32.{IsBase32Fault, base32};
ghost use Rattle.fil_base.specs.Failure.{IfFault};
ghost use Rattle.fil_address.specs.AddressBytes.{IsAddress, protocol as protocol_of};
ghost use Rattle.fil_address.specs.AddressText.{IsNetwork, body, text_under};
ghost use Rattle.fil_address.specs.AddressFault.{IsFaultBehind, IsLettersFault, IsTextFault};
ghost use Rattle.fil_address.specs.declared.fault.AddressFault.TheVariants.{Number};

use crate::address::Address;
use crate::checksum::is_checksum;
use crate::fault::AddressFault;
use crate::reading::address_of;
use fil_base::{ActorId, Base32Fault, Bytes, Failure, base32_read};
use itoa::Buffer;
use std::alloc::Global;
use std::str::from_utf8;

/// The address whose text this is, under `f` or `t`. Faults in order: `Empty`, `Letter` for the first character,
/// `Protocol`, then `Number` for an ID, and for the others `Length` where no bytes have so many letters, `Letter` where
/// they are not in base 32, `Length` of the payload, and `Checksum`.
#[tactic(auto, unfolding(crate::specs::AddressText::text_under))]
pub fn parse(alloc: Global, text: &[u8]) -> Result<Address, Failure<AddressFault>>
    ensures found { IfOk result (λ a. IsAddress a
        × ((network : ℕ) × IsNetwork network × (text.now ≡ text_under network a))) }
    ensures fault { IfErr result (λ failure. IfFault failure (IsTextFault text.now)) }
{
    let (digit, rest) = split_front(text)?;
    match digit {
        b'0' => Ok(Address::Id(id_in(rest)?)),
        b'1'..=b'3' => address_in(alloc, digit - b'0', rest),
        _ => Err(Failure::Fault(AddressFault::Protocol)),
    }
}

// The protocol's digit behind the network's letter, and what stands behind it.
fn split_front(text: &[u8]) -> Result<(u8, &[u8]), AddressFault>
    ensures found { IfOk result (λ parts. (network : ℕ) × IsNetwork network
        × (text.now ≡ network ∷ (parts.0 ∷ parts.1.now)) × (3 ≤ length text.now)) }
    ensures fault { IfErr result (IsTextFault text.now) }
{
    let [network, digit, rest @ ..] = text else {
        return Err(AddressFault::Empty);
    };
    if rest.is_empty() {
        return Err(AddressFault::Empty);
    }
    if !matches!(network, b'f' | b't') {
        return Err(AddressFault::Letter);
    }
    Ok((*digit, rest))
}

// The ID whose decimal number this is.
fn id_in(text: &[u8]) -> Result<ActorId, AddressFault>
    ensures found { IfOk result (λ id. (id < 2 ^ 63) × (text.now ≡ decimal id)) }
    ensures fault { IfErr result (λ fault. (fault ≡ Number) × ((id : ℕ) → id < 2 ^ 63 → text.now ≢ decimal id)) }
{
    let Some(number) = number_in(text) else {
        return Err(AddressFault::Number);
    };
    // A number with a sign or zeros in front is written in another way.
    if !is_decimal(number, text) {
        return Err(AddressFault::Number);
    }
    ActorId::new(number).ok_or(AddressFault::Number)
}

// The number that is written here, with a sign and zeros in front or without.
fn number_in(text: &[u8]) -> Option<u64>
    ensures { (n : ℕ) → n < 2 ^ 64 → text.now ≡ decimal n → result ≡ Some n }
{
    let Ok(written) = from_utf8(text) else {
        return None;
    };
    written.parse().ok()
}

fn is_decimal(number: u64, text: &[u8]) -> bool
    ensures { IsTrue result ↔ (text.now ≡ decimal number) }
{
    Buffer::new().format(number).as_bytes() == text
}

// The address of this protocol whose payload and checksum are written here.
fn address_in(alloc: Global, protocol: u8, text: &[u8]) -> Result<Address, Failure<AddressFault>>
    requires low { 1 ≤ protocol }
    requires high { protocol ≤ 3 }
    ensures found { IfOk result (λ a. IsAddress a × (protocol_of a ≡ protocol) × (text.now ≡ body a)) }
    ensures fault { IfErr result (λ failure. IfFault failure (IsFaultBehind protocol text.now)) }
{
    let bytes = bytes_in(alloc, text)?;
    Ok(checked_address(protocol, bytes.as_slice())?)
}

// The bytes in base 32.
fn bytes_in(alloc: Global, text: &[u8]) -> Result<Bytes, Failure<AddressFault>>
    ensures found { IfOk result (λ bytes. base32 bytes ≡ text.now) }
    ensures fault { IfErr result (λ failure. IfFault failure (IsLettersFault text.now)) }
{
    match base32_read(alloc, text) {
        Ok(bytes) => Ok(bytes),
        Err(Failure::NoMemory) => Err(Failure::NoMemory),
        Err(Failure::Fault(fault)) => Err(Failure::Fault(fault_of(fault))),
    }
}

fn fault_of(fault: Base32Fault) -> AddressFault
    ensures { (text : List ℕ) → IsBase32Fault text fault → IsLettersFault text result }
{
    match fault {
        Base32Fault::Length => AddressFault::Length,
        Base32Fault::Letter(_) => AddressFault::Letter,
        Base32Fault::Spare => AddressFault::Letter,
    }
}

// The address of this protocol whose payload and checksum these are.
fn checked_address(protocol: u8, bytes: &[u8]) -> Result<Address, AddressFault>
    requires low { 1 ≤ protocol }
    requires high { protocol ≤ 3 }
    ensures found { IfOk result (λ a. IsAddress a × (protocol_of a ≡ protocol) × (base32 bytes.now ≡ body a)) }
    ensures fault { IfErr result (IsFaultBehind protocol (base32 bytes.now)) }
{
    let Some((payload, sum)) = bytes.split_last_chunk() else {
        return Err(AddressFault::Length);
    };
    let address = address_of(protocol, payload)?;
    if !is_checksum(sum, protocol, payload) {
        return Err(AddressFault::Checksum);
    }
    Ok(address)
}
