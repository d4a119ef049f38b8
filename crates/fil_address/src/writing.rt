ghost use Rattle.std.specs.Prelude.{◌≡◌, ◌∷◌, ◌++◌, IfOk, OnOk};
ghost use Rattle.fil_base.specs.Base32.{base32};
ghost use Rattle.fil_address.specs.AddressBytes.{address, payload as payload_of, protocol as protocol_of};
ghost use Rattle.fil_address.specs.AddressText.{body, checksum, main_network, text_under};

use crate::address::Address;
use crate::checksum::checksum_of;
use fil_base::{Bytes, Mem, base32_text, write_varint};
use itoa::Buffer;
use std::alloc::Global;

impl Address {
    /// The bytes that spell the address: its protocol, and its payload.
    #[tactic(auto, unfolding(crate::specs::AddressBytes::address))]
    pub fn to_bytes(&self, alloc: Global) -> Mem<Bytes>
        ensures { IfOk result (λ bytes. bytes ≡ address self.now) }
    {
        let mut bytes = Vec::new(alloc);
        bytes.push(self.protocol())?;
        self.put_payload(&mut bytes)?;
        Ok(Bytes::of(bytes))
    }

    /// The text of the address under `f`: the protocol's digit, and the decimal ID, or else the payload and four bytes
    /// of BLAKE2b of the address in base 32.
    #[tactic(auto, unfolding(crate::specs::AddressText::text_under))]
    pub fn text(&self, alloc: Global) -> Mem<Bytes>
        ensures { IfOk result (λ text. text ≡ text_under main_network self.now) }
    {
        let mut text = Vec::new(alloc);
        text.push(b'f')?;
        text.push(b'0' + self.protocol())?;
        self.put_body(alloc, &mut text)?;
        Ok(Bytes::of(text))
    }

    fn protocol(&self) -> u8
        ensures { result ≡ protocol_of self.now }
    {
        match self {
            Address::Id(_) => 0,
            Address::Secp(_) => 1,
            Address::Made(_) => 2,
            Address::Bls(_) => 3,
        }
    }

    fn put_payload(&self, bytes: &mut Vec<u8>) -> Mem<()>
        ensures { OnOk result (bytes.new.items ≡ bytes.old.items ++ payload_of self.now) }
    {
        match self {
            Address::Id(id) => write_varint(bytes, id.number()),
            Address::Secp(hash) => put_bytes(bytes, hash),
            Address::Made(hash) => put_bytes(bytes, hash),
            Address::Bls(key) => put_bytes(bytes, key),
        }
    }

    // Appends what stands behind the protocol's digit.
    #[tactic(auto, unfolding(crate::specs::AddressBytes::address))]
    fn put_body(&self, alloc: Global, text: &mut Vec<u8>) -> Mem<()>
        ensures { OnOk result (text.new.items ≡ text.old.items ++ body self.now) }
    {
        match self {
            Address::Id(id) => put_bytes(text, Buffer::new().format(id.number()).as_bytes()),
            Address::Secp(hash) => put_checked(alloc, text, 1, hash),
            Address::Made(hash) => put_checked(alloc, text, 2, hash),
            Address::Bls(key) => put_checked(alloc, text, 3, key),
        }
    }
}

// Appends the payload and the checksum of the address in base 32.
fn put_checked(alloc: Global, text: &mut Vec<u8>, protocol: u8, payload: &[u8]) -> Mem<()>
    ensures { OnOk result
        (text.new.items ≡ text.old.items ++ base32 (payload.now ++ checksum (protocol ∷ payload.now))) }
{
    let mut bytes = Vec::from_slice(alloc, payload)?;
    bytes.extend_from_slice(&checksum_of(protocol, payload))?;
    let letters = base32_text(alloc, &bytes)?;
    put_bytes(text, letters.as_slice())
}

fn put_bytes(out: &mut Vec<u8>, bytes: &[u8]) -> Mem<()>
    ensures { OnOk result (out.new.items ≡ out.old.items ++ bytes.now) }
{
    out.extend_from_slice(bytes)?;
    Ok(())
}
