ghost use Rattle.std.specs.Prelude.{◌≡◌, IfOk, length, true};
ghost use Rattle.fil_address.specs.AddressBytes.{address as spelled_address};
ghost use Rattle.init_names.specs.Names.{is_name as has_form, no_id};

use fil_address::Address;
use fil_base::{Bytes, Mem};
use std::alloc::Global;

/// The bytes of an address that is no ID.
pub(crate) fn name_of(alloc: Global, address: &Address) -> Mem<Bytes>
    requires { no_id address.now ≡ true }
    ensures bytes { IfOk result (λ name. name ≡ spelled_address address.now) }
    ensures name { has_form (spelled_address address.now) ≡ true }
{
    is_named(address);
    address.to_bytes(alloc)
}

/// A law, with no code: the bytes of an address that is no ID are a name.
fn is_named(address: &Address)
    requires { no_id address.now ≡ true }
    ensures { has_form (spelled_address address.now) ≡ true }
{
    match address {
        Address::Id(_) => {}
        Address::Secp(hash) => has_length(hash),
        Address::Made(hash) => has_length(hash),
        Address::Bls(key) => has_length(key),
    }
}

/// A law, with no code: an array has its length.
fn has_length<const N: usize>(array: &[u8; N])
    ensures { length array.now ≡ N }
{}

/// Whether the bytes are an address of protocol 1, 2 or 3.
pub(crate) fn is_name(bytes: &[u8]) -> bool
    ensures { result ≡ has_form bytes.now }
{
    let [protocol, payload @ ..] = bytes else {
        return false;
    };
    match *protocol {
        1 | 2 => payload.len() == 20,
        3 => payload.len() == 48,
        _ => false,
    }
}
