ghost use Rattle.std.specs.Prelude.{◌≡◌, ◌+◌, ◌<◌, ◌≤◌, ◌^◌, ℕ, List, length};
ghost use Rattle.fil_address.specs.AddressBytes.{IsAddress, address as address_bytes};
ghost use Rattle.fil_base.specs.Amount.{amount as amount_bytes};
ghost use Rattle.fil_base.specs.Varint.{varint};
ghost use Rattle.dag_cbor.specs.Spelling.{head};
ghost use Rattle.fil_message.specs.Layout.{message_spelling};
ghost use Rattle.fil_message.specs.Sound.{IsMessage};

use crate::message::Message;
use fil_address::Address;
use fil_base::Token;

/// How many bytes the encoding of a message has. It takes no memory.
pub fn message_len(message: &Message) -> u64
    requires { IsMessage message.now }
    ensures { result ≡ length (message_spelling message.now) }
{
    let to = string_len(address_len(&message.to));
    let from = string_len(address_len(&message.from));
    let value = string_len(amount_len(message.value));
    let cap = string_len(amount_len(message.cap));
    let premium = string_len(amount_len(message.premium));
    let nonce = head_len(message.nonce);
    let limit = head_len(message.limit.number());
    let method = head_len(message.method);
    let params = string_len(message.params.as_slice().len() as u64);
    // The heads of the list and of the version are a byte each.
    2 + to + from + nonce + value + limit + cap + premium + method + params
}

/// How many bytes a byte string of this length has with its head.
fn string_len(len: u64) -> u64
    requires { len < 2 ^ 63 }
    ensures value { result ≡ length (head 2 len) + len }
    ensures small { result ≤ len + 9 }
{
    head_len(len) + len
}

/// How many bytes a head with this number has.
#[tactic(auto, unfolding(dag_cbor::specs::Spelling::head))]
fn head_len(number: u64) -> u64
    ensures value { (major : ℕ) → result ≡ length (head major number) }
    ensures small { result ≤ 9 }
{
    if number < 24 {
        1
    } else if number < 1 << 8 {
        2
    } else if number < 1 << 16 {
        3
    } else if number < 1 << 32 {
        5
    } else {
        9
    }
}

/// How many bytes an address has.
fn address_len(address: &Address) -> u64
    requires { IsAddress address.now }
    ensures value { result ≡ length (address_bytes address.now) }
    ensures small { result ≤ 49 }
{
    match address {
        Address::Id(id) => 1 + varint_len(id.number()),
        Address::Secp(_) => 21,
        Address::Made(_) => 21,
        Address::Bls(_) => 49,
    }
}

/// How many bytes a number of varying length has.
fn varint_len(number: u64) -> u64
    requires { number < 2 ^ 63 }
    ensures { result ≡ length (varint number) }
{
    let mut left = number;
    let mut len = 1;
    while left >= 128 {
        left /= 128;
        len += 1;
    }
    len
}

/// How many bytes an amount has: none for 0, else the sign and the magnitude.
fn amount_len(amount: Token) -> u64
    ensures value { result ≡ length (amount_bytes amount) }
    ensures small { result ≤ 13 }
{
    let mut left = amount.number();
    if left == 0 {
        return 0;
    }
    let mut len = 1;
    while left > 0 {
        left /= 256;
        len += 1;
    }
    len
}
