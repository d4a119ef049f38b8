ghost use Rattle.std.specs.Prelude.{◌≡◌, ◌<◌, ◌^◌, Ok, Err, IfOk, IfErr};
ghost use Rattle.cbor_fields.specs.Fields.{field, placed};
ghost use Rattle.cbor_fields.specs.Readers.{number_of, amount_of, u64_of, token_of, cid_of, bytes_of};

use crate::field_fault::{FieldFault, FieldKind};
use crate::items::{fault_at, item_at};
use dag_cbor::Value;
use fil_base::{Cid, Token};

/// The number from 0 to 2^64 - 1 at this place of a list.
pub fn u64_at(list: &[Value], at: usize) -> Result<u64, FieldFault>
    requires { at < 2 ^ 32 }
    ensures { result ≡ field u64_of list.now at }
{
    u64_of(item_at(list, at)?, at)
}

/// The amount at this place of a list, which stands there as its bytes.
pub fn token_at(list: &[Value], at: usize) -> Result<Token, FieldFault>
    requires { at < 2 ^ 32 }
    ensures { result ≡ field token_of list.now at }
{
    token_of(item_at(list, at)?, at)
}

/// The CID of the link at this place of a list.
pub fn cid_at(list: &[Value], at: usize) -> Result<&Cid, FieldFault>
    requires { at < 2 ^ 32 }
    ensures found { IfOk result (λ cid. field cid_of list.now at ≡ Ok cid.now) }
    ensures fault { IfErr result (λ fault. field cid_of list.now at ≡ Err fault) }
{
    cid_of(item_at(list, at)?, at)
}

/// The byte string at this place of a list.
pub fn bytes_at(list: &[Value], at: usize) -> Result<&[u8], FieldFault>
    requires { at < 2 ^ 32 }
    ensures found { IfOk result (λ bytes. field bytes_of list.now at ≡ Ok bytes.now) }
    ensures fault { IfErr result (λ fault. field bytes_of list.now at ≡ Err fault) }
{
    bytes_of(item_at(list, at)?, at)
}

fn u64_of(value: &Value, at: usize) -> Result<u64, FieldFault>
    requires { at < 2 ^ 32 }
    ensures { result ≡ placed at (u64_of value.now) }
{
    match value {
        Value::Int(number) => number_of(*number, at),
        _ => Err(fault_at(at, FieldKind::WrongKind)),
    }
}

fn number_of(number: i128, at: usize) -> Result<u64, FieldFault>
    requires { at < 2 ^ 32 }
    ensures { result ≡ placed at (number_of number) }
{
    u64::try_from(number).map_err(|_| fault_at(at, FieldKind::OutOfRange))
}

fn token_of(value: &Value, at: usize) -> Result<Token, FieldFault>
    requires { at < 2 ^ 32 }
    ensures { result ≡ placed at (token_of value.now) }
{
    match value {
        Value::Blob(bytes) => amount_of(bytes.as_slice(), at),
        _ => Err(fault_at(at, FieldKind::WrongKind)),
    }
}

fn amount_of(bytes: &[u8], at: usize) -> Result<Token, FieldFault>
    requires { at < 2 ^ 32 }
    ensures { result ≡ placed at (amount_of bytes.now) }
{
    match fil_base::token_of(bytes) {
        Ok(token) => Ok(token),
        Err(_) => Err(fault_at(at, FieldKind::OutOfRange)),
    }
}

fn cid_of(value: &Value, at: usize) -> Result<&Cid, FieldFault>
    requires { at < 2 ^ 32 }
    ensures found { IfOk result (λ cid. placed at (cid_of value.now) ≡ Ok cid.now) }
    ensures fault { IfErr result (λ fault. placed at (cid_of value.now) ≡ Err fault) }
{
    match value {
        Value::Link(cid) => Ok(cid),
        _ => Err(fault_at(at, FieldKind::WrongKind)),
    }
}

fn bytes_of(value: &Value, at: usize) -> Result<&[u8], FieldFault>
    requires { at < 2 ^ 32 }
    ensures found { IfOk result (λ bytes. placed at (bytes_of value.now) ≡ Ok bytes.now) }
    ensures fault { IfErr result (λ fault. placed at (bytes_of value.now) ≡ Err fault) }
{
    match value {
        Value::Blob(bytes) => Ok(bytes.as_slice()),
        _ => Err(fault_at(at, FieldKind::WrongKind)),
    }
}
