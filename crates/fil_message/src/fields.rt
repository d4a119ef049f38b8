ghost use Rattle.std.specs.Prelude.{◌≡◌, ◌-◌, ◌<◌, ◌^◌, Err, IfErr, IfOk, Ok};
ghost use Rattle.cbor_fields.specs.Fields.{fault_at, field, placed};
ghost use Rattle.cbor_fields.specs.Readers.{items_of};
ghost use Rattle.fil_message.specs.Readers.{address_of, in_range, just, up_to};
ghost use Rattle.fil_address.specs.AddressReading.{address_in};

use cbor_fields::{FieldFault, FieldKind, bytes_at, items_of, u64_at};
use dag_cbor::Value;
use fil_address::{Address, from_bytes};
use fil_base::ActorId;

/// The number up to the greatest one at this place of a list.
pub fn number_at(list: &[Value], at: usize, greatest: u64) -> Result<u64, FieldFault>
    requires { at < 2 ^ 32 }
    ensures { result ≡ field (up_to greatest) list.now at }
{
    let number = u64_at(list, at)?;
    if number <= greatest {
        Ok(number)
    } else {
        Err(fault_at(at, FieldKind::OutOfRange))
    }
}

/// The number at this place of a list, if it is just this one.
pub fn just_at(list: &[Value], at: usize, expected: u64) -> Result<u64, FieldFault>
    requires { at < 2 ^ 32 }
    ensures { result ≡ field (just expected) list.now at }
{
    let number = u64_at(list, at)?;
    if number == expected {
        Ok(number)
    } else {
        Err(fault_at(at, FieldKind::OutOfRange))
    }
}

/// The ID of an actor at this place of a list.
pub fn id_at(list: &[Value], at: usize) -> Result<ActorId, FieldFault>
    requires { at < 2 ^ 32 }
    ensures { result ≡ field (up_to (2 ^ 63 - 1)) list.now at }
{
    let number = number_at(list, at, (1 << 63) - 1)?;
    match ActorId::new(number) {
        Some(id) => Ok(id),
        None => Err(fault_at(at, FieldKind::OutOfRange)),
    }
}

/// The address at this place of a list, which stands there as its bytes.
pub(crate) fn address_at(list: &[Value], at: usize) -> Result<Address, FieldFault>
    requires { at < 2 ^ 32 }
    ensures { result ≡ field address_of list.now at }
{
    let bytes = bytes_at(list, at)?;
    address_in(bytes, at)
}

fn address_in(bytes: &[u8], at: usize) -> Result<Address, FieldFault>
    requires { at < 2 ^ 32 }
    ensures { result ≡ placed at (in_range (address_in bytes.now)) }
{
    match from_bytes(bytes) {
        Ok(address) => Ok(address),
        Err(_) => Err(fault_at(at, FieldKind::OutOfRange)),
    }
}

/// The items of the list at this place of a list.
pub fn items_at(list: &[Value], at: usize) -> Result<&[Value], FieldFault>
    requires { at < 2 ^ 32 }
    ensures found { IfOk result (λ items. field items_of list.now at ≡ Ok items.now) }
    ensures fault { IfErr result (λ fault. field items_of list.now at ≡ Err fault) }
{
    match list.get(at) {
        Some(item) => items_of(item, at),
        None => Err(fault_at(at, FieldKind::WrongLength)),
    }
}

fn fault_at(at: usize, kind: FieldKind) -> FieldFault
    requires { at < 2 ^ 32 }
    ensures { result ≡ fault_at at kind }
{
    FieldFault {
        index: at as u32,
        kind,
    }
}
