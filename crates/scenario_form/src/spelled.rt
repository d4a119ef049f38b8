ghost use Rattle.std.specs.Prelude.{◌≡◌, ◌<◌, ◌^◌, All, Err, IfErr, IfOk, List, Ok, length, map};
ghost use Rattle.cbor_fields.specs.Fields.{fault_at, field};
ghost use Rattle.cbor_fields.specs.Readers.{items_of};
ghost use Rattle.fil_base.specs.Failure.{IfFault};
ghost use Rattle.fil_message.specs.Reading.{fields_of};
ghost use Rattle.scenario_form.specs.Spelled.{ArePartTexts, IsPartText, the_value, the_values};

use cbor_fields::{FieldFault, FieldKind};
use dag_cbor::{Value, decode, items_in};
use fil_base::{Failure, Mem, NoMemory};
use std::alloc::Global;

/// The items of the list of this length that the bytes spell, each as the bytes that spell it.
pub(crate) fn list_of(
    alloc: Global,
    bytes: &[u8],
    len: usize,
) -> Result<Vec<&[u8]>, Failure<FieldFault>>
    requires { IsPartText bytes.now }
    ensures found { IfOk result (λ items. fields_of (the_value bytes.now) len ≡ Ok (the_values (map (λ s. s.now) items.items))) }
    ensures len { IfOk result (λ items. length items.items ≡ len) }
    ensures parts { IfOk result (λ items. ArePartTexts (map (λ s. s.now) items.items)) }
    ensures fault { IfErr result (λ failure. IfFault failure (λ fault. fields_of (the_value bytes.now) len ≡ Err fault)) }
{
    let Some(items) = items_in(alloc, bytes)? else {
        return Err(Failure::Fault(fault_at(0, FieldKind::WrongLength)));
    };
    if items.len() != len {
        return Err(Failure::Fault(fault_at(0, FieldKind::WrongLength)));
    }
    Ok(items)
}

/// The items of the list at this place of a list, each as the bytes that spell it.
pub(crate) fn items_at<'a>(
    alloc: Global,
    list: &[&'a [u8]],
    at: usize,
) -> Result<Vec<&'a [u8]>, Failure<FieldFault>>
    requires place { at < 2 ^ 32 }
    requires parts { ArePartTexts (map (λ s. s.now) list.now) }
    ensures found { IfOk result (λ items. field items_of (the_values (map (λ s. s.now) list.now)) at
        ≡ Ok (the_values (map (λ s. s.now) items.items))) }
    ensures parts { IfOk result (λ items. ArePartTexts (map (λ s. s.now) items.items)) }
    ensures fault { IfErr result (λ failure. IfFault failure (λ fault.
        field items_of (the_values (map (λ s. s.now) list.now)) at ≡ Err fault)) }
{
    let Some(bytes) = list.get(at) else {
        return Err(Failure::Fault(fault_at(at, FieldKind::WrongLength)));
    };
    match items_in(alloc, bytes)? {
        Some(items) => Ok(items),
        None => Err(Failure::Fault(fault_at(at, FieldKind::WrongKind))),
    }
}

/// The values that are spelled so.
pub(crate) fn values_of(alloc: Global, list: &[&[u8]]) -> Mem<Vec<Value>>
    requires { All IsPartText (map (λ s. s.now) list.now) }
    ensures { IfOk result (λ values. values.items ≡ the_values (map (λ s. s.now) list.now)) }
{
    let mut values = Vec::with_capacity(alloc, list.len())?;
    for bytes in list {
        values.push(value_of(alloc, bytes)?)?;
    }
    Ok(values)
}

/// The value that is spelled so.
pub(crate) fn value_of(alloc: Global, bytes: &[u8]) -> Mem<Value>
    requires { IsPartText bytes.now }
    ensures { IfOk result (λ value. value ≡ the_value bytes.now) }
{
    match decode(alloc, bytes) {
        Ok(value) => Ok(value),
        Err(Failure::NoMemory) => Err(NoMemory),
        Err(Failure::Fault(_)) => unreachable!(),
    }
}

fn fault_at(at: usize, kind: FieldKind) -> FieldFault
    requires { at < 2 ^ 32 }
    ensures { result ≡ fault_at at kind }
{
    FieldFault {
        index: at as u32,
        kind,
    }
}
