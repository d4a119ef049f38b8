ghost use Rattle.std.specs.Prelude.{◌≡◌, ◌<◌, ◌^◌, Ok, Err, Some, None, IfOk, IfErr, OnErr, slice_get};
ghost use Rattle.cbor_fields.specs.Fields.{fault_at, placed};
ghost use Rattle.cbor_fields.specs.Readers.{items_of, list_of};
ghost use Rattle.cbor_fields.specs.declared.field_fault.FieldKind.TheVariants.{WrongLength};

use crate::field_fault::{FieldFault, FieldKind};
use dag_cbor::Value;

/// The items of a list of this length.
pub fn list_of(value: &Value, len: usize) -> Result<&[Value], FieldFault>
    ensures found { IfOk result (λ items. placed 0 (list_of value.now len) ≡ Ok items.now) }
    ensures fault { IfErr result (λ fault. placed 0 (list_of value.now len) ≡ Err fault) }
{
    match value {
        Value::List(items) if items.len() == len => Ok(items.as_slice()),
        _ => Err(fault_at(0, FieldKind::WrongLength)),
    }
}

/// The items of a list that stands at this place of its parent.
pub fn items_of(value: &Value, at: usize) -> Result<&[Value], FieldFault>
    requires { at < 2 ^ 32 }
    ensures found { IfOk result (λ items. placed at (items_of value.now) ≡ Ok items.now) }
    ensures fault { IfErr result (λ fault. placed at (items_of value.now) ≡ Err fault) }
{
    match value {
        Value::List(items) => Ok(items.as_slice()),
        _ => Err(fault_at(at, FieldKind::WrongKind)),
    }
}

/// The item at this place of a list.
pub(crate) fn item_at(list: &[Value], at: usize) -> Result<&Value, FieldFault>
    requires { at < 2 ^ 32 }
    ensures found { IfOk result (λ item. slice_get list.now at ≡ Some item.now) }
    ensures missing { OnErr result (slice_get list.now at ≡ None) }
    ensures fault { IfErr result (λ fault. fault ≡ fault_at at WrongLength) }
{
    list.get(at).ok_or(fault_at(at, FieldKind::WrongLength))
}

pub(crate) fn fault_at(at: usize, kind: FieldKind) -> FieldFault
    requires { at < 2 ^ 32 }
    ensures { result ≡ fault_at at kind }
{
    FieldFault {
        index: at as u32,
        kind,
    }
}
