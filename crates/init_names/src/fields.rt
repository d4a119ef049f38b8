ghost use Rattle.std.specs.Prelude.{◌≡◌, ◌<◌, ◌^◌, All, IfSome, pos};
ghost use Rattle.std.specs.Option.{option_map};
ghost use Rattle.cbor_fields.specs.Readers.{list_of, number_of};
ghost use Rattle.dag_cbor.specs.Plain.{IsPlain, IsText};
ghost use Rattle.dag_cbor.specs.declared.value.Value.TheVariants as value;
ghost use Rattle.hamt_map.specs.StateFaults.{given};
ghost use Rattle.init_names.specs.Reading.{below_limit, id_in, text_in as text_at};
ghost use Rattle.tree_blocks.specs.Forms.{if_some};

use cbor_fields::list_of;
use dag_cbor::Value;
use fil_base::ActorId;

/// The ID that a value is.
pub(crate) fn id_of(value: &Value) -> Option<ActorId>
    ensures { result ≡ id_in value.now }
{
    match value {
        Value::Int(number) => id_of_number(*number),
        _ => None,
    }
}

fn id_of_number(number: i128) -> Option<ActorId>
    ensures { result ≡ if_some (given (number_of number)) below_limit }
{
    let number = u64::try_from(number).ok()?;
    ActorId::new(number)
}

/// The value of an ID.
pub(crate) fn value_of(id: ActorId) -> Value
    ensures value { result ≡ value.Int (pos id) }
    ensures small { id < 2 ^ 63 }
{
    Value::Int(i128::from(id.number()))
}

/// The text that a value is.
pub(crate) fn text_in(value: &Value) -> Option<&[u8]>
    ensures value { option_map (λ text. text.now) result ≡ text_at value.now }
    ensures text { IsPlain 127 value.now → IfSome result (λ text. IsText text.now) }
{
    match value {
        Value::Text(bytes) => Some(bytes.as_slice()),
        _ => None,
    }
}

/// The items of a list of three.
pub(crate) fn three_in(value: &Value) -> Option<&[Value]>
    ensures value { option_map (λ items. items.now) result ≡ given (list_of value.now 3) }
    ensures plain { IsPlain 128 value.now → IfSome result (λ items. All (IsPlain 127) items.now) }
{
    match list_of(value, 3) {
        Ok(items) => Some(items),
        Err(_) => None,
    }
}
