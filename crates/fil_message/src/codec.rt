ghost use Rattle.std.specs.Prelude.{◌≡◌, ◌<◌, ◌^◌, Err, IfErr, IfOk, Ok, length};
ghost use Rattle.dag_cbor.specs.declared.value.Value.TheVariants.{Blob as blob_value};
ghost use Rattle.fil_address.specs.AddressBytes.{address as address_bytes};
ghost use Rattle.fil_base.specs.Failure.{IfFault};
ghost use Rattle.fil_message.specs.Layout.{amount_value, message_spelling, message_value, number_value, receipt_spelling};
ghost use Rattle.fil_message.specs.Reading.{message_of};
ghost use Rattle.fil_message.specs.Sound.{IsMessage};
ghost use Rattle.fil_message.specs.declared.message_fault.MessageFault.TheVariants.{Field as field_fault};

use crate::fields::{address_at, just_at, number_at};
use crate::message::Message;
use crate::message_fault::MessageFault;
use crate::receipt::Receipt;
use cbor_fields::{FieldFault, bytes_at, list_of, token_at, u64_at};
use dag_cbor::{Value, encode};
use fee_rules::BLOCK_GAS_LIMIT;
use fil_address::Address;
use fil_base::{Bytes, Failure, Gas, Mem, Token, token_bytes};
use sqlite_items::Items;
use std::alloc::Global;

/// The fields of a message, with its parameters where they stand.
#[derive(Clone, Copy, Debug)]
struct Fields<'a> {
    to: Address,
    from: Address,
    nonce: u64,
    value: Token,
    limit: u64,
    cap: Token,
    premium: Token,
    method: u64,
    params: &'a [u8],
}

/// The message that a value is: `[0, to, from, nonce, value, gas limit, gas fee cap, gas premium, method, params]`, with
/// addresses, amounts and parameters as byte strings. The fault is that of the first field that is none; an address that
/// is none, a nonce of 2^64 - 1 and a gas limit above 10^10 are out of range.
pub fn read_message(alloc: Global, value: &Value) -> Result<Message, Failure<MessageFault>>
    ensures found { IfOk result (λ message. message_of value.now ≡ Ok message) }
    ensures fault { IfErr result (λ failure. IfFault failure (λ fault.
        (field : FieldFault) × (message_of value.now ≡ Err field) × (fault ≡ field_fault field))) }
{
    let fields = match fields_of(value) {
        Ok(fields) => fields,
        Err(fault) => return Err(Failure::Fault(MessageFault::Field(fault))),
    };
    let params = Bytes::copy_of(alloc, fields.params)?;
    Ok(Message {
        to: fields.to,
        from: fields.from,
        nonce: fields.nonce,
        value: fields.value,
        limit: Gas::new(fields.limit),
        cap: fields.cap,
        premium: fields.premium,
        method: fields.method,
        params,
    })
}

fn fields_of(value: &Value) -> Result<Fields<'_>, FieldFault>
    ensures found { IfOk result (λ f. message_of value.now ≡ Ok (record {
      to = f.to;
      from = f.from;
      nonce = f.nonce;
      value = f.value;
      limit = f.limit;
      cap = f.cap;
      premium = f.premium;
      method = f.method;
      params = f.params.now;
    })) }
    ensures fault { IfErr result (λ fault. message_of value.now ≡ Err fault) }
{
    let items = list_of(value, 10)?;
    let _version = just_at(items, 0, 0)?;
    let to = address_at(items, 1)?;
    let from = address_at(items, 2)?;
    let nonce = number_at(items, 3, u64::MAX - 1)?;
    let value = token_at(items, 4)?;
    let limit = number_at(items, 5, BLOCK_GAS_LIMIT)?;
    let cap = token_at(items, 6)?;
    let premium = token_at(items, 7)?;
    let method = u64_at(items, 8)?;
    let params = bytes_at(items, 9)?;
    Ok(Fields {
        to,
        from,
        nonce,
        value,
        limit,
        cap,
        premium,
        method,
        params,
    })
}

/// The encoding of a message.
pub fn message_bytes(alloc: Global, message: &Message) -> Mem<Bytes>
    requires { IsMessage message.now }
    ensures { IfOk result (λ bytes. bytes ≡ message_spelling message.now) }
{
    let value = value_of(alloc, message)?;
    encode(alloc, &value)
}

fn value_of(alloc: Global, message: &Message) -> Mem<Value>
    ensures { IfOk result (λ value. value ≡ message_value message.now) }
{
    let to = address_value(alloc, &message.to)?;
    let from = address_value(alloc, &message.from)?;
    let value = amount_value(alloc, message.value)?;
    let cap = amount_value(alloc, message.cap)?;
    let premium = amount_value(alloc, message.premium)?;
    let params = Bytes::copy_of(alloc, message.params.as_slice())?;
    let items = vec![in alloc;
        number_value(0),
        to,
        from,
        number_value(message.nonce),
        value,
        number_value(message.limit.number()),
        cap,
        premium,
        number_value(message.method),
        Value::Blob(params),
    ]?;
    Ok(Value::List(Items::from_vec(items)))
}

fn address_value(alloc: Global, address: &Address) -> Mem<Value>
    ensures { IfOk result (λ value. value ≡ blob_value (address_bytes address.now)) }
{
    let bytes = address.to_bytes(alloc)?;
    Ok(Value::Blob(bytes))
}

fn amount_value(alloc: Global, amount: Token) -> Mem<Value>
    ensures { IfOk result (λ value. value ≡ amount_value amount) }
{
    let bytes = token_bytes(alloc, amount)?;
    Ok(Value::Blob(bytes))
}

fn number_value(number: u64) -> Value
    ensures { result ≡ number_value number }
{
    Value::Int(i128::from(number))
}

/// The encoding of a receipt: `[exit code, return, gas used]`.
pub fn receipt_bytes(alloc: Global, receipt: &Receipt) -> Mem<Bytes>
    ensures { IfOk result (λ bytes. bytes ≡ receipt_spelling receipt.now) }
{
    let returned = short_copy(alloc, receipt.returned.as_slice())?;
    let items = vec![in alloc;
        number_value(u64::from(receipt.exit.number())),
        Value::Blob(returned),
        number_value(receipt.used.number()),
    ]?;
    let value = Value::List(Items::from_vec(items));
    encode(alloc, &value)
}

// A copy of bytes, of which there are fewer than 2^64.
fn short_copy(alloc: Global, bytes: &[u8]) -> Mem<Bytes>
    ensures copy { IfOk result (λ copy. copy ≡ bytes.now) }
    ensures small { IfOk result (λ copy. length copy < 2 ^ 64) }
{
    let copy = Vec::from_slice(alloc, bytes)?;
    Ok(Bytes::of(copy))
}
