use crate::{FormFault, read_form0};
use cbor_fields::{FieldFault, FieldKind};
use dag_cbor::Value;
use fil_base::{Bytes, Failure, Mem, NoMemory};
use sqlite_items::Items;
use std::alloc::{AllocError, Global};
use std::test::Fail;

const TEN: [u8; 2] = [0, 10];

/// 2*10^27.
const GREATEST: [u8; 13] = [0, 6, 0x76, 0x5c, 0x79, 0x3f, 0xa1, 0, 0x79, 0xd0, 0, 0, 0];

/// An account list of two actors and two messages, of which a test may choose these parts.
#[derive(Clone, Copy)]
struct Parts {
    form: i128,
    epoch: i128,
    ids: (i128, i128),
    nonce: i128,
    balances: (&'static [u8], &'static [u8]),
    message_nonce: i128,
}

const SOUND: Parts = Parts {
    form: 0,
    epoch: (1 << 63) - 1,
    ids: (100, (1 << 63) - 1),
    nonce: (1 << 64) - 1,
    balances: (&TEN, &[]),
    message_nonce: (1 << 64) - 2,
};

fn with_epoch(epoch: i128) -> Parts {
    Parts { epoch, ..SOUND }
}

fn with_ids(first: i128, second: i128) -> Parts {
    let ids = (first, second);
    Parts { ids, ..SOUND }
}

fn with_nonces(nonce: i128, message_nonce: i128) -> Parts {
    Parts {
        nonce,
        message_nonce,
        ..SOUND
    }
}

fn with_balances(first: &'static [u8], second: &'static [u8]) -> Parts {
    let balances = (first, second);
    Parts { balances, ..SOUND }
}

fn list(items: Vec<Value>) -> Value {
    Value::List(Items::from_vec(items))
}

fn amount(alloc: Global, bytes: &[u8]) -> Result<Value, AllocError> {
    Ok(Value::Blob(Bytes::of(bytes.to_vec(alloc)?)))
}

fn actor(alloc: Global, id: i128, nonce: i128, balance: &[u8]) -> Result<Value, AllocError> {
    let balance = amount(alloc, balance)?;
    Ok(list(vec![in alloc; Value::Int(id), Value::Int(nonce), balance]?))
}

fn message(alloc: Global, from: i128, to: i128, nonce: i128) -> Result<Value, AllocError> {
    let value = amount(alloc, &TEN)?;
    Ok(list(vec![in alloc; Value::Int(from), Value::Int(to), Value::Int(nonce), value]?))
}

fn form(alloc: Global, parts: &Parts) -> Result<Value, AllocError> {
    let first = actor(alloc, parts.ids.0, parts.nonce, parts.balances.0)?;
    let second = actor(alloc, parts.ids.1, 7, parts.balances.1)?;
    let sent = message(alloc, 100, 101, 0)?;
    let last = message(alloc, 102, 103, parts.message_nonce)?;
    let actors = list(vec![in alloc; first, second]?);
    let messages = list(vec![in alloc; sent, last]?);
    Ok(list(vec![in alloc;
        Value::Int(parts.form),
        Value::Int(parts.epoch),
        actors,
        messages,
    ]?))
}

fn fault_of(alloc: Global, value: &Value) -> Mem<Option<FormFault>> {
    match read_form0(alloc, value) {
        Ok(_) => Ok(None),
        Err(Failure::Fault(fault)) => Ok(Some(fault)),
        Err(Failure::NoMemory) => Err(NoMemory),
    }
}

fn field(index: u32, kind: FieldKind) -> Option<FormFault> {
    Some(FormFault::Field(FieldFault { index, kind }))
}

#[test]
fn an_account_list_is_read(rt: HostRuntime) -> Result<(), Fail> {
    let alloc = rt.alloc();
    let read = read_form0(alloc, &form(alloc, &SOUND)?)?;
    assert_eq!(rt; read.epoch, (1 << 63) - 1);
    assert_eq!(rt; read.messages.as_slice().len(), 2);
    let first = read.actors.as_slice().first();
    assert_eq!(rt;
        first.map(|actor| (actor.id.number(), actor.nonce, actor.balance.number())),
        Some((100, u64::MAX, 10))
    );
    let last = read.messages.as_slice().last();
    assert_eq!(rt;
        last.map(|message| (message.from.number(), message.to.number(), message.nonce)),
        Some((102, 103, u64::MAX - 1))
    );
    let greatest = with_balances(&GREATEST, &[]);
    assert_eq!(rt; fault_of(alloc, &form(alloc, &greatest)?)?, None);
    Ok(())
}

#[test]
fn a_field_is_the_fault_of_an_account_list(rt: HostRuntime) -> Result<(), Fail> {
    let alloc = rt.alloc();
    // Fields of the whole go by their place in it, those of an actor or a message by their place there.
    let cases = [
        (Parts { form: 1, ..SOUND }, field(0, FieldKind::OutOfRange)),
        (with_epoch(1 << 63), field(1, FieldKind::OutOfRange)),
        (with_ids(5, 1 << 63), field(0, FieldKind::OutOfRange)),
        (with_nonces(1 << 64, 0), field(1, FieldKind::OutOfRange)),
        (
            with_nonces(0, (1 << 64) - 1),
            field(2, FieldKind::OutOfRange),
        ),
        (
            with_balances(&[0, 0, 5], &[]),
            field(2, FieldKind::OutOfRange),
        ),
    ];
    for (parts, fault) in cases {
        assert_eq!(rt; fault_of(alloc, &form(alloc, &parts)?)?, fault);
    }
    Ok(())
}

#[test]
fn other_values_are_no_account_lists(rt: HostRuntime) -> Result<(), Fail> {
    let alloc = rt.alloc();
    let empty = list(Vec::new(alloc));
    let three = list(vec![in alloc; Value::Int(0), Value::Int(0), empty]?);
    assert_eq!(rt; fault_of(alloc, &three)?, field(0, FieldKind::WrongLength));
    let four = list(vec![in alloc; Value::Int(0), Value::Int(0), Value::Null, Value::Null]?);
    assert_eq!(rt; fault_of(alloc, &four)?, field(2, FieldKind::WrongKind));
    Ok(())
}

#[test]
fn order_is_judged_after_fields_and_before_the_total(rt: HostRuntime) -> Result<(), Fail> {
    let alloc = rt.alloc();
    let equal = with_ids(5, 5);
    assert_eq!(rt;
        fault_of(alloc, &form(alloc, &equal)?)?,
        Some(FormFault::Order(1))
    );
    let nonce = Parts {
        message_nonce: -1,
        ..equal
    };
    assert_eq!(rt;
        fault_of(alloc, &form(alloc, &nonce)?)?,
        field(2, FieldKind::OutOfRange)
    );
    let much = with_balances(&GREATEST, &[0, 1]);
    assert_eq!(rt;
        fault_of(alloc, &form(alloc, &much)?)?,
        Some(FormFault::Total)
    );
    let both = Parts {
        ids: (6, 5),
        ..much
    };
    assert_eq!(rt;
        fault_of(alloc, &form(alloc, &both)?)?,
        Some(FormFault::Order(1))
    );
    Ok(())
}
