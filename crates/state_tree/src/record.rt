ghost use Rattle.std.specs.Prelude.{◌≡◌, Bool, IfOk, IfSome, IsTrue, is_some};
ghost use Rattle.std.specs.Option.{option_map};
ghost use Rattle.dag_cbor.specs.Plain.{IsPlain};
ghost use Rattle.state_tree.specs.Actors.{IsActor, actor_record};
ghost use Rattle.state_tree.specs.Reading.{actor_in};

use crate::actor::Actor;
use cbor_fields::{cid_at, list_of, token_at, u64_at};
use dag_cbor::Value;
use fil_base::{Cid, GREATEST_AMOUNT, Mem, Token, token_bytes};
use sqlite_items::Items;
use std::alloc::Global;

/// The fields of an actor's record.
#[derive(Clone, Copy)]
pub(crate) struct Fields<'a> {
    pub code: &'a Cid,
    pub head: &'a Cid,
    pub sequence: u64,
    pub balance: Token,
}

/// The record of an actor.
pub(crate) fn record_of(alloc: Global, actor: Actor) -> Mem<Value>
    ensures record { IfOk result (λ value. value ≡ actor_record actor) }
    ensures plain { IfOk result (IsPlain 120) }
    ensures actor { IfOk result (λ _. IsActor actor) }
{
    let Actor {
        code,
        head,
        sequence,
        balance,
    } = actor;
    prove!(code.version() <= 1);
    prove!(head.version() <= 1);
    prove!(balance.number() <= GREATEST_AMOUNT);
    let amount = token_bytes(alloc, balance)?;
    let items = vec![in alloc;
        Value::Link(code),
        Value::Link(head),
        Value::Int(i128::from(sequence)),
        Value::Blob(amount),
    ]?;
    Ok(Value::List(Items::from_vec(items)))
}

/// The actor whose record a value is.
pub(crate) fn actor_in(alloc: Global, value: &Value) -> Mem<Option<Actor>>
    ensures { IfOk result (λ actor. actor ≡ actor_in value.now) }
{
    let Some(fields) = fields_in(value) else {
        return Ok(None);
    };
    let code = fields.code.copy(alloc)?;
    let head = fields.head.copy(alloc)?;
    Ok(Some(Actor {
        code,
        head,
        sequence: fields.sequence,
        balance: fields.balance,
    }))
}

/// The fields of the actor's record that a value is.
pub(crate) fn fields_in(value: &Value) -> Option<Fields<'_>>
    ensures read { option_map (λ f. record {
      code = f.code.now;
      head = f.head.now;
      sequence = f.sequence;
      balance = f.balance;
    }) result ≡ actor_in value.now }
    ensures actor { IfSome (actor_in value.now) IsActor }
{
    let Ok(items) = list_of(value, 4) else {
        return None;
    };
    let Ok(code) = cid_at(items, 0) else {
        return None;
    };
    let Ok(head) = cid_at(items, 1) else {
        return None;
    };
    let Ok(sequence) = u64_at(items, 2) else {
        return None;
    };
    let Ok(balance) = token_at(items, 3) else {
        return None;
    };
    prove!(code.version() <= 1);
    prove!(head.version() <= 1);
    Some(Fields {
        code,
        head,
        sequence,
        balance,
    })
}
