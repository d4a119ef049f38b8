ghost use Rattle.std.specs.Prelude.{◌≡◌, IfErr, IfOk, IfSome, Ok, Some};
ghost use Rattle.std.specs.Option.{option_map};
ghost use Rattle.dag_cbor.specs.Plain.{IsPlain, IsText};
ghost use Rattle.dag_cbor.specs.declared.value.Value.{Value as CborValue};
ghost use Rattle.fil_base.specs.Failure.{IfFault};
ghost use Rattle.hamt_map.specs.StateFaults.{value_under as value_at};
ghost use Rattle.init_names.specs.Names.{parts_block, parts_value};
ghost use Rattle.init_names.specs.Reading.{init_at, parts_in};

use crate::fields::{id_of, text_in, three_in, value_of};
use crate::network::Network;
use cbor_fields::cid_at;
use cid_core::{Block, BlockSource};
use dag_cbor::{Value, encode};
use fil_base::{ActorId, Bytes, Cid, Failure, Mem};
use hamt_map::{StateFault, value_under};
use sqlite_items::Items;
use std::alloc::Global;

/// DAG-CBOR (the multicodec table).
const DAG_CBOR: u64 = 0x71;

/// What the block of the state has: the root of the names' tree, the next ID and the network.
#[derive(Drop)]
pub(crate) struct Parts {
    pub(crate) names: Cid,
    pub(crate) next: ActorId,
    pub(crate) network: Network,
}

/// The parts of the state under a head.
pub(crate) fn parts_under<B: BlockSource>(
    alloc: Global,
    base: &B,
    head: &Cid,
) -> Result<Parts, Failure<StateFault>>
    ensures found { IfOk result (λ p. (value : CborValue) × (value_at (B.blocks base.now) head.now ≡ Ok value)
        × (parts_in value ≡ Some (record { names = p.names; next = p.next; network = p.network }))) }
    ensures text { IfOk result (λ p. IsText p.network) }
    ensures fault { IfErr result (λ failure. IfFault failure (λ fault.
        init_at (B.blocks base.now) head.now ≡ Err fault)) }
{
    let value = value_under(alloc, base, head)?;
    let Some(parts) = parts_of(alloc, &value)? else {
        return Err(StateFault::form(alloc, head));
    };
    Ok(parts)
}

/// The parts of the state that a value is, if it is one.
fn parts_of(alloc: Global, value: &Value) -> Mem<Option<Parts>>
    requires { IsPlain 128 value.now }
    ensures { IfOk result (λ parts. option_map (λ p. record { names = p.names; next = p.next; network = p.network }) parts
        ≡ parts_in value.now) }
{
    let Some((names, next, network)) = parts_at(value) else {
        return Ok(None);
    };
    let names = names.copy(alloc)?;
    let network = Network::of(Bytes::copy_of(alloc, network)?);
    Ok(Some(Parts {
        names,
        next,
        network,
    }))
}

/// Where the parts of the state stand in a value.
fn parts_at(value: &Value) -> Option<(&Cid, ActorId, &[u8])>
    ensures parts { option_map (λ p. record { names = p.0.now; next = p.1; network = p.2.now }) result ≡ parts_in value.now }
    ensures text { IsPlain 128 value.now → IfSome result (λ p. IsText p.2.now) }
{
    let items = three_in(value)?;
    let names = cid_at(items, 0).ok()?;
    let next = id_of(items.get(1)?)?;
    let network = text_in(items.get(2)?)?;
    Some((names, next, network))
}

/// The block of the state with these parts.
pub(crate) fn state_block(alloc: Global, names: Cid, next: ActorId, network: &[u8]) -> Mem<Block>
    requires { IsText network.now }
    ensures { IfOk result (λ block. block ≡ parts_block names next network.now) }
{
    let value = state_value(alloc, names, next, network)?;
    let bytes = encode(alloc, &value)?;
    Block::of(alloc, DAG_CBOR, bytes)
}

/// The state as a value.
fn state_value(alloc: Global, names: Cid, next: ActorId, network: &[u8]) -> Mem<Value>
    requires { IsText network.now }
    ensures value { IfOk result (λ value. value ≡ parts_value names next network.now) }
    ensures plain { IfOk result (IsPlain 128) }
{
    prove!(names.version() <= 1);
    let next = value_of(next);
    let network = Bytes::copy_of(alloc, network)?;
    let parts = vec![in alloc; Value::Link(names), next, Value::Text(network)]?;
    Ok(Value::List(Items::from_vec(parts)))
}
