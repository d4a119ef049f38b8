ghost use Rattle.std.specs.Prelude.{◌≡◌, IfErr, IfOk, IfSome};
ghost use Rattle.dag_cbor.specs.Plain.{IsPlain};
ghost use Rattle.dag_cbor.specs.Reading.{whole_at};
ghost use Rattle.fil_base.specs.Failure.{IfFault};
ghost use Rattle.hamt_map.specs.StateFaults.{given, value_under as value_at};

use crate::state_fault::StateFault;
use cid_core::BlockSource;
use dag_cbor::{Value, decode};
use fil_base::{Cid, Failure, Mem, NoMemory};
use std::alloc::Global;

/// The value of the block under a CID.
pub fn value_under<B: BlockSource>(
    alloc: Global,
    base: &B,
    cid: &Cid,
) -> Result<Value, Failure<StateFault>>
    ensures found { IfOk result (λ value. value_at (B.blocks base.now) cid.now ≡ Ok value) }
    ensures plain { IfOk result (IsPlain 128) }
    ensures fault { IfErr result (λ failure. IfFault failure (λ fault.
        value_at (B.blocks base.now) cid.now ≡ Err fault)) }
{
    let Some(block) = base.find(cid) else {
        return Err(StateFault::missing(alloc, cid));
    };
    let Some(value) = value_in(alloc, block.bytes())? else {
        return Err(StateFault::form(alloc, cid));
    };
    Ok(value)
}

/// The value that the bytes spell, if they spell one.
fn value_in(alloc: Global, bytes: &[u8]) -> Mem<Option<Value>>
    ensures value { IfOk result (λ value. value ≡ given (whole_at bytes.now)) }
    ensures plain { IfOk result (λ value. IfSome value (IsPlain 128)) }
{
    match decode(alloc, bytes) {
        Ok(value) => Ok(Some(value)),
        Err(Failure::NoMemory) => Err(NoMemory),
        Err(Failure::Fault(_)) => Ok(None),
    }
}
