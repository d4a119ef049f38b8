ghost use Rattle.std.specs.Prelude.{◌≡◌, ◌++◌, IfOk, IfErr};
ghost use Rattle.std.specs.List.{flat_map};
ghost use Rattle.fil_base.specs.Failure.{IfFault};
ghost use Rattle.dag_cbor.specs.declared.value.Value.{Value};
ghost use Rattle.dag_cbor.specs.Faults.{IsFault};
ghost use Rattle.dag_cbor.specs.Links.{links_of};
ghost use Rattle.dag_cbor.specs.Plain.{IsPlain};
ghost use Rattle.dag_cbor.specs.Spelling.{spelled};

use crate::decoding::{MAX_DEPTH, decode};
use crate::fault::CborFault;
use crate::value::Value;
use fil_base::{Bytes, Cid, Failure, Mem, Row};
use std::alloc::Global;

/// The links of the value that the bytes spell, all of them: in order and with repeats.
pub fn links(alloc: Global, bytes: &[u8]) -> Result<Row<Cid>, Failure<CborFault>>
    ensures found { IfOk result (λ links.
        (value : Value) × IsPlain MAX_DEPTH value × (bytes.now ≡ spelled value) × (links ≡ links_of value)) }
    // A fault comes only where no value is spelled so.
    ensures only { IfErr result (λ failure. IfFault failure (λ fault.
        (value : Value) → IsPlain MAX_DEPTH value → bytes.now ≡ spelled value → ⊥)) }
    // It is the one that is judged first from the left.
    ensures fault { IfErr result (λ failure. IfFault failure (IsFault bytes.now)) }
{
    let value = decode(alloc, bytes)?;
    Ok(links_in(alloc, &value)?)
}

/// The links of a value, in order and with repeats.
pub fn links_in(alloc: Global, value: &Value) -> Mem<Row<Cid>>
    ensures { IfOk result (λ links. links ≡ links_of value.now) }
{
    let mut found = Vec::new(alloc);
    put_links(alloc, &mut found, value)?;
    Ok(Row::of(found))
}

/// Puts the links of a value behind those that are there.
#[cycle(collecting)]
fn put_links(alloc: Global, found: &mut Vec<Cid>, value: &Value) -> Mem<()>
    ensures { IfOk result (λ _. found.new.items ≡ found.old.items ++ links_of value.now) }
{
    match value {
        Value::Null | Value::Bool(_) | Value::Int(_) | Value::Blob(_) | Value::Text(_) => Ok(()),
        Value::List(items) => put_links_of_items(alloc, found, items.as_slice()),
        Value::Map(pairs) => put_links_of_pairs(alloc, found, pairs.as_slice()),
        Value::Link(cid) => {
            found.push(cid.copy(alloc)?)?;
            Ok(())
        }
    }
}

/// Puts the links of items behind those that are there.
#[cycle(collecting)]
fn put_links_of_items(alloc: Global, found: &mut Vec<Cid>, items: &[Value]) -> Mem<()>
    ensures { IfOk result (λ _. found.new.items ≡ found.old.items ++ flat_map links_of items.now) }
{
    for item in items {
        put_links(alloc, found, item)?;
    }
    Ok(())
}

/// Puts the links of the items of pairs behind those that are there.
#[cycle(collecting)]
fn put_links_of_pairs(alloc: Global, found: &mut Vec<Cid>, pairs: &[(Bytes, Value)]) -> Mem<()>
    ensures { IfOk result (λ _. found.new.items ≡ found.old.items ++ flat_map (λ p. links_of p.1) pairs.now) }
{
    for (_, item) in pairs {
        put_links(alloc, found, item)?;
    }
    Ok(())
}
