ghost use Rattle.std.specs.Prelude.{◌≡◌, IfOk, IfErr};
ghost use Rattle.fil_base.specs.Failure.{IfFault};
ghost use Rattle.dag_cbor.specs.declared.value.Value.{Value};
ghost use Rattle.dag_cbor.specs.Plain.{IsPlain};
ghost use Rattle.dag_cbor.specs.Spelling.{spelled};
ghost use Rattle.dag_cbor.specs.Faults.{IsFault};
ghost use Rattle.dag_cbor.specs.Reading.{GivesOrNoMemory, item_at, whole_at};

use crate::fault::{CborFault, CborKind, Flaw};
use crate::nested::nested_of;
use crate::partial::Partial;
use crate::token::{Token, token_of};
use crate::value::Value;
use fil_base::Failure;
use std::alloc::Global;

/// The deepest nesting: an item that is no list and no map has depth 1, and a list or map is one deeper than its
/// deepest item or key.
pub const MAX_DEPTH: u64 = 128;

/// The value that the bytes spell, all of them.
pub fn decode(alloc: Global, bytes: &[u8]) -> Result<Value, Failure<CborFault>>
    // What is read is spelled so.
    ensures found { IfOk result (λ value. IsPlain MAX_DEPTH value × (bytes.now ≡ spelled value)) }
    // A fault comes only where nothing is spelled so.
    ensures only { IfErr result (λ failure. IfFault failure (λ fault.
        (value : Value) → IsPlain MAX_DEPTH value → bytes.now ≡ spelled value → ⊥)) }
    // It is the one that is judged first from the left.
    ensures fault { IfErr result (λ failure. IfFault failure (IsFault bytes.now)) }
{
    match whole_of(alloc, bytes) {
        Ok(value) => Ok(value),
        Err(Failure::NoMemory) => Err(Failure::NoMemory),
        Err(Failure::Fault(flaw)) => Err(Failure::Fault(CborFault {
            kind: flaw.kind,
            at: (bytes.len() as u64).saturating_sub(flaw.left),
        })),
    }
}

/// The item that is all of the bytes.
#[tactic(auto, unfolding(crate::specs::Reading::whole_at))]
fn whole_of(alloc: Global, bytes: &[u8]) -> Result<Value, Failure<Flaw>>
    ensures { GivesOrNoMemory (λ value. value) result (whole_at bytes.now) }
{
    let (value, rest) = item_of(alloc, bytes)?;
    if !rest.is_empty() {
        return Err(Failure::Fault(Flaw {
            kind: CborKind::Trailing,
            left: rest.len() as u64,
        }));
    }
    Ok(value)
}

/// The item at the front, and the bytes after it.
fn item_of(alloc: Global, bytes: &[u8]) -> Result<(Value, &[u8]), Failure<Flaw>>
    ensures { GivesOrNoMemory (λ x. (x.0, x.1.now)) result (item_at MAX_DEPTH bytes.now) }
{
    let (token, rest) = token_of(alloc, MAX_DEPTH, bytes)?;
    match token {
        Token::Whole(value) => Ok((value, rest)),
        Token::List(count) => {
            let list = Partial::list(alloc, count)?;
            nested_of(alloc, list, rest)
        }
        Token::Map(count) => {
            let map = Partial::map(alloc, count)?;
            nested_of(alloc, map, rest)
        }
    }
}
