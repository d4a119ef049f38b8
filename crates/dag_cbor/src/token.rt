ghost use Rattle.std.specs.Prelude.{◌≡◌};
ghost use Rattle.dag_cbor.specs.Reading.{GivesOrNoMemory, blob_at, simple, token_after, token_at};

use crate::fault::{CborKind, Flaw};
use crate::head::{BYTES, Head, LIST, MAP, NATURAL, NEGATIVE, TAG, TEXT, head_of};
use crate::link::link_of;
use crate::text::{blob_of, owned, text_of};
use crate::value::Value;
use fil_base::Failure;
use std::alloc::Global;

/// What stands at the front of an item.
#[derive(Drop)]
pub enum Token {
    /// An item that is no list and no map.
    Whole(Value),

    /// The head of a list of so many items.
    List(u64),

    /// The head of a map of so many pairs.
    Map(u64),
}

/// The token at the front, of an item for which so much depth is left, and the bytes after it.
#[inline(always)]
#[tactic(auto, unfolding(crate::specs::Reading::token_at))]
pub fn token_of(alloc: Global, room: u64, bytes: &[u8]) -> Result<(Token, &[u8]), Failure<Flaw>>
    ensures { GivesOrNoMemory (λ x. (x.0, x.1.now)) result (token_at room bytes.now) }
{
    let left = bytes.len() as u64;
    let (head, rest) = head_of(bytes)?;
    if room == 0 {
        return Err(Failure::Fault(Flaw {
            kind: CborKind::Depth,
            left,
        }));
    }
    token_behind(alloc, left, head, rest)
}

/// The token whose head was this one, with so many bytes left at the head.
#[inline(always)]
fn token_behind(
    alloc: Global,
    left: u64,
    head: Head,
    bytes: &[u8],
) -> Result<(Token, &[u8]), Failure<Flaw>>
    ensures { GivesOrNoMemory (λ x. (x.0, x.1.now)) result (token_after left (head, bytes.now)) }
{
    match head.major {
        NATURAL => Ok((Token::Whole(Value::Int(i128::from(head.number))), bytes)),
        NEGATIVE => Ok((
            Token::Whole(Value::Int(-1 - i128::from(head.number))),
            bytes,
        )),
        BYTES => {
            let (blob, rest) = blob_of(head.number, bytes)?;
            Ok((Token::Whole(Value::Blob(owned(alloc, blob)?)), rest))
        }
        TEXT => {
            let (text, rest) = text_of(left, head.number, bytes)?;
            Ok((Token::Whole(Value::Text(owned(alloc, text)?)), rest))
        }
        LIST => Ok((Token::List(head.number), bytes)),
        MAP => Ok((Token::Map(head.number), bytes)),
        TAG => {
            let (cid, rest) = link_of(alloc, left, bytes)?;
            Ok((Token::Whole(Value::Link(cid)), rest))
        }
        _ => Ok((Token::Whole(simple_of(head.number)), bytes)),
    }
}

/// False, true or null.
#[inline(always)]
fn simple_of(number: u64) -> Value
    ensures { result ≡ simple number }
{
    match number {
        20 => Value::Bool(false),
        21 => Value::Bool(true),
        _ => Value::Null,
    }
}
