ghost use Rattle.std.specs.Prelude.{◌-◌};
ghost use Rattle.dag_cbor.specs.Nesting.{gives};
ghost use Rattle.dag_cbor.specs.Reading.{GivesOrNoMemory};

use crate::decoding::MAX_DEPTH;
use crate::fault::Flaw;
use crate::frame::Frame;
use crate::partial::Partial;
use crate::token::{Token, token_of};
use crate::value::Value;
use fil_base::Failure;
use std::alloc::Global;

/// The list or the map whose items are at the front, and the bytes after it. The lists and maps inside it are
/// read on a stack, so that their depth takes none of the machine's own.
pub fn nested_of(
    alloc: Global,
    outermost: Partial,
    bytes: &[u8],
) -> Result<(Value, &[u8]), Failure<Flaw>>
    ensures { GivesOrNoMemory (λ x. (x.0, x.1.now)) result (gives (MAX_DEPTH - 1) outermost bytes.now) }
{
    // What is around the innermost, outermost first.
    let mut around: Vec<Frame> = Vec::new(alloc);
    let mut inner = outermost;
    let mut rest = bytes;
    'items: loop {
        if inner.is_full() {
            let value = inner.into_value();
            match around.pop() {
                None => return Ok((value, rest)),
                Some(frame) => inner = frame.put(value)?,
            }
            continue 'items;
        }
        let room = MAX_DEPTH - 1 - around.len() as u64;
        let (frame, behind_key) = inner.begin(alloc, room, rest)?;
        let (token, after) = token_of(alloc, room, behind_key)?;
        rest = after;
        match token {
            Token::Whole(value) => {
                inner = frame.put(value)?;
            }
            Token::List(count) => {
                around.push(frame)?;
                inner = Partial::list(alloc, count)?;
            }
            Token::Map(count) => {
                around.push(frame)?;
                inner = Partial::map(alloc, count)?;
            }
        }
    }
}
