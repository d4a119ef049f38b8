ghost use Rattle.std.specs.Prelude.{◌≡◌, ◌++◌, ◌-◌, [], IfOk, length, replicate};
ghost use Rattle.wasm_types.specs.declared.limits.TheConstants.{MOST_LOCALS};
ghost use Rattle.wasm_decode.specs.ReadingSections.{body_at, function_at, groups_at, locals_at};
ghost use Rattle.wasm_decode.specs.Stops.{GivesOrNoMemory};

use crate::expression::expression_of;
use crate::fault::Stop;
use crate::number::u32_of;
use crate::part::{close, part_of};
use crate::types::value_type_of;
use crate::value::count_of;
use crate::vector::Entry;
use fil_base::{Failure, Mem, Row};
use std::alloc::Global;
use wasm_types::{Body, MOST_LOCALS, ValType};

impl Entry for Body {
    ghost reading = { body_at };

    fn read(alloc: Global, bytes: &[u8]) -> Result<(Body, &[u8]), Failure<Stop>> {
        body_of(alloc, bytes)
    }
}

// The body of a function, and the rest.
#[tactic(auto, unfolding(crate::specs::ReadingSections::body_at, crate::specs::ReadingValues::sized_at))]
fn body_of(alloc: Global, bytes: &[u8]) -> Result<(Body, &[u8]), Failure<Stop>>
    ensures { GivesOrNoMemory (λ x. (x.0, x.1.now)) result (body_at bytes.now) }
{
    let part = part_of(bytes)?;
    close(part, function_of(alloc, part.content))
}

// The locals and the instructions of a function, and the rest.
#[tactic(auto, unfolding(crate::specs::ReadingSections::function_at))]
fn function_of(alloc: Global, bytes: &[u8]) -> Result<(Body, &[u8]), Failure<Stop>>
    ensures { GivesOrNoMemory (λ x. (x.0, x.1.now)) result (function_at bytes.now) }
{
    let (locals, behind) = locals_of(alloc, bytes)?;
    let (code, rest) = expression_of(alloc, behind)?;
    Ok((Body { locals, code }, rest))
}

// The locals of a function, and the rest.
#[tactic(auto, unfolding(crate::specs::ReadingSections::locals_at))]
fn locals_of(alloc: Global, bytes: &[u8]) -> Result<(Row<ValType>, &[u8]), Failure<Stop>>
    ensures { GivesOrNoMemory (λ x. (x.0, x.1.now)) result (locals_at bytes.now) }
{
    let (count, rest) = u32_of(bytes)?;
    groups_of(alloc, count, rest)
}

// The locals of so many groups, and the rest.
fn groups_of(
    alloc: Global,
    count: u32,
    bytes: &[u8],
) -> Result<(Row<ValType>, &[u8]), Failure<Stop>>
    ensures { GivesOrNoMemory (λ x. (x.0, x.1.now)) result (groups_at [] count bytes.now) }
{
    let mut locals = Vec::new(alloc);
    let mut rest = bytes;
    let mut left = count;
    while left > 0 {
        let (size, behind_size) = count_of(room_for(locals.as_slice()), rest)?;
        let (kind, behind) = value_type_of(behind_size)?;
        add_locals(&mut locals, size, kind)?;
        rest = behind;
        left -= 1;
    }
    Ok((Row::of(locals), rest))
}

// How many locals more there may be.
fn room_for(locals: &[ValType]) -> u32
    ensures { result ≡ MOST_LOCALS - length locals.now }
{
    (MOST_LOCALS as usize).saturating_sub(locals.len()) as u32
}

// Adds so many locals of one type.
fn add_locals(locals: &mut Vec<ValType>, count: u32, kind: ValType) -> Mem<()>
    ensures { IfOk result (λ _. locals.new.items ≡ locals.old.items ++ replicate count kind) }
{
    for _added in 0..count {
        locals.push(kind)?;
    }
    Ok(())
}
