ghost use Rattle.std.specs.Prelude.{◌≡◌, IfOk, reverse};
ghost use Rattle.wasm_decode.specs.Instructions.{turn_of, turned};
ghost use Rattle.wasm_decode.specs.Nestings.{nesting_of};
ghost use Rattle.wasm_decode.specs.ReadingInstructions.{expression_at};
ghost use Rattle.wasm_decode.specs.Stops.{GivesOrNoMemory};

use crate::fault::{Stop, WasmKind};
use crate::instruction::instruction_of;
use fil_base::{Failure, Mem, Row};
use std::alloc::Global;
use wasm_types::Op;

/// An expression, and the rest.
pub fn expression_of(alloc: Global, bytes: &[u8]) -> Result<(Row<Op>, &[u8]), Failure<Stop>>
    ensures { GivesOrNoMemory (λ x. (x.0, x.1.now)) result (expression_at bytes.now) }
{
    let mut opened = Vec::new(alloc);
    let mut done = Vec::new(alloc);
    let mut rest = bytes;
    for _read in 0..bytes.len() {
        let (op, behind) = instruction_of(alloc, rest)?;
        let place = enter(&mut opened, turn_made_by(&op))?;
        done.push(op)?;
        match place {
            Place::Inside => rest = behind,
            Place::Ended => return Ok((Row::of(done), behind)),
            Place::Misplaced => {
                return Err(Failure::Fault(Stop::Flaw(WasmKind::Form, rest.len())));
            }
        }
    }
    Err(Failure::Fault(Stop::Short))
}

/// What an instruction does to the blocks that are open.
#[derive(Clone, Copy)]
pub enum Turn {
    /// It opens one, which may have an `else` or not.
    Opens(bool),

    Else,
    End,
    Stays,
}

/// Where an instruction leaves the blocks.
#[derive(Clone, Copy)]
pub enum Place {
    /// It stands where it may.
    Inside,

    /// It ends the outermost block.
    Ended,

    /// It may not stand there.
    Misplaced,
}

// Opens or closes a block.
fn enter(opened: &mut Vec<bool>, turn: Turn) -> Mem<Place>
    ensures { IfOk result (λ place. turned turn (reverse opened.old.items) ≡ nesting_of place (reverse opened.new.items)) }
{
    match turn {
        Turn::Opens(may_else) => {
            opened.push(may_else)?;
            Ok(Place::Inside)
        }
        Turn::Else => close_first_part(opened),
        Turn::End => Ok(close_block(opened)),
        Turn::Stays => Ok(Place::Inside),
    }
}

// Closes the first part of an `if`, and opens the second.
fn close_first_part(opened: &mut Vec<bool>) -> Mem<Place>
    ensures { IfOk result (λ place. turned Turn.Else (reverse opened.old.items) ≡ nesting_of place (reverse opened.new.items)) }
{
    match opened.pop() {
        None => Ok(Place::Misplaced),
        Some(may_else) => {
            if !may_else {
                return Ok(Place::Misplaced);
            }
            opened.push(false)?;
            Ok(Place::Inside)
        }
    }
}

// Closes the innermost block.
fn close_block(opened: &mut Vec<bool>) -> Place
    ensures { turned Turn.End (reverse opened.old.items) ≡ nesting_of result (reverse opened.new.items) }
{
    match opened.pop() {
        None => Place::Ended,
        Some(_may_else) => Place::Inside,
    }
}

// What the instruction does to the blocks.
fn turn_made_by(op: &Op) -> Turn
    ensures { result ≡ turn_of op.now }
{
    match op {
        Op::Block(_) => Turn::Opens(false),
        Op::Loop(_) => Turn::Opens(false),
        Op::If(_) => Turn::Opens(true),
        Op::Else => Turn::Else,
        Op::End => Turn::End,
        Op::Unreachable
        | Op::Nop
        | Op::Br(_)
        | Op::BrIf(_)
        | Op::BrTable { .. }
        | Op::Return
        | Op::Call(_)
        | Op::CallIndirect(_)
        | Op::Drop
        | Op::Select
        | Op::LocalGet(_)
        | Op::LocalSet(_)
        | Op::LocalTee(_)
        | Op::GlobalGet(_)
        | Op::GlobalSet(_)
        | Op::Load(_, _)
        | Op::Store(_, _)
        | Op::MemorySize
        | Op::MemoryGrow
        | Op::MemoryCopy
        | Op::MemoryFill
        | Op::I32Const(_)
        | Op::I64Const(_)
        | Op::Unary(_)
        | Op::Binary(_) => Turn::Stays,
    }
}
