ghost use Rattle.std.specs.Prelude.{◌≡◌, length};
ghost use Rattle.wasm_types.specs.Opcodes.{prefixed, entry_of};
ghost use Rattle.wasm_decode.specs.ReadingInstructions.{behind_byte, behind_opcode, immediates_at, indirect_at, instruction_at, labels_at, mem_arg_at, memories_at, zero_at};
ghost use Rattle.wasm_decode.specs.Stops.{Gives, GivesOrNoMemory};

use crate::fault::{Stop, WasmKind};
use crate::number::{byte_of, i32_of, i64_of, u32_of};
use crate::types::block_type_of;
use crate::vector::vector_of;
use fil_base::Failure;
use std::alloc::Global;
use wasm_types::{Labels, MemArg, MemoryOp, Op, Opcode, OpcodeEntry, opcode_at, prefixed_at};

/// An instruction, and the rest.
#[tactic(auto, unfolding(crate::specs::ReadingInstructions::instruction_at))]
pub fn instruction_of(alloc: Global, bytes: &[u8]) -> Result<(Op, &[u8]), Failure<Stop>>
    ensures { GivesOrNoMemory (λ x. (x.0, x.1.now)) result (instruction_at bytes.now) }
{
    let (byte, rest) = byte_of(bytes)?;
    match opcode_at(byte) {
        OpcodeEntry::Known(opcode) => immediates_of(alloc, opcode, rest),
        OpcodeEntry::Prefix => prefixed_of(alloc, bytes, rest),
        OpcodeEntry::Float => Err(Failure::Fault(Stop::Flaw(WasmKind::Float, bytes.len()))),
        OpcodeEntry::Unknown => Err(Failure::Fault(Stop::Flaw(WasmKind::Unsupported, bytes.len()))),
    }
}

// What stands behind a prefix at `place`.
fn prefixed_of<'b>(
    alloc: Global,
    place: &'b [u8],
    bytes: &'b [u8],
) -> Result<(Op, &'b [u8]), Failure<Stop>>
    ensures { GivesOrNoMemory (λ x. (x.0, x.1.now)) result (behind_byte place.now OpcodeEntry.Prefix bytes.now) }
{
    let (number, rest) = u32_of(bytes)?;
    match prefixed_at(number) {
        OpcodeEntry::Known(opcode) => immediates_of(alloc, opcode, rest),
        OpcodeEntry::Float => Err(Failure::Fault(Stop::Flaw(WasmKind::Float, place.len()))),
        OpcodeEntry::Prefix => Err(Failure::Fault(Stop::Flaw(WasmKind::Unsupported, place.len()))),
        OpcodeEntry::Unknown => Err(Failure::Fault(Stop::Flaw(WasmKind::Unsupported, place.len()))),
    }
}

// The immediates of an instruction, and the rest.
#[tactic(auto, unfolding(crate::specs::ReadingInstructions::immediates_at))]
fn immediates_of(alloc: Global, opcode: Opcode, bytes: &[u8]) -> Result<(Op, &[u8]), Failure<Stop>>
    ensures { GivesOrNoMemory (λ x. (x.0, x.1.now)) result (immediates_at opcode bytes.now) }
{
    match opcode {
        Opcode::Bare(op) => Ok((op.op(), bytes)),
        Opcode::Block(op) => {
            let (result_type, rest) = block_type_of(bytes)?;
            Ok((op.op(result_type), rest))
        }
        Opcode::Index(op) => {
            let (index, rest) = u32_of(bytes)?;
            Ok((op.op(index), rest))
        }
        Opcode::BrTable => labels_of(alloc, bytes),
        Opcode::CallIndirect => Ok(indirect_of(bytes)?),
        Opcode::Load(op) => {
            let (arg, rest) = mem_arg_of(bytes)?;
            Ok((Op::Load(op, arg), rest))
        }
        Opcode::Store(op) => {
            let (arg, rest) = mem_arg_of(bytes)?;
            Ok((Op::Store(op, arg), rest))
        }
        Opcode::Memory(op) => {
            let rest = memories_of(op, bytes)?;
            Ok((op.op(), rest))
        }
        Opcode::I32Const => {
            let (number, rest) = i32_of(bytes)?;
            Ok((Op::I32Const(number), rest))
        }
        Opcode::I64Const => {
            let (number, rest) = i64_of(bytes)?;
            Ok((Op::I64Const(number), rest))
        }
        Opcode::Unary(op) => Ok((Op::Unary(op), bytes)),
        Opcode::Binary(op) => Ok((Op::Binary(op), bytes)),
    }
}

// The labels of a `br_table` and the default one, and the rest.
fn labels_of(alloc: Global, bytes: &[u8]) -> Result<(Op, &[u8]), Failure<Stop>>
    ensures { GivesOrNoMemory (λ x. (x.0, x.1.now)) result (labels_at bytes.now) }
{
    let (labels, behind) = vector_of::<u32>(alloc, u32::MAX, bytes)?;
    let (default, rest) = u32_of(behind)?;
    let labels = Labels::new(alloc, labels)?;
    Ok((Op::BrTable { default, labels }, rest))
}

// The index of a type and a table number, and the rest.
fn indirect_of(bytes: &[u8]) -> Result<(Op, &[u8]), Stop>
    ensures { Gives (λ x. (x.0, x.1.now)) result (indirect_at bytes.now) }
{
    let (index, behind) = u32_of(bytes)?;
    let rest = zero_of(behind)?;
    Ok((Op::CallIndirect(index), rest))
}

// An alignment and an offset, and the rest.
#[inline(always)]
fn mem_arg_of(bytes: &[u8]) -> Result<(MemArg, &[u8]), Stop>
    ensures { Gives (λ x. (x.0, x.1.now)) result (mem_arg_at bytes.now) }
{
    let (align, behind) = u32_of(bytes)?;
    let (offset, rest) = u32_of(behind)?;
    Ok((MemArg { align, offset }, rest))
}

// The memory numbers of an instruction on a whole memory: the rest.
fn memories_of(op: MemoryOp, bytes: &[u8]) -> Result<&[u8], Stop>
    ensures { Gives (λ rest. rest.now) result (memories_at op bytes.now) }
{
    match op {
        MemoryOp::Size => zero_of(bytes),
        MemoryOp::Grow => zero_of(bytes),
        MemoryOp::Copy => {
            let rest = zero_of(bytes)?;
            zero_of(rest)
        }
        MemoryOp::Fill => zero_of(bytes),
    }
}

// A table or memory number, which is 0: the rest.
#[tactic(auto, unfolding(crate::specs::ReadingInstructions::zero_at))]
fn zero_of(bytes: &[u8]) -> Result<&[u8], Stop>
    ensures { Gives (λ rest. rest.now) result (zero_at bytes.now) }
{
    let (number, rest) = u32_of(bytes)?;
    if number != 0 {
        return Err(Stop::Flaw(WasmKind::Form, bytes.len()));
    }
    Ok(rest)
}
