ghost use Rattle.std.specs.Prelude.{◌≡◌};
ghost use Rattle.wasm_types.specs.Ops.{bare_op, block_op, index_op, memory_op, opcode_of};

use crate::op::Op;
use crate::opcode::{BareOp, BlockOp, IndexOp, MemoryOp, Opcode};
use crate::val_type::ValType;

impl BareOp {
    /// The instruction.
    pub fn op(self) -> Op
        ensures { result ≡ bare_op self }
    {
        match self {
            BareOp::Unreachable => Op::Unreachable,
            BareOp::Nop => Op::Nop,
            BareOp::Else => Op::Else,
            BareOp::End => Op::End,
            BareOp::Return => Op::Return,
            BareOp::Drop => Op::Drop,
            BareOp::Select => Op::Select,
        }
    }
}

impl BlockOp {
    /// The beginning of a block with this result.
    pub fn op(self, result_type: Option<ValType>) -> Op
        ensures { result ≡ block_op self result_type }
    {
        match self {
            BlockOp::Block => Op::Block(result_type),
            BlockOp::Loop => Op::Loop(result_type),
            BlockOp::If => Op::If(result_type),
        }
    }
}

impl IndexOp {
    /// The instruction with this index.
    pub fn op(self, index: u32) -> Op
        ensures { result ≡ index_op self index }
    {
        match self {
            IndexOp::Br => Op::Br(index),
            IndexOp::BrIf => Op::BrIf(index),
            IndexOp::Call => Op::Call(index),
            IndexOp::LocalGet => Op::LocalGet(index),
            IndexOp::LocalSet => Op::LocalSet(index),
            IndexOp::LocalTee => Op::LocalTee(index),
            IndexOp::GlobalGet => Op::GlobalGet(index),
            IndexOp::GlobalSet => Op::GlobalSet(index),
        }
    }
}

impl MemoryOp {
    /// The instruction.
    pub fn op(self) -> Op
        ensures { result ≡ memory_op self }
    {
        match self {
            MemoryOp::Size => Op::MemorySize,
            MemoryOp::Grow => Op::MemoryGrow,
            MemoryOp::Copy => Op::MemoryCopy,
            MemoryOp::Fill => Op::MemoryFill,
        }
    }
}

impl Op {
    /// The instruction without its immediates.
    pub fn opcode(&self) -> Opcode
        ensures { result ≡ opcode_of self.now }
    {
        match self {
            Op::Unreachable => Opcode::Bare(BareOp::Unreachable),
            Op::Nop => Opcode::Bare(BareOp::Nop),
            Op::Block(_) => Opcode::Block(BlockOp::Block),
            Op::Loop(_) => Opcode::Block(BlockOp::Loop),
            Op::If(_) => Opcode::Block(BlockOp::If),
            Op::Else => Opcode::Bare(BareOp::Else),
            Op::End => Opcode::Bare(BareOp::End),
            Op::Br(_) => Opcode::Index(IndexOp::Br),
            Op::BrIf(_) => Opcode::Index(IndexOp::BrIf),
            Op::BrTable { .. } => Opcode::BrTable,
            Op::Return => Opcode::Bare(BareOp::Return),
            Op::Call(_) => Opcode::Index(IndexOp::Call),
            Op::CallIndirect(_) => Opcode::CallIndirect,
            Op::Drop => Opcode::Bare(BareOp::Drop),
            Op::Select => Opcode::Bare(BareOp::Select),
            Op::LocalGet(_) => Opcode::Index(IndexOp::LocalGet),
            Op::LocalSet(_) => Opcode::Index(IndexOp::LocalSet),
            Op::LocalTee(_) => Opcode::Index(IndexOp::LocalTee),
            Op::GlobalGet(_) => Opcode::Index(IndexOp::GlobalGet),
            Op::GlobalSet(_) => Opcode::Index(IndexOp::GlobalSet),
            Op::Load(load, _) => Opcode::Load(*load),
            Op::Store(store, _) => Opcode::Store(*store),
            Op::MemorySize => Opcode::Memory(MemoryOp::Size),
            Op::MemoryGrow => Opcode::Memory(MemoryOp::Grow),
            Op::MemoryCopy => Opcode::Memory(MemoryOp::Copy),
            Op::MemoryFill => Opcode::Memory(MemoryOp::Fill),
            Op::I32Const(_) => Opcode::I32Const,
            Op::I64Const(_) => Opcode::I64Const,
            Op::Unary(unary) => Opcode::Unary(*unary),
            Op::Binary(binary) => Opcode::Binary(*binary),
        }
    }
}
