use crate::access_op::{LoadOp, MemArg, StoreOp};
use crate::labels::Labels;
use crate::number_op::{BinOp, UnOp};
use crate::val_type::ValType;

/// An instruction with its immediates (WebAssembly 1.0, section 2.4; WebAssembly 2.0, sign extension and the bulk
/// instructions of a memory). Code is flat: `Else` and `End` are instructions, and the last one of a body is its `End`.
///
/// Table and memory numbers are 0, and are not kept.
#[derive(Debug, Drop)]
pub enum Op {
    Unreachable,
    Nop,

    /// With its result, as the next two.
    Block(Option<ValType>),

    Loop(Option<ValType>),
    If(Option<ValType>),
    Else,
    End,

    /// With its label, as the next one.
    Br(u32),

    BrIf(u32),

    BrTable { default: u32, labels: Labels },

    Return,

    /// With the index of its function.
    Call(u32),

    /// With the index of its type.
    CallIndirect(u32),

    Drop,
    Select,

    /// With the index of its local, as the next two.
    LocalGet(u32),

    LocalSet(u32),
    LocalTee(u32),

    /// With the index of its global, as the next one.
    GlobalGet(u32),

    GlobalSet(u32),
    Load(LoadOp, MemArg),
    Store(StoreOp, MemArg),
    MemorySize,
    MemoryGrow,
    MemoryCopy,
    MemoryFill,

    /// With its bits, as the next one.
    I32Const(u32),

    I64Const(u64),
    Unary(UnOp),
    Binary(BinOp),
}
