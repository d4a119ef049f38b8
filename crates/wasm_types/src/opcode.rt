use crate::access_op::{LoadOp, StoreOp};
use crate::number_op::{BinOp, UnOp};

/// An instruction without its immediates, by what these are (WebAssembly 1.0, section 5.4).
#[derive(Clone, Copy, Debug, PartialEq, Eq)]
pub enum Opcode {
    /// It has none, as `Unary` and `Binary`.
    Bare(BareOp),

    /// A block type.
    Block(BlockOp),

    /// An index.
    Index(IndexOp),

    /// Some labels, and a default one.
    BrTable,

    /// The index of a type, and a table number.
    CallIndirect,

    /// A memory argument, as `Store`.
    Load(LoadOp),

    Store(StoreOp),

    /// A memory number or two.
    Memory(MemoryOp),

    /// A number with a sign, as `I64Const`.
    I32Const,

    I64Const,
    Unary(UnOp),
    Binary(BinOp),
}

/// An instruction that has no immediates and computes no number.
#[derive(Clone, Copy, Debug, PartialEq, Eq)]
pub enum BareOp {
    Unreachable,
    Nop,
    Else,
    End,
    Return,
    Drop,
    Select,
}

/// An instruction that opens a block.
#[derive(Clone, Copy, Debug, PartialEq, Eq)]
pub enum BlockOp {
    Block,
    Loop,
    If,
}

/// An instruction with an index: of a label, a function, a local or a global.
#[derive(Clone, Copy, Debug, PartialEq, Eq)]
pub enum IndexOp {
    Br,
    BrIf,
    Call,
    LocalGet,
    LocalSet,
    LocalTee,
    GlobalGet,
    GlobalSet,
}

/// An instruction on a whole memory.
#[derive(Clone, Copy, Debug, PartialEq, Eq)]
pub enum MemoryOp {
    Size,
    Grow,
    Copy,
    Fill,
}
