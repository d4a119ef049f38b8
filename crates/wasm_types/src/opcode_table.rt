ghost use Rattle.std.specs.Prelude.{◌≡◌, ◌<◌, length, slice_index_or};
ghost use Rattle.wasm_types.specs.Opcodes.{Code, byte, prefixed, IsEntry, entry_of};

use crate::access_op::{LoadOp, StoreOp};
use crate::number_op::{BinOp, UnOp};
use crate::opcode::{BareOp, BlockOp, IndexOp, MemoryOp, Opcode};
use Opcode::{
    Bare, Binary, Block, BrTable, CallIndirect, I32Const, I64Const, Index, Load, Memory, Store,
    Unary,
};
use OpcodeEntry::{Float, Known, Prefix, Unknown};

/// What an opcode is.
#[derive(Clone, Copy, Debug, PartialEq, Eq)]
pub enum OpcodeEntry {
    /// An instruction.
    Known(Opcode),

    /// The byte `fc`: the number behind it says what it is.
    Prefix,

    /// An instruction on floating-point numbers.
    Float,

    /// No instruction that is known here.
    Unknown,
}

/// What the byte is as an opcode.
pub fn opcode_at(opcode: u8) -> OpcodeEntry
    ensures is { IsEntry (byte opcode) result }
    ensures exact { result ≡ entry_of (byte opcode) }
{
    entry_in(&OPCODES, opcode)
}

// The row of the byte.
fn entry_in(table: &[OpcodeEntry], opcode: u8) -> OpcodeEntry
    requires { 255 < length table.now }
    ensures { result ≡ slice_index_or table.now opcode OpcodeEntry.Unknown }
{
    table[usize::from(opcode)]
}

/// What the number behind the byte `fc` is as an opcode.
pub fn prefixed_at(number: u32) -> OpcodeEntry
    ensures is { IsEntry (prefixed number) result }
    ensures exact { result ≡ entry_of (prefixed number) }
{
    prefixed_in(number)
}

// The same by the number's tests.
#[tactic(auto, unfolding(crate::specs::Opcodes::entry_of))]
fn prefixed_in(number: u32) -> OpcodeEntry
    ensures { result ≡ entry_of (prefixed number) }
{
    if number < 8 {
        Float
    } else if number == 10 {
        Known(Memory(MemoryOp::Copy))
    } else if number == 11 {
        Known(Memory(MemoryOp::Fill))
    } else {
        Unknown
    }
}

/// A law, with no code: an opcode is one thing.
pub fn one_opcode_entry()
    ensures { (code : Code) (e f : OpcodeEntry) → IsEntry code e → IsEntry code f → e ≡ f }
{}

/// What each byte is as an opcode (WebAssembly 1.0, section 5.4; WebAssembly 2.0, section 5.4, for those from `c0` on).
pub(crate) static OPCODES: [OpcodeEntry; 256] = [
    // 00
    Known(Bare(BareOp::Unreachable)),
    Known(Bare(BareOp::Nop)),
    Known(Block(BlockOp::Block)),
    Known(Block(BlockOp::Loop)),
    Known(Block(BlockOp::If)),
    Known(Bare(BareOp::Else)),
    Unknown,
    Unknown,
    Unknown,
    Unknown,
    Unknown,
    Known(Bare(BareOp::End)),
    Known(Index(IndexOp::Br)),
    Known(Index(IndexOp::BrIf)),
    Known(BrTable),
    Known(Bare(BareOp::Return)),
    // 10
    Known(Index(IndexOp::Call)),
    Known(CallIndirect),
    Unknown,
    Unknown,
    Unknown,
    Unknown,
    Unknown,
    Unknown,
    Unknown,
    Unknown,
    Known(Bare(BareOp::Drop)),
    Known(Bare(BareOp::Select)),
    Unknown,
    Unknown,
    Unknown,
    Unknown,
    // 20
    Known(Index(IndexOp::LocalGet)),
    Known(Index(IndexOp::LocalSet)),
    Known(Index(IndexOp::LocalTee)),
    Known(Index(IndexOp::GlobalGet)),
    Known(Index(IndexOp::GlobalSet)),
    Unknown,
    Unknown,
    Unknown,
    Known(Load(LoadOp::I32Load)),
    Known(Load(LoadOp::I64Load)),
    Float,
    Float,
    Known(Load(LoadOp::I32Load8S)),
    Known(Load(LoadOp::I32Load8U)),
    Known(Load(LoadOp::I32Load16S)),
    Known(Load(LoadOp::I32Load16U)),
    // 30
    Known(Load(LoadOp::I64Load8S)),
    Known(Load(LoadOp::I64Load8U)),
    Known(Load(LoadOp::I64Load16S)),
    Known(Load(LoadOp::I64Load16U)),
    Known(Load(LoadOp::I64Load32S)),
    Known(Load(LoadOp::I64Load32U)),
    Known(Store(StoreOp::I32Store)),
    Known(Store(StoreOp::I64Store)),
    Float,
    Float,
    Known(Store(StoreOp::I32Store8)),
    Known(Store(StoreOp::I32Store16)),
    Known(Store(StoreOp::I64Store8)),
    Known(Store(StoreOp::I64Store16)),
    Known(Store(StoreOp::I64Store32)),
    Known(Memory(MemoryOp::Size)),
    // 40
    Known(Memory(MemoryOp::Grow)),
    Known(I32Const),
    Known(I64Const),
    Float,
    Float,
    Known(Unary(UnOp::I32Eqz)),
    Known(Binary(BinOp::I32Eq)),
    Known(Binary(BinOp::I32Ne)),
    Known(Binary(BinOp::I32LtS)),
    Known(Binary(BinOp::I32LtU)),
    Known(Binary(BinOp::I32GtS)),
    Known(Binary(BinOp::I32GtU)),
    Known(Binary(BinOp::I32LeS)),
    Known(Binary(BinOp::I32LeU)),
    Known(Binary(BinOp::I32GeS)),
    Known(Binary(BinOp::I32GeU)),
    // 50
    Known(Unary(UnOp::I64Eqz)),
    Known(Binary(BinOp::I64Eq)),
    Known(Binary(BinOp::I64Ne)),
    Known(Binary(BinOp::I64LtS)),
    Known(Binary(BinOp::I64LtU)),
    Known(Binary(BinOp::I64GtS)),
    Known(Binary(BinOp::I64GtU)),
    Known(Binary(BinOp::I64LeS)),
    Known(Binary(BinOp::I64LeU)),
    Known(Binary(BinOp::I64GeS)),
    Known(Binary(BinOp::I64GeU)),
    Float,
    Float,
    Float,
    Float,
    Float,
    // 60
    Float,
    Float,
    Float,
    Float,
    Float,
    Float,
    Float,
    Known(Unary(UnOp::I32Clz)),
    Known(Unary(UnOp::I32Ctz)),
    Known(Unary(UnOp::I32Popcnt)),
    Known(Binary(BinOp::I32Add)),
    Known(Binary(BinOp::I32Sub)),
    Known(Binary(BinOp::I32Mul)),
    Known(Binary(BinOp::I32DivS)),
    Known(Binary(BinOp::I32DivU)),
    Known(Binary(BinOp::I32RemS)),
    // 70
    Known(Binary(BinOp::I32RemU)),
    Known(Binary(BinOp::I32And)),
    Known(Binary(BinOp::I32Or)),
    Known(Binary(BinOp::I32Xor)),
    Known(Binary(BinOp::I32Shl)),
    Known(Binary(BinOp::I32ShrS)),
    Known(Binary(BinOp::I32ShrU)),
    Known(Binary(BinOp::I32Rotl)),
    Known(Binary(BinOp::I32Rotr)),
    Known(Unary(UnOp::I64Clz)),
    Known(Unary(UnOp::I64Ctz)),
    Known(Unary(UnOp::I64Popcnt)),
    Known(Binary(BinOp::I64Add)),
    Known(Binary(BinOp::I64Sub)),
    Known(Binary(BinOp::I64Mul)),
    Known(Binary(BinOp::I64DivS)),
    // 80
    Known(Binary(BinOp::I64DivU)),
    Known(Binary(BinOp::I64RemS)),
    Known(Binary(BinOp::I64RemU)),
    Known(Binary(BinOp::I64And)),
    Known(Binary(BinOp::I64Or)),
    Known(Binary(BinOp::I64Xor)),
    Known(Binary(BinOp::I64Shl)),
    Known(Binary(BinOp::I64ShrS)),
    Known(Binary(BinOp::I64ShrU)),
    Known(Binary(BinOp::I64Rotl)),
    Known(Binary(BinOp::I64Rotr)),
    Float,
    Float,
    Float,
    Float,
    Float,
    // 90
    Float,
    Float,
    Float,
    Float,
    Float,
    Float,
    Float,
    Float,
    Float,
    Float,
    Float,
    Float,
    Float,
    Float,
    Float,
    Float,
    // a0
    Float,
    Float,
    Float,
    Float,
    Float,
    Float,
    Float,
    Known(Unary(UnOp::I32WrapI64)),
    Float,
    Float,
    Float,
    Float,
    Known(Unary(UnOp::I64ExtendI32S)),
    Known(Unary(UnOp::I64ExtendI32U)),
    Float,
    Float,
    // b0
    Float,
    Float,
    Float,
    Float,
    Float,
    Float,
    Float,
    Float,
    Float,
    Float,
    Float,
    Float,
    Float,
    Float,
    Float,
    Float,
    // c0
    Known(Unary(UnOp::I32Extend8S)),
    Known(Unary(UnOp::I32Extend16S)),
    Known(Unary(UnOp::I64Extend8S)),
    Known(Unary(UnOp::I64Extend16S)),
    Known(Unary(UnOp::I64Extend32S)),
    Unknown,
    Unknown,
    Unknown,
    Unknown,
    Unknown,
    Unknown,
    Unknown,
    Unknown,
    Unknown,
    Unknown,
    Unknown,
    // d0
    Unknown,
    Unknown,
    Unknown,
    Unknown,
    Unknown,
    Unknown,
    Unknown,
    Unknown,
    Unknown,
    Unknown,
    Unknown,
    Unknown,
    Unknown,
    Unknown,
    Unknown,
    Unknown,
    // e0
    Unknown,
    Unknown,
    Unknown,
    Unknown,
    Unknown,
    Unknown,
    Unknown,
    Unknown,
    Unknown,
    Unknown,
    Unknown,
    Unknown,
    Unknown,
    Unknown,
    Unknown,
    Unknown,
    // f0
    Unknown,
    Unknown,
    Unknown,
    Unknown,
    Unknown,
    Unknown,
    Unknown,
    Unknown,
    Unknown,
    Unknown,
    Unknown,
    Unknown,
    Prefix,
    Unknown,
    Unknown,
    Unknown,
];
