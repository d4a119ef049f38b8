ghost use Rattle.std.specs.Prelude.{◌≡◌, Option};
ghost use Rattle.wasm_types.specs.Opcodes.{price_of};

use crate::number_op::BinOp;
use crate::opcode::{BareOp, IndexOp, MemoryOp, Opcode};
use crate::price_class::PriceClass;

impl Opcode {
    /// What the instruction is charged as. `else` and `end` cost nothing.
    #[tactic(auto, unfolding(crate::specs::Opcodes::row), using(crate::proofs::Prices::block_price, crate::proofs::Prices::load_price, crate::proofs::Prices::store_price, crate::proofs::Prices::unary_price))]
    pub fn price(self) -> Option<PriceClass>
        ensures { result ≡ price_of self }
    {
        match self {
            Opcode::Bare(op) => bare_price(op),
            Opcode::Index(op) => Some(index_price(op)),
            Opcode::Memory(op) => Some(memory_price(op)),
            Opcode::Binary(op) => Some(binary_price(op)),
            Opcode::Block(_) => Some(PriceClass::Branch),
            Opcode::BrTable => Some(PriceClass::Branch),
            Opcode::CallIndirect => Some(PriceClass::Invoke),
            Opcode::Load(_) => Some(PriceClass::Access),
            Opcode::Store(_) => Some(PriceClass::Access),
            Opcode::I32Const => Some(PriceClass::Plain),
            Opcode::I64Const => Some(PriceClass::Plain),
            Opcode::Unary(_) => Some(PriceClass::Plain),
        }
    }
}

#[tactic(auto, unfolding(crate::specs::Opcodes::row))]
fn bare_price(op: BareOp) -> Option<PriceClass>
    ensures { result ≡ price_of (Opcode.Bare op) }
{
    match op {
        BareOp::Unreachable | BareOp::Nop | BareOp::Drop | BareOp::Select => {
            Some(PriceClass::Plain)
        }
        BareOp::Return => Some(PriceClass::Branch),
        BareOp::Else | BareOp::End => None,
    }
}

#[tactic(auto, unfolding(crate::specs::Opcodes::row))]
fn index_price(op: IndexOp) -> PriceClass
    ensures { price_of (Opcode.Index op) ≡ Some result }
{
    match op {
        IndexOp::Br | IndexOp::BrIf => PriceClass::Branch,
        IndexOp::Call => PriceClass::Invoke,
        IndexOp::LocalGet
        | IndexOp::LocalSet
        | IndexOp::LocalTee
        | IndexOp::GlobalGet
        | IndexOp::GlobalSet => PriceClass::Plain,
    }
}

#[tactic(auto, unfolding(crate::specs::Opcodes::row))]
fn memory_price(op: MemoryOp) -> PriceClass
    ensures { price_of (Opcode.Memory op) ≡ Some result }
{
    match op {
        MemoryOp::Size => PriceClass::Plain,
        MemoryOp::Grow => PriceClass::Grow,
        MemoryOp::Copy | MemoryOp::Fill => PriceClass::Bulk,
    }
}

#[tactic(auto, unfolding(crate::specs::Opcodes::row))]
fn binary_price(op: BinOp) -> PriceClass
    ensures { price_of (Opcode.Binary op) ≡ Some result }
{
    match op {
        BinOp::I32Mul
        | BinOp::I32DivS
        | BinOp::I32DivU
        | BinOp::I32RemS
        | BinOp::I32RemU
        | BinOp::I64Mul
        | BinOp::I64DivS
        | BinOp::I64DivU
        | BinOp::I64RemS
        | BinOp::I64RemU => PriceClass::MulDiv,
        BinOp::I32Eq
        | BinOp::I32Ne
        | BinOp::I32LtS
        | BinOp::I32LtU
        | BinOp::I32GtS
        | BinOp::I32GtU
        | BinOp::I32LeS
        | BinOp::I32LeU
        | BinOp::I32GeS
        | BinOp::I32GeU
        | BinOp::I64Eq
        | BinOp::I64Ne
        | BinOp::I64LtS
        | BinOp::I64LtU
        | BinOp::I64GtS
        | BinOp::I64GtU
        | BinOp::I64LeS
        | BinOp::I64LeU
        | BinOp::I64GeS
        | BinOp::I64GeU
        | BinOp::I32Add
        | BinOp::I32Sub
        | BinOp::I32And
        | BinOp::I32Or
        | BinOp::I32Xor
        | BinOp::I32Shl
        | BinOp::I32ShrS
        | BinOp::I32ShrU
        | BinOp::I32Rotl
        | BinOp::I32Rotr
        | BinOp::I64Add
        | BinOp::I64Sub
        | BinOp::I64And
        | BinOp::I64Or
        | BinOp::I64Xor
        | BinOp::I64Shl
        | BinOp::I64ShrS
        | BinOp::I64ShrU
        | BinOp::I64Rotl
        | BinOp::I64Rotr => PriceClass::Plain,
    }
}
