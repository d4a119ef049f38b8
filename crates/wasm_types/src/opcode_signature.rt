ghost use Rattle.std.specs.Prelude.{◌≡◌, Option, option_map};
ghost use Rattle.wasm_types.specs.Opcodes.{typing_of};
ghost use Rattle.wasm_types.specs.Signatures.{type_of};

use crate::access_op::{LoadOp, StoreOp};
use crate::number_op::{BinOp, UnOp};
use crate::opcode::{BareOp, MemoryOp, Opcode};
use crate::signature::Signature;
use crate::val_type::ValType;

impl Opcode {
    /// The operands and the result of the instruction, where its immediates and its place have no part in them.
    #[tactic(auto, unfolding(crate::specs::Opcodes::row), using(crate::proofs::Typings::block_typing, crate::proofs::Typings::index_typing))]
    pub fn signature(self) -> Option<Signature>
        ensures { typing_of self ≡ option_map type_of result }
    {
        match self {
            Opcode::Bare(op) => bare_signature(op),
            Opcode::Load(op) => Some(load_signature(op)),
            Opcode::Store(op) => Some(store_signature(op)),
            Opcode::Memory(op) => Some(memory_signature(op)),
            Opcode::I32Const => Some(Signature {
                takes: &[],
                gives: Some(ValType::I32),
            }),
            Opcode::I64Const => Some(Signature {
                takes: &[],
                gives: Some(ValType::I64),
            }),
            Opcode::Unary(op) => Some(unary_signature(op)),
            Opcode::Binary(op) => Some(binary_signature(op)),
            Opcode::Block(_) => None,
            Opcode::Index(_) => None,
            Opcode::BrTable => None,
            Opcode::CallIndirect => None,
        }
    }
}

#[tactic(auto, unfolding(crate::specs::Opcodes::row))]
fn bare_signature(op: BareOp) -> Option<Signature>
    ensures { typing_of (Opcode.Bare op) ≡ option_map type_of result }
{
    match op {
        BareOp::Nop => Some(Signature {
            takes: &[],
            gives: None,
        }),
        BareOp::Unreachable
        | BareOp::Else
        | BareOp::End
        | BareOp::Return
        | BareOp::Drop
        | BareOp::Select => None,
    }
}

#[tactic(auto, unfolding(crate::specs::Opcodes::row))]
fn load_signature(op: LoadOp) -> Signature
    ensures { typing_of (Opcode.Load op) ≡ Some (type_of result) }
{
    match op {
        LoadOp::I32Load
        | LoadOp::I32Load8S
        | LoadOp::I32Load8U
        | LoadOp::I32Load16S
        | LoadOp::I32Load16U => Signature {
            takes: &[ValType::I32],
            gives: Some(ValType::I32),
        },
        LoadOp::I64Load
        | LoadOp::I64Load8S
        | LoadOp::I64Load8U
        | LoadOp::I64Load16S
        | LoadOp::I64Load16U
        | LoadOp::I64Load32S
        | LoadOp::I64Load32U => Signature {
            takes: &[ValType::I32],
            gives: Some(ValType::I64),
        },
    }
}

#[tactic(auto, unfolding(crate::specs::Opcodes::row))]
fn store_signature(op: StoreOp) -> Signature
    ensures { typing_of (Opcode.Store op) ≡ Some (type_of result) }
{
    match op {
        StoreOp::I32Store | StoreOp::I32Store8 | StoreOp::I32Store16 => Signature {
            takes: &[ValType::I32, ValType::I32],
            gives: None,
        },
        StoreOp::I64Store | StoreOp::I64Store8 | StoreOp::I64Store16 | StoreOp::I64Store32 =>
            Signature {
                takes: &[ValType::I32, ValType::I64],
                gives: None,
            },
    }
}

#[tactic(auto, unfolding(crate::specs::Opcodes::row))]
fn memory_signature(op: MemoryOp) -> Signature
    ensures { typing_of (Opcode.Memory op) ≡ Some (type_of result) }
{
    match op {
        MemoryOp::Size => Signature {
            takes: &[],
            gives: Some(ValType::I32),
        },
        MemoryOp::Grow => Signature {
            takes: &[ValType::I32],
            gives: Some(ValType::I32),
        },
        MemoryOp::Copy | MemoryOp::Fill => Signature {
            takes: &[ValType::I32, ValType::I32, ValType::I32],
            gives: None,
        },
    }
}

#[tactic(auto, unfolding(crate::specs::Opcodes::row))]
fn unary_signature(op: UnOp) -> Signature
    ensures { typing_of (Opcode.Unary op) ≡ Some (type_of result) }
{
    match op {
        UnOp::I32Eqz
        | UnOp::I32Clz
        | UnOp::I32Ctz
        | UnOp::I32Popcnt
        | UnOp::I32Extend8S
        | UnOp::I32Extend16S => Signature {
            takes: &[ValType::I32],
            gives: Some(ValType::I32),
        },
        UnOp::I64Eqz | UnOp::I32WrapI64 => Signature {
            takes: &[ValType::I64],
            gives: Some(ValType::I32),
        },
        UnOp::I64Clz
        | UnOp::I64Ctz
        | UnOp::I64Popcnt
        | UnOp::I64Extend8S
        | UnOp::I64Extend16S
        | UnOp::I64Extend32S => Signature {
            takes: &[ValType::I64],
            gives: Some(ValType::I64),
        },
        UnOp::I64ExtendI32S | UnOp::I64ExtendI32U => Signature {
            takes: &[ValType::I32],
            gives: Some(ValType::I64),
        },
    }
}

#[tactic(auto, unfolding(crate::specs::Opcodes::row))]
fn binary_signature(op: BinOp) -> Signature
    ensures { typing_of (Opcode.Binary op) ≡ Some (type_of result) }
{
    match op {
        BinOp::I32Eq
        | BinOp::I32Ne
        | BinOp::I32LtS
        | BinOp::I32LtU
        | BinOp::I32GtS
        | BinOp::I32GtU
        | BinOp::I32LeS
        | BinOp::I32LeU
        | BinOp::I32GeS
        | BinOp::I32GeU
        | BinOp::I32Add
        | BinOp::I32Sub
        | BinOp::I32Mul
        | BinOp::I32DivS
        | BinOp::I32DivU
        | BinOp::I32RemS
        | BinOp::I32RemU
        | BinOp::I32And
        | BinOp::I32Or
        | BinOp::I32Xor
        | BinOp::I32Shl
        | BinOp::I32ShrS
        | BinOp::I32ShrU
        | BinOp::I32Rotl
        | BinOp::I32Rotr => Signature {
            takes: &[ValType::I32, ValType::I32],
            gives: Some(ValType::I32),
        },
        BinOp::I64Eq
        | BinOp::I64Ne
        | BinOp::I64LtS
        | BinOp::I64LtU
        | BinOp::I64GtS
        | BinOp::I64GtU
        | BinOp::I64LeS
        | BinOp::I64LeU
        | BinOp::I64GeS
        | BinOp::I64GeU => Signature {
            takes: &[ValType::I64, ValType::I64],
            gives: Some(ValType::I32),
        },
        BinOp::I64Add
        | BinOp::I64Sub
        | BinOp::I64Mul
        | BinOp::I64DivS
        | BinOp::I64DivU
        | BinOp::I64RemS
        | BinOp::I64RemU
        | BinOp::I64And
        | BinOp::I64Or
        | BinOp::I64Xor
        | BinOp::I64Shl
        | BinOp::I64ShrS
        | BinOp::I64ShrU
        | BinOp::I64Rotl
        | BinOp::I64Rotr => Signature {
            takes: &[ValType::I64, ValType::I64],
            gives: Some(ValType::I64),
        },
    }
}
