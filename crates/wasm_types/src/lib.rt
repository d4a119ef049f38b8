//! The types of WebAssembly modules and instructions (WebAssembly Core Specification 1.0, section 2), integers alone,
//! with sign extension, `memory.copy` and `memory.fill` of 2.0; the table of opcodes; the table of system calls; and how
//! much a module may have.
//!
//! ```text
//! let OpcodeEntry::Known(opcode) = opcode_at(0x6a) else { .. };
//! // opcode is Opcode::Binary(BinOp::I32Add), opcode.price() is Some(PriceClass::Plain)
//! ```
#![tactic(auto)]

mod access_op;
mod func_type;
mod labels;
mod limits;
mod number_op;
mod op;
mod opcode;
mod opcode_op;
mod opcode_price;
mod opcode_signature;
mod opcode_table;
mod price_class;
mod raw_module;
mod signature;
mod syscall;
mod val_type;

pub use access_op::{LoadOp, MemArg, StoreOp};
pub use func_type::FuncType;
pub use labels::Labels;
pub use limits::{
    MOST_EXPORTS, MOST_FIRST_PAGES, MOST_FUNCTIONS, MOST_GLOBALS, MOST_LOCALS, MOST_MODULE_BYTES,
    MOST_PAGES, MOST_PARAMS, MOST_SEGMENTS, MOST_TABLE_ELEMENTS, MOST_TYPES,
};
pub use number_op::{BinOp, UnOp};
pub use op::Op;
pub use opcode::{BareOp, BlockOp, IndexOp, MemoryOp, Opcode};
pub use opcode_table::{OpcodeEntry, opcode_at, prefixed_at};
pub use price_class::PriceClass;
pub use raw_module::{
    Body, ElementPart, Export, ExportKind, GlobalPart, Import, Limits, RawModule, SegmentPart,
};
pub use signature::Signature;
pub use syscall::{SYSCALL_COUNT, SyscallRow, syscall_number, syscall_signature};
pub use val_type::ValType;

#[cfg(test)]
mod tests;
