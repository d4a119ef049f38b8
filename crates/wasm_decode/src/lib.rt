//! The binary format of WebAssembly modules (WebAssembly Core Specification 1.0, section 5) without floating-point
//! numbers and the start section, with four parts of 2.0: the data count section, sign extension, `memory.copy` and
//! `memory.fill`. Imports are system calls.
//!
//! ```text
//! let raw = decode(alloc, bytes)?;
//! // raw.functions is the row of the types of the module's own functions
//! ```
#![tactic(auto)]

mod body;
mod custom;
mod decoding;
mod entries;
mod expression;
mod fault;
mod func_type;
mod import;
mod instruction;
mod laws;
mod limits;
mod module_sections;
mod number;
mod part;
mod section;
mod single_section;
mod types;
mod value;
mod vector;

pub use decoding::decode;
pub use fault::{WasmFault, WasmKind};
pub use laws::{one_module, reading_is_the_grammar};

#[cfg(test)]
mod tests;
