//! Valid WebAssembly modules (WebAssembly Core Specification 1.0, section 3), with two limits on bodies and two exports
//! that a machine enters by.
//!
//! ```text
//! let module = check(alloc, decode(alloc, bytes)?)?;
//! ```
#![tactic(auto)]

mod bodies;
mod branches;
mod calls;
mod checking;
mod exports;
mod fault;
mod functions;
mod laws;
mod levels;
mod limits;
mod memory;
mod module;
mod operands;
mod parts;
mod place;
mod results;
mod steps;
mod table;
mod variables;
mod verdicts;

pub use checking::check;
pub use fault::{CheckFault, CheckKind};
pub use laws::{
    accepted_code_has_a_type, one_nesting, typed_bodies_have_no_other_fault,
    typed_code_has_no_other_fault, valid_bodies_have_types,
};
pub use limits::{MOST_HEIGHT, MOST_NESTING};
pub use module::Module;
pub use verdicts::one_verdict;
