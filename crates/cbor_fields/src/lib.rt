//! The fields of lists of DAG-CBOR (RFC 8949; the IPLD data model), each read as what stands at its place, and which
//! item is not what is asked for.
//!
//! ```text
//! let fields = list_of(&value, 3)?;
//! let nonce = u64_at(fields, 0)?;
//! let balance = token_at(fields, 1)?;
//! let code = cid_at(fields, 2)?;
//! ```
#![tactic(auto)]

mod field_fault;
mod fields;
mod items;
mod laws;

pub use field_fault::{FieldFault, FieldKind};
pub use fields::{bytes_at, cid_at, token_at, u64_at};
pub use items::{items_of, list_of};
pub use laws::fields_are_read_back;

#[cfg(test)]
mod tests;
