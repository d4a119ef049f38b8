//! Hash array mapped tries: finite maps from bytes to DAG-CBOR values with canonical roots (the IPLD HashMap
//! specification, with SHA2-256, a bit width of 5 and buckets of 3).
//!
//! ```text
//! let mut tree = Hamt::load(alloc, &base, &root)?;
//! let old = tree.set(&base, key, value)?;
//! let (root, blocks) = tree.flush(&base)?;        // the new root, and the nodes that the base does not hold
//! ```
#![tactic(auto)]

mod bit_field;
mod buckets;
mod finding;
mod hamt;
mod hashed;
mod kept_bucket;
mod laws;
mod leaf;
mod loading;
mod loading_law;
mod node_form;
mod nodes;
mod once;
mod pairs;
mod pointers;
mod rebuilding;
mod runs;
mod state_fault;
mod state_value;
mod stepping;

pub use hamt::Hamt;
pub use laws::{one_map, one_order};
pub use loading_law::loaded_again;
pub use state_fault::StateFault;
pub use state_value::value_under;
pub use tree_blocks::TreeFault as HamtFault;

#[cfg(test)]
mod finding_tests;
#[cfg(test)]
mod load_tests;
#[cfg(test)]
mod rebuild_tests;
#[cfg(test)]
mod tests;
