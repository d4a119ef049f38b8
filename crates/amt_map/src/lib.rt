//! Array mapped tries: sparse lists of DAG-CBOR values with canonical roots, after Filecoin's AMT with eight ways.
//!
//! ```text
//! let mut list = Amt::load(alloc, &base, &root)?;
//! let old = list.set(&base, index, value)?;
//! let (root, blocks) = list.flush(&base)?;        // the new root, and the nodes that the base does not hold
//! ```
#![tactic(auto)]

mod amt;
mod judging;
mod laws;
mod loading;
mod loading_law;
mod node_form;
mod nodes;
mod pairs;
mod runs;
mod slots;
mod value_bytes;

pub use amt::Amt;
pub use laws::{one_map, one_order};
pub use loading_law::loaded_again;
pub use tree_blocks::TreeFault as AmtFault;

#[cfg(test)]
mod load_tests;
#[cfg(test)]
mod tests;
