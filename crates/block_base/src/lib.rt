//! The loaded blocks of one file, found by their CID, with the DAG-CBOR block of the empty list among them.
//!
//! ```text
//! let base = Base::of(alloc, blocks)?;
//! let state = base.find(&root);    // the first block under that CID
//! ```
#![tactic(auto)]

mod base;
mod index;
mod name;

pub use base::Base;

#[cfg(test)]
mod tests;
