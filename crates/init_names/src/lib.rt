//! The names of actors, which the state of the init actor keeps: which address names which ID, and which ID comes next
//! (the Filecoin specification, "Init Actor").
//!
//! ```text
//! let mut names = Names::load(alloc, &base, &head)?;
//! let id = names.resolve(&base, &address)?;
//! let made = names.assign(&base, &address)?;
//! let (head, blocks) = names.flush(&base)?;       // the new head, and the blocks that the base does not hold
//! ```
#![tactic(auto)]

mod fields;
mod name;
mod names;
mod names_tree;
mod network;
mod state_block;
#[cfg(test)]
mod tests;

pub use names::{Names, init_blocks};
