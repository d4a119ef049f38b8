//! The actors of a state, by their IDs, as a tree with a canonical root (the Filecoin specification, "State Tree").
//!
//! ```text
//! let mut tree = StateTree::load(alloc, &base, &root, &codes)?;
//! let actor = tree.actor(&base, id)?;
//! tree.put_actor(&base, id, changed)?;
//! let (root, blocks) = tree.flush(&base)?;        // the new root, and the blocks that the base does not hold
//! ```
#![tactic(auto)]

mod actor;
mod changed;
mod key;
mod laws;
mod pairs;
mod record;
mod root;
mod state_tree;

pub use actor::Actor;
pub use laws::one_state;
pub use state_tree::{StateTree, state_blocks};

#[cfg(test)]
mod load_tests;
#[cfg(test)]
mod test_states;
#[cfg(test)]
mod tests;
