//! The state that messages run over, as one record of finite maps, and the state under a root (the Filecoin
//! specification, "State Tree"). The definitions stand in `specs/`; the code that keeps a state stands in `state_tree`
//! and `init_names`, and what flushes both stands here.
//!
//! ```text
//! let (root, blocks) = flush_state(&base, &mut tree, &mut names)?;
//! ```
#![tactic(auto)]

mod flushing;
mod laws;

pub use flushing::{flush_state, put_all_new};
pub use laws::a_flushed_state_loads;

#[cfg(test)]
mod tests;
