//! What trees of blocks share: which nodes are new to a base, what a value is as a part of a node, and the first fault
//! of a walk over nodes.
//!
//! ```text
//! let mut new = new_of(alloc, &base, nodes)?.into_vec();       // those that the base does not hold, each CID once
//! put_new(&base, &mut new, root)?;                             // and one more
//! ```
#![tactic(auto)]

mod appending;
mod fault;
mod forms;
mod new_blocks;
mod no_blocks;

pub use appending::put_new;
pub use fault::TreeFault;
pub use forms::{bytes_in, items_in, set_bits};
pub use new_blocks::new_of;
pub use no_blocks::NoBlocks;
