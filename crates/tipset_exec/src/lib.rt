//! Running messages: those of a tipset, each with its gas and fees, over the state under the tipset's root; and those of
//! account lists, which move tokens between actors.
//!
//! ```text
//! let (report, blocks) = evaluate_alone(alloc, &base, &rules, &tipset)?;
//! let opening = OpeningState::load(alloc, &base, &tipset.root, &rules.codes)?;    // loaded once, for many tipsets
//! let (report, blocks) = evaluate_from(alloc, &base, &rules, &tipset, &opening)?;
//! let report = run_form0(alloc, &form)?;
//! ```
#![tactic(auto)]

mod built;
mod call;
mod cost;
mod evaluation;
mod exit;
mod ledger;
mod message;
mod opening_state;
mod receipts;
mod running;
mod sender;
mod tipset;

pub use built::{built_over_any_state, is_built, is_built_from};
pub use evaluation::{evaluate_alone, evaluate_from};
pub use exit::SYS_OUT_OF_GAS;
pub use opening_state::OpeningState;
pub use running::run_form0;
