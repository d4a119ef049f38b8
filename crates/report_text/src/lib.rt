//! The texts of reports: on tipsets, and on account lists.
//!
//! ```text
//! let text = text(alloc, &reports)?;
//! ```
#![tactic(auto)]

mod account_list;
mod pieces;
mod reports;

pub use account_list::form0_text;
pub use reports::{put_report, text};

#[cfg(test)]
mod tests;
