//! What a message pays for its gas (Filecoin specification, "Gas Fees"; ref-fvm, "gas outputs"): what is burned for
//! the gas used and for a gas limit that was set too high, what the miner gets and owes, and what the sender gets
//! back.
//!
//! ```text
//! // used 500 of a gas limit of 1,000; base fee 10, fee cap 20, gas premium 5
//! let fees = outputs(used, limit, base, cap, premium);
//! // fees.base_burn is 5,000, fees.over_burn 4,500, fees.tip 5,000 and fees.refund 5,500
//! ```
#![tactic(auto)]

mod fees;

pub use fees::{BLOCK_GAS_LIMIT, Fees, outputs};

#[cfg(test)]
mod tests;
