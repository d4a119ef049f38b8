//! What execution costs: the prices of a machine, the meter that a message's gas is taken from, and the rules that
//! messages run under (Filecoin specification, "Gas"; ref-fvm, "price list").
//!
//! ```text
//! let prices = PriceList::from_list(&numbers)?;
//! let mut meter = Meter::new(limit);
//! meter.charge(prices.of(Price::Call))?;
//! ```
#![tactic(auto)]

mod meter;
mod price;
mod price_fault;
mod price_list;
mod rules;

pub use meter::{Meter, OutOfGas};
pub use price::{GREATEST_PRICE, PRICE_COUNT, Price};
pub use price_fault::{PriceFault, one_price_fault};
pub use price_list::PriceList;
pub use rules::{Codes, Rules};

#[cfg(test)]
mod tests;
