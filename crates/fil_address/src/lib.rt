//! Addresses of actors (the Filecoin specification, "Address"), as bytes and as text.
//!
//! ```text
//! let address = from_bytes(&[0x00, 0x80, 0x08])?;     // the ID 1024
//! let text = address.text(alloc)?;                    // f01024
//! let same = parse(alloc, b"t01024")?;
//! ```
#![tactic(auto)]

mod address;
mod checksum;
mod fault;
mod laws;
mod parsing;
mod reading;
#[cfg(test)]
mod tests;
mod writing;

pub use address::Address;
pub use fault::AddressFault;
pub use laws::{one_address, one_address_text};
pub use parsing::parse;
pub use reading::from_bytes;
