//! Messages, receipts and tipsets (the Filecoin specification, "Messages", "Receipts", "Tipset"), and account lists, read
//! from values of DAG-CBOR and written as them.
//!
//! ```text
//! let message = read_message(alloc, &value)?;
//! let bytes = message_bytes(alloc, &message)?;
//! ```
#![tactic(auto)]

mod codec;
mod fields;
mod form0;
mod form0_codec;
mod form_fault;
mod laws;
mod lengths;
mod message;
mod message_fault;
mod receipt;
mod tipset;

pub use codec::{message_bytes, read_message, receipt_bytes};
pub use fields::{id_at, items_at, just_at, number_at};
pub use form_fault::FormFault;
pub use form0::{Form0, Form0Actor, Form0Message, Form0Report};
pub use form0_codec::read_form0;
pub use laws::{account_lists_are_read_back, messages_are_read_back};
pub use lengths::message_len;
pub use message::Message;
pub use message_fault::MessageFault;
pub use receipt::{Receipt, ReceiptLine};
pub use tipset::{Report, TipBlock, Tipset};

#[cfg(test)]
mod form0_tests;
#[cfg(test)]
mod tests;
