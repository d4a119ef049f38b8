//! DAG-CBOR (RFC 8949 and the IPLD DAG-CBOR specification) without floating-point numbers: heads are shortest,
//! lengths definite, maps by rising text keys, tag 42 the only tag, and nesting is at most 128.
//!
//! ```text
//! let value = decode(alloc, &[0x82, 0x01, 0x40])?;
//! // value is a list of the integer 1 and no bytes
//! let front = split_item(MAX_DEPTH, &[0x82, 0x01, 0x40, 0xf6]);
//! // front is the first three bytes, which spell that value, and the byte that is left
//! ```
#![tactic(auto)]

mod decoding;
mod encoding;
mod fault;
mod frame;
mod front;
mod head;
mod item_texts;
mod key;
mod laws;
mod link;
mod link_form;
mod link_list;
mod nested;
mod partial;
mod plain;
mod rows;
mod short_item;
mod skipping;
mod text;
mod token;
mod usual_link;
mod value;
mod writing;

pub use decoding::{MAX_DEPTH, decode};
pub use encoding::encode;
pub use fault::{CborFault, CborKind};
pub use front::{blob, list_head, split_item};
pub use item_texts::items_in;
pub use laws::{one_fault, one_spelling};
pub use link_list::{links, links_in};
pub use plain::{is_plain, is_plain_within};
pub use value::Value;
pub use writing::{put_head, put_link, put_string};

#[cfg(test)]
mod encode_tests;
#[cfg(test)]
mod front_tests;
#[cfg(test)]
mod tests;
