//! Blocks and their names: a block is bytes under the CID of their hash (the CID specification; the multihash
//! specification), and a CID has a text in base 32 (the multibase specification).
//!
//! The hashes that are checked are BLAKE2b-256 (RFC 7693; code b220), under which new blocks are named, and SHA2-256
//! (FIPS 180-4; code 12).
//!
//! ```text
//! let block = Block::of(alloc, 0x71, bytes)?;
//! let text = cid_text(alloc, block.cid())?;    // bafy2bza..
//! let cid = parse_cid(alloc, text.as_slice())?;
//! // blocks.find(&cid) is the first block under that CID
//! ```
#![tactic(auto)]

mod block;
mod hash;
mod source;
mod text;

pub use block::{Block, BlockFault};
pub use hash::cid_of;
pub use source::BlockSource;
pub use text::{CidTextFault, cid_text, one_cid_text, parse_cid};
