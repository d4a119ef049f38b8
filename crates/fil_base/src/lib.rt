//! The ground types of the machine: bytes and rows, actor IDs, amounts of tokens and of gas, content identifiers,
//! exit codes and error numbers, and how a call says that there was no memory.
//!
//! - An amount is spelled as Filecoin spells its big integers (Filecoin specification, "Token amounts"): nothing for
//!   zero, else a sign byte `00` and the magnitude.
//! - Numbers of varying length are those of the multiformats specification, "unsigned-varint", below 2^63.
//! - A content identifier is a CID of version 0 or 1 (the CID specification; the multihash specification).
//! - Texts of bytes are in base 32, in lower case and without padding (RFC 4648, section 6).
//!
//! ```text
//! let amount = token_of(&[0x00, 0x0a])?;
//! // amount.number() is 10
//! let (cid, length) = read_cid(alloc, bytes)?;
//! // the first `length` bytes are what write_cid(&mut out, &cid) appends
//! ```
#![tactic(auto)]

mod actor_id;
mod amount;
mod base32;
mod bytes;
mod cid;
mod err_no;
mod exit_code;
mod failure;
mod gas;
mod row;
mod token;
mod varint;

pub use actor_id::ActorId;
pub use amount::{TokenFault, one_spelling_of_an_amount, token_bytes, token_of};
pub use base32::{Base32Fault, base32_read, base32_text, one_base32_text};
pub use bytes::Bytes;
pub use cid::{Cid, CidFault, no_cid_begins_another, one_cid_fault, read_cid, write_cid};
pub use err_no::ErrNo;
pub use exit_code::{
    EXIT_OK, ExitCode, SYS_INSUFFICIENT_FUNDS, SYS_INVALID_RECEIVER, SYS_SENDER_INVALID,
    SYS_SENDER_STATE_INVALID,
};
pub use failure::{Failure, Mem, NoMemory};
pub use gas::Gas;
pub use row::Row;
pub use token::{GREATEST_AMOUNT, Token};
pub use varint::{
    VarintFault, no_varint_begins_another, one_varint_fault, read_varint, write_varint,
};

#[cfg(test)]
mod tests {
    use super::*;
    use std::test::Fail;

    #[test]
    fn rows_and_bytes_give_back_what_they_hold(rt: HostRuntime) -> Result<(), Fail> {
        let row = Row::of(vec![in rt.alloc(); 3u64, 1]?);
        assert_eq!(rt; row.as_slice(), [3u64, 1].as_slice());
        assert_eq!(rt; row.into_vec().as_slice(), [3u64, 1].as_slice());
        let bytes = Bytes::of(vec![in rt.alloc(); 7u8, 0]?);
        assert_eq!(rt; bytes.as_slice(), [7u8, 0].as_slice());
        assert_eq!(rt; bytes.into_vec().as_slice(), [7u8, 0].as_slice());
        assert_eq!(rt; ExitCode::new(6).number(), 6);
        assert_eq!(rt; Gas::new(9).number(), 9);
        assert_eq!(rt; ErrNo::ReadOnly.number(), 13);
        Ok(())
    }
}
