use crate::unanswered::Answer;
use crate::words::{bytes_of, hex_of, number_in};
use fil_base::{read_varint, write_varint};
use std::alloc::Global;

/// `varint B`: the number at the front of the bytes, and its length.
pub fn varint(alloc: Global, bytes: &[u8]) -> Answer {
    let bytes = bytes_of(alloc, bytes)?;
    match read_varint(&bytes) {
        Ok((number, length)) => Ok(format!(in alloc; "ok {number} {length}")?),
        Err(fault) => Ok(format!(in alloc; "refused {fault:?}")?),
    }
}

/// `varintof N`: the bytes of a number below 2^63.
pub fn varint_of(alloc: Global, number: &[u8]) -> Answer {
    let number = number_in(number, 0, (1 << 63) - 1)?;
    let mut bytes = Vec::new(alloc);
    write_varint(&mut bytes, number)?;
    Ok(hex_of(alloc, &bytes)?)
}
