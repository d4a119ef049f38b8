use crate::unanswered::{Answer, Unanswered};
use crate::words::{bytes_of, hex_of, text_of};
use fil_address::{from_bytes, parse};
use fil_base::Failure;
use std::alloc::Global;

/// `address B`: the text of the address that the bytes spell.
pub fn address(alloc: Global, bytes: &[u8]) -> Answer {
    let bytes = bytes_of(alloc, bytes)?;
    match from_bytes(&bytes) {
        Ok(address) => {
            let text = address.text(alloc)?;
            Ok(format!(in alloc; "ok {}", text_of(alloc, text.as_slice())?)?)
        }
        Err(fault) => Ok(format!(in alloc; "refused {fault:?}")?),
    }
}

/// `addresstext B`: the bytes of the address of a text, which is given by its bytes.
pub fn address_of_text(alloc: Global, text: &[u8]) -> Answer {
    let text = bytes_of(alloc, text)?;
    match parse(alloc, &text) {
        Ok(address) => {
            let bytes = address.to_bytes(alloc)?;
            Ok(format!(in alloc; "ok {}", hex_of(alloc, bytes.as_slice())?)?)
        }
        Err(Failure::NoMemory) => Err(Unanswered::NoMemory),
        Err(Failure::Fault(fault)) => Ok(format!(in alloc; "refused {fault:?}")?),
    }
}
