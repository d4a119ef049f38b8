use crate::unanswered::{Answer, Unanswered};
use crate::words::{bytes_of, hex_of, hex_of_cid};
use dag_cbor::{CborFault, decode, encode, links};
use fil_base::Failure;
use std::alloc::Global;

/// `cbor B`: the spelling of the value that the bytes spell.
pub fn cbor(alloc: Global, bytes: &[u8]) -> Answer {
    let bytes = bytes_of(alloc, bytes)?;
    match decode(alloc, &bytes) {
        Ok(value) => {
            let spelling = encode(alloc, &value)?;
            Ok(format!(in alloc; "ok {}", hex_of(alloc, spelling.as_slice())?)?)
        }
        Err(failure) => refused(alloc, failure),
    }
}

/// `links B`: the links in the value that the bytes spell.
pub fn links_of(alloc: Global, bytes: &[u8]) -> Answer {
    let bytes = bytes_of(alloc, bytes)?;
    match links(alloc, &bytes) {
        Ok(links) => {
            let mut text = format!(in alloc; "ok")?;
            for link in links.as_slice() {
                text.push(' ')?;
                text.push_str(&hex_of_cid(alloc, link)?)?;
            }
            Ok(text)
        }
        Err(failure) => refused(alloc, failure),
    }
}

fn refused(alloc: Global, failure: Failure<CborFault>) -> Answer {
    match failure {
        Failure::NoMemory => Err(Unanswered::NoMemory),
        Failure::Fault(fault) => Ok(format!(in alloc; "refused {:?} {}", fault.kind, fault.at)?),
    }
}
