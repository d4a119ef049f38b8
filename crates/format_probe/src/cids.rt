use crate::unanswered::{Answer, Unanswered};
use crate::words::{bytes_of, hex_of, hex_of_cid, number_in, text_of};
use cid_core::{cid_of, cid_text, parse_cid};
use fil_base::{Base32Fault, Cid, Failure, base32_read, base32_text, read_cid};
use std::alloc::Global;

/// `cid B`: the CID at the front of the bytes.
pub fn cid(alloc: Global, bytes: &[u8]) -> Answer {
    let bytes = bytes_of(alloc, bytes)?;
    match read_cid(alloc, &bytes) {
        Ok((cid, length)) => parts_of_cid(alloc, &cid, length),
        Err(Failure::NoMemory) => Err(Unanswered::NoMemory),
        Err(Failure::Fault(fault)) => Ok(format!(in alloc; "refused {fault:?}")?),
    }
}

fn parts_of_cid(alloc: Global, cid: &Cid, length: usize) -> Answer {
    let (version, codec, hash) = (cid.version(), cid.codec(), cid.hash());
    let digest = hex_of(alloc, cid.digest())?;
    let text = if version == 1 {
        text_of(alloc, cid_text(alloc, cid)?.as_slice())?
    } else {
        format!(in alloc; "-")?
    };
    Ok(format!(in alloc; "ok {length} {version} {codec} {hash} {digest} {text}")?)
}

/// `cidtext B`: the CID of a text, which is given by its bytes.
pub fn cid_of_text(alloc: Global, text: &[u8]) -> Answer {
    let text = bytes_of(alloc, text)?;
    match parse_cid(alloc, &text) {
        Ok(cid) => Ok(format!(in alloc; "ok {}", hex_of_cid(alloc, &cid)?)?),
        Err(Failure::NoMemory) => Err(Unanswered::NoMemory),
        Err(Failure::Fault(fault)) => Ok(format!(in alloc; "refused {fault:?}")?),
    }
}

/// `cidof CODEC B`: the text of the CID of the bytes.
pub fn cid_of_bytes(alloc: Global, codec: &[u8], bytes: &[u8]) -> Answer {
    let codec = number_in(codec, 0, (1 << 63) - 1)?;
    let bytes = bytes_of(alloc, bytes)?;
    let cid = cid_of(alloc, codec, &bytes)?;
    if cid.version() != 1 {
        return Err(Unanswered::BadLine);
    }
    text_of(alloc, cid_text(alloc, &cid)?.as_slice())
}

/// `base32 B`: the bytes in base 32.
pub fn base32(alloc: Global, bytes: &[u8]) -> Answer {
    let bytes = bytes_of(alloc, bytes)?;
    text_of(alloc, base32_text(alloc, &bytes)?.as_slice())
}

/// `unbase32 B`: the bytes of a text in base 32, which is given by its bytes.
pub fn bytes_of_base32(alloc: Global, text: &[u8]) -> Answer {
    let text = bytes_of(alloc, text)?;
    match base32_read(alloc, &text) {
        Ok(bytes) => Ok(format!(in alloc; "ok {}", hex_of(alloc, bytes.as_slice())?)?),
        Err(Failure::NoMemory) => Err(Unanswered::NoMemory),
        Err(Failure::Fault(Base32Fault::Letter(at))) => {
            Ok(format!(in alloc; "refused Letter {at}")?)
        }
        Err(Failure::Fault(fault)) => Ok(format!(in alloc; "refused {fault:?}")?),
    }
}
