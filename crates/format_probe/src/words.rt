ghost use Rattle.std.specs.Prelude.{◌≤◌, IfOk};

use crate::unanswered::Unanswered;
use fil_base::{Cid, write_cid};
use hex::FromHexError;
use std::alloc::{AllocError, Global};

/// The bytes that a word gives in lower-case hex, `-` for none.
pub fn bytes_of(alloc: Global, word: &[u8]) -> Result<Vec<u8>, Unanswered> {
    if word == b"-".as_slice() {
        return Ok(Vec::new(alloc));
    }
    if word.is_empty() || word.iter().any(|character| character.is_ascii_uppercase()) {
        return Err(Unanswered::BadLine);
    }
    match hex::decode(alloc, word) {
        Ok(bytes) => Ok(bytes),
        Err(FromHexError::OutOfMemory) => Err(Unanswered::NoMemory),
        Err(_) => Err(Unanswered::BadLine),
    }
}

/// The number that a word gives in decimal, without leading zeros.
pub fn number_of(word: &[u8]) -> Result<u128, Unanswered> {
    let is_decimal = word.iter().all(|character| character.is_ascii_digit());
    if !is_decimal || (word.len() > 1 && word[0] == b'0') {
        return Err(Unanswered::BadLine);
    }
    let Ok(text) = str::from_utf8(word) else {
        return Err(Unanswered::BadLine);
    };
    match text.parse::<u128>() {
        Ok(number) => Ok(number),
        Err(_) => Err(Unanswered::BadLine),
    }
}

/// A number from the least to the greatest.
pub fn number_in(word: &[u8], least: u64, greatest: u64) -> Result<u64, Unanswered>
    ensures least { IfOk result (λ number. least ≤ number) }
    ensures greatest { IfOk result (λ number. number ≤ greatest) }
{
    let number = number_of(word)?;
    if number < least as u128 || number > greatest as u128 {
        return Err(Unanswered::BadLine);
    }
    Ok(number as u64)
}

/// The bytes in lower-case hex, `-` for none.
pub fn hex_of(alloc: Global, bytes: &[u8]) -> Result<String, AllocError> {
    if bytes.is_empty() {
        return format!(in alloc; "-");
    }
    hex::encode(alloc, bytes)
}

/// The bytes of a CID in hex.
pub fn hex_of_cid(alloc: Global, cid: &Cid) -> Result<String, Unanswered> {
    let mut bytes = Vec::new(alloc);
    write_cid(&mut bytes, cid)?;
    Ok(hex_of(alloc, &bytes)?)
}

/// A text in base 32, `-` for an empty one.
pub fn text_of(alloc: Global, text: &[u8]) -> Result<String, Unanswered> {
    if text.is_empty() {
        return Ok(format!(in alloc; "-")?);
    }
    match str::from_utf8(text) {
        Ok(text) => Ok(format!(in alloc; "{text}")?),
        Err(_) => Err(Unanswered::BadLine),
    }
}
