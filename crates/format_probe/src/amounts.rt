use crate::unanswered::{Answer, Unanswered};
use crate::words::{bytes_of, hex_of, number_of};
use fil_base::{Token, token_bytes, token_of};
use std::alloc::Global;

/// `amount B`: the amount that the bytes spell.
pub fn amount(alloc: Global, bytes: &[u8]) -> Answer {
    let bytes = bytes_of(alloc, bytes)?;
    match token_of(&bytes) {
        Ok(amount) => Ok(format!(in alloc; "ok {}", amount.number())?),
        Err(fault) => Ok(format!(in alloc; "refused {fault:?}")?),
    }
}

/// `amountof N`: the bytes of an amount.
pub fn amount_of(alloc: Global, number: &[u8]) -> Answer {
    let Some(amount) = Token::new(number_of(number)?) else {
        return Err(Unanswered::BadLine);
    };
    let bytes = token_bytes(alloc, amount)?;
    Ok(hex_of(alloc, bytes.as_slice())?)
}
