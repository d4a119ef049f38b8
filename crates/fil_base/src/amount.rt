ghost use Rattle.std.specs.Prelude.{◌≡◌, ◌∷◌, ◌<◌, ◌≤◌, ℕ, List, IfOk, MatchResult, drop, length, slice_index};
ghost use Rattle.std.specs.Int.Digits.{digits_of, number_from_digits};
ghost use Rattle.fil_base.specs.Amount.{amount, IsTokenFault};
ghost use Rattle.fil_base.specs.declared.token.TheConstants.{GREATEST_AMOUNT};
ghost use Rattle.fil_base.specs.declared.amount.TokenFault.{TokenFault};

use crate::bytes::Bytes;
use crate::failure::Mem;
use crate::token::Token;
use std::alloc::Global;

/// Why bytes are no amount, in the order in which it is judged.
#[derive(Clone, Copy, Debug, PartialEq, Eq)]
pub enum TokenFault {
    /// The first byte is not the sign `00`.
    Sign,

    /// The magnitude is missing, or begins with a zero.
    Zeros,

    /// The amount is above 2*10^27.
    TooGreat,
}

/// The amount that the bytes spell, all of them.
pub fn token_of(bytes: &[u8]) -> Result<Token, TokenFault>
    ensures { MatchResult result (λ t. bytes.now ≡ amount t) (IsTokenFault bytes.now) }
{
    match bytes {
        [] => Ok(Token::zero()),
        [0] => Err(TokenFault::Zeros),
        [0, 0, ..] => Err(TokenFault::Zeros),
        [0, magnitude @ ..] => token_of_magnitude(magnitude),
        _ => Err(TokenFault::Sign),
    }
}

// The amount of this magnitude, which has no leading zero.
fn token_of_magnitude(magnitude: &[u8]) -> Result<Token, TokenFault>
    requires { 0 < slice_index magnitude.now 0 }
    ensures { MatchResult result (λ t. 0 ∷ magnitude.now ≡ amount t) (IsTokenFault (0 ∷ magnitude.now)) }
{
    // 2*10^27 has twelve bytes.
    if magnitude.len() > 12 {
        return Err(TokenFault::TooGreat);
    }
    Token::new(big_endian(magnitude)).ok_or(TokenFault::TooGreat)
}

fn big_endian(bytes: &[u8]) -> u128
    requires { length bytes.now ≤ 12 }
    ensures { result ≡ number_from_digits 256 bytes.now }
{
    let mut number = 0;
    for byte in bytes {
        number = number * 256 + u128::from(*byte);
    }
    number
}

/// The spelling of the amount.
pub fn token_bytes(alloc: Global, token: Token) -> Mem<Bytes>
    ensures { IfOk result (λ bytes. bytes ≡ amount token) }
{
    let mut out = Vec::new(alloc);
    let number = token.number();
    if number == 0 {
        return Ok(Bytes::of(out));
    }
    let (bytes, start) = magnitude(number);
    out.push(0)?;
    out.extend_from_slice(&bytes[start..])?;
    Ok(Bytes::of(out))
}

// The big-endian digits of the number stand at the end of the bytes, from the place that is given.
fn magnitude(number: u128) -> ([u8; 12], usize)
    requires { number ≤ GREATEST_AMOUNT }
    ensures fits { result.1 ≤ 12 }
    ensures digits { drop result.1 result.0 ≡ digits_of 256 number }
{
    let mut bytes = [0; 12];
    let mut start = 12;
    let mut left = number;
    while left > 0 {
        start -= 1;
        bytes[start] = (left % 256) as u8;
        left /= 256;
    }
    (bytes, start)
}

/// A law, with no code: each amount has one spelling, and what is refused spells none that a token can have.
pub fn one_spelling_of_an_amount()
    ensures one { (m n : ℕ) → amount m ≡ amount n → m ≡ n }
    ensures refused { (bytes : List ℕ) (fault : TokenFault) (n : ℕ) →
        IsTokenFault bytes fault → n ≤ GREATEST_AMOUNT → bytes ≡ amount n → ⊥ }
{}

#[cfg(test)]
mod tests {
    use super::*;
    use std::test::Fail;

    #[test]
    fn amounts_are_read(rt: HostRuntime) {
        let greatest = [0, 6, 0x76, 0x5c, 0x79, 0x3f, 0xa1, 0, 0x79, 0xd0, 0, 0, 0];
        let above = [0, 6, 0x76, 0x5c, 0x79, 0x3f, 0xa1, 0, 0x79, 0xd0, 0, 0, 1];
        let number = |bytes: &[u8]| token_of(bytes).map(|amount| amount.number());
        assert_eq!(rt; number(&[]), Ok(0));
        assert_eq!(rt; number(&[0, 10]), Ok(10));
        assert_eq!(rt;
            number(&greatest),
            Ok(2_000_000_000_000_000_000_000_000_000)
        );
        assert_eq!(rt; number(&above), Err(TokenFault::TooGreat));
        assert_eq!(rt; number(&[0, 0, 5]), Err(TokenFault::Zeros));
        assert_eq!(rt; number(&[0]), Err(TokenFault::Zeros));
        assert_eq!(rt; number(&[1, 5]), Err(TokenFault::Sign));
    }

    #[test]
    fn amounts_are_written(rt: HostRuntime) -> Result<(), Fail> {
        let greatest = [0u8, 6, 0x76, 0x5c, 0x79, 0x3f, 0xa1, 0, 0x79, 0xd0, 0, 0, 0];
        let none = token_bytes(rt.alloc(), Token::zero())?;
        assert!(rt; none.as_slice().is_empty());
        let ten = token_bytes(rt.alloc(), Token::new(10).ok_or(TokenFault::TooGreat)?)?;
        assert_eq!(rt; ten.as_slice(), [0u8, 10].as_slice());
        let most = Token::new(2_000_000_000_000_000_000_000_000_000).ok_or(TokenFault::TooGreat)?;
        let all = token_bytes(rt.alloc(), most)?;
        assert_eq!(rt; all.as_slice(), greatest.as_slice());
        Ok(())
    }
}
