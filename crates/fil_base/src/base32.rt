ghost use Rattle.std.specs.Prelude.{◌≡◌, ◌<◌, ◌≤◌, ◌^◌, ◌*◌, ◌↔◌, ℕ, List, All, IfErr, IfOk, IsTrue, OnOk, length, map};
ghost use Rattle.std.specs.Option.{SomeIff};
ghost use Rattle.std.specs.Int.Digits.{number_from_digits};
ghost use Rattle.fil_base.specs.Base32.{IsBadLength, IsBase32Fault, IsLetter, base32, digits_in, letter, letters_for, spare_bits, value_of};
ghost use Rattle.fil_base.specs.Failure.{IfFault};
ghost use Rattle.fil_base.specs.Regroup.{Regroups};
ghost use Rattle.fil_base.specs.declared.base32.Base32Fault.{Base32Fault};
ghost use Rattle.fil_base.specs.declared.failure.Failure.TheVariants.{Fault};

use crate::bytes::Bytes;
use crate::failure::{Failure, Mem};
use std::alloc::Global;

mod regroup;

use regroup::{Pending, regrouped};

/// Why a text is none of bytes, in the order in which it is judged.
#[derive(Clone, Copy, Debug, PartialEq, Eq)]
pub enum Base32Fault {
    /// No bytes have so many letters: their count modulo 8 is 1, 3 or 6.
    Length,

    /// The first character that is none of `a` to `z` and `2` to `7` is at this place.
    Letter(usize),

    /// The bits of the last letter that no byte fills are not all zero.
    Spare,
}

impl From<Base32Fault> for Failure<Base32Fault> {
    ghost from_gives = { λ fault failure. failure ≡ Fault fault };

    fn from(fault: Base32Fault) -> Failure<Base32Fault> {
        Failure::Fault(fault)
    }
}

/// The text of the bytes in base 32 (RFC 4648, section 6), in lower case and without padding.
pub fn base32_text(alloc: Global, bytes: &[u8]) -> Mem<Bytes>
    ensures { IfOk result (λ text. text ≡ base32 bytes.now) }
{
    let (mut groups, pending) = regrouped(alloc, bytes, 8, 5)?;
    fill_last(&mut groups, pending)?;
    spell(&mut groups);
    Ok(Bytes::of(groups))
}

// Appends the bits that fill no group of five, if there are some, with zeros behind them.
fn fill_last(groups: &mut Vec<u8>, pending: Pending) -> Mem<()>
    requires few { pending.count < 5 }
    requires fits { pending.bits < 2 ^ pending.count }
    ensures { OnOk result ((n len : ℕ) →
        Regroups n (8 * len) 5 groups.old.items pending.bits pending.count →
        groups.new.items ≡ digits_in 32 (letters_for len) (n * 2 ^ spare_bits len)) }
{
    if pending.count == 0 {
        return Ok(());
    }
    groups.push((pending.bits << (5 - pending.count)) as u8)?;
    Ok(())
}

// The letters of the groups of five bits, in their place.
fn spell(groups: &mut Vec<u8>)
    requires { All (λ group. group < 32) groups.old.items }
    ensures { groups.new.items ≡ map letter groups.old.items }
{
    for group in groups.iter_mut() {
        *group = letter_of(*group);
    }
}

fn letter_of(group: u8) -> u8
    requires { group < 32 }
    ensures { result ≡ letter group }
{
    if group < 26 { group + 97 } else { group + 24 }
}

/// The bytes whose text in base 32 this is.
pub fn base32_read(alloc: Global, text: &[u8]) -> Result<Bytes, Failure<Base32Fault>>
    ensures found { IfOk result (λ bytes. base32 bytes ≡ text.now) }
    ensures fault { IfErr result (λ failure. IfFault failure (IsBase32Fault text.now)) }
{
    if is_bad_length(text.len()) {
        return Err(Failure::Fault(Base32Fault::Length));
    }
    let values = values_of(alloc, text)?;
    let (bytes, pending) = regrouped(alloc, &values, 5, 8)?;
    let spare = pending.bits;
    if spare != 0 {
        return Err(Failure::Fault(Base32Fault::Spare));
    }
    Ok(Bytes::of(bytes))
}

fn is_bad_length(length: usize) -> bool
    ensures { IsTrue result ↔ IsBadLength length }
{
    matches!(length % 8, 1 | 3 | 6)
}

// The five bits of each letter.
fn values_of(alloc: Global, text: &[u8]) -> Result<Vec<u8>, Failure<Base32Fault>>
    requires { IsBadLength (length text.now) → ⊥ }
    ensures values { IfOk result (λ values. values.items ≡ map value_of text.now) }
    ensures letters { IfOk result (λ _. All IsLetter text.now) }
    ensures fault { IfErr result (λ failure. IfFault failure (IsBase32Fault text.now)) }
{
    let mut values = Vec::new(alloc);
    for (i, character) in text.iter().enumerate() {
        let Some(value) = value_of_letter(*character) else {
            return Err(Failure::Fault(Base32Fault::Letter(i)));
        };
        values.push(value)?;
    }
    Ok(values)
}

fn value_of_letter(character: u8) -> Option<u8>
    ensures { SomeIff result (IsLetter character) (value_of character) }
{
    match character {
        b'a'..=b'z' => Some(character - b'a'),
        b'2'..=b'7' => Some(character - 24),
        _ => None,
    }
}

/// A law, with no code: bytes have a text of their own, and it is not refused.
pub fn one_base32_text()
    ensures one { (a b : List ℕ) → All (λ byte. byte < 256) a → All (λ byte. byte < 256) b →
        base32 a ≡ base32 b → a ≡ b }
    ensures accepted { (bytes : List ℕ) (fault : Base32Fault) → All (λ byte. byte < 256) bytes →
        IsBase32Fault (base32 bytes) fault → ⊥ }
{}

#[cfg(test)]
mod tests {
    use super::*;
    use std::test::Fail;

    #[test]
    fn texts_are_written_and_read(rt: HostRuntime) -> Result<(), Fail> {
        let text = base32_text(rt.alloc(), &[0])?;
        assert_eq!(rt; text.as_slice(), b"aa".as_slice());
        let foobar = base32_text(rt.alloc(), b"foobar")?;
        assert_eq!(rt; foobar.as_slice(), b"mzxw6ytboi".as_slice());
        let bytes = base32_read(rt.alloc(), b"mzxw6ytboi")?;
        assert_eq!(rt; bytes.as_slice(), b"foobar".as_slice());
        Ok(())
    }

    #[test]
    fn faulty_texts_are_refused(rt: HostRuntime) {
        let length = base32_read(rt.alloc(), b"a").err();
        assert_eq!(rt; length, Some(Failure::Fault(Base32Fault::Length)));
        let letter = base32_read(rt.alloc(), b"a1").err();
        assert_eq!(rt; letter, Some(Failure::Fault(Base32Fault::Letter(1))));
        let spare = base32_read(rt.alloc(), b"ab").err();
        assert_eq!(rt; spare, Some(Failure::Fault(Base32Fault::Spare)));
    }
}
