ghost use Rattle.std.specs.Prelude.{◌≡◌, ◌++◌, ◌<◌, ◌≤◌, ◌^◌, ℕ, List, MatchResult, OnOk, OnErr, length, take};
ghost use Rattle.fil_base.specs.Varint.{varint};
ghost use Rattle.fil_base.specs.VarintFault.{FoundVarint, IsVarintFault};
ghost use Rattle.fil_base.specs.declared.varint.VarintFault.{VarintFault};

use crate::failure::Mem;

/// Why no number is at the front of bytes.
#[derive(Clone, Copy, Debug, PartialEq, Eq)]
pub enum VarintFault {
    /// The bytes end inside the number: fewer than nine, and each has its top bit.
    Cut,

    /// Each of the first nine bytes has its top bit.
    TooLong,

    /// The last byte is zero, and not the only one.
    NotShortest,
}

/// The number below 2^63 at the front of the bytes, and how many bytes spell it (multiformats, "unsigned-varint").
pub fn read_varint(bytes: &[u8]) -> Result<(u64, usize), VarintFault>
    ensures { MatchResult result (λ found. FoundVarint bytes.now found.0 found.1) (IsVarintFault bytes.now) }
{
    let mut number = 0;
    for i in 0..9 {
        if i == bytes.len() {
            return Err(VarintFault::Cut);
        }
        let byte = bytes[i];
        if byte == 0 && i > 0 {
            return Err(VarintFault::NotShortest);
        }
        number += u64::from(byte % 128) << (7 * i);
        if byte < 128 {
            return Ok((number, i + 1));
        }
    }
    Err(VarintFault::TooLong)
}

/// Appends the number, which is below 2^63. Where there is no memory, nothing is appended.
pub fn write_varint(out: &mut Vec<u8>, number: u64) -> Mem<()>
    requires { number < 2 ^ 63 }
    ensures written { OnOk result (out.new.items ≡ out.old.items ++ varint number) }
    ensures unchanged { OnErr result (out.new.items ≡ out.old.items) }
{
    let (bytes, length) = spelled(number);
    out.extend_from_slice(&bytes[..length])?;
    Ok(())
}

// The spelling of the number, and its length.
fn spelled(number: u64) -> ([u8; 9], usize)
    requires { number < 2 ^ 63 }
    ensures fits { result.1 ≤ 9 }
    ensures spelled { take result.1 result.0 ≡ varint number }
{
    let mut bytes = [0; 9];
    let mut length = 0;
    let mut left = number;
    while left >= 128 {
        bytes[length] = (left % 128) as u8 + 128;
        left /= 128;
        length += 1;
    }
    bytes[length] = left as u8;
    (bytes, length + 1)
}

/// A law, with no code: no number's spelling begins another's.
pub fn no_varint_begins_another()
    ensures { (m n : ℕ) (r s : List ℕ) → varint m ++ r ≡ varint n ++ s → (m ≡ n) × (r ≡ s) }
{}

/// A law, with no code: bytes have one fault at most, and no number is at the front of bytes with a fault.
pub fn one_varint_fault()
    ensures one { (bytes : List ℕ) (f g : VarintFault) → IsVarintFault bytes f → IsVarintFault bytes g → f ≡ g }
    ensures no_number { (bytes : List ℕ) (fault : VarintFault) (n : ℕ) (rest : List ℕ) →
        IsVarintFault bytes fault → n < 2 ^ 63 → bytes ≡ varint n ++ rest → ⊥ }
{}

#[cfg(test)]
mod tests {
    use super::*;
    use std::test::Fail;

    #[test]
    fn numbers_are_read(rt: HostRuntime) {
        assert_eq!(rt; read_varint(&[0xa0, 0xe4, 0x02]), Ok((45600, 3)));
        assert_eq!(rt; read_varint(&[0x80]), Err(VarintFault::Cut));
        assert_eq!(rt; read_varint(&[0x80, 0]), Err(VarintFault::NotShortest));
        assert_eq!(rt; read_varint(&[0xff; 9]), Err(VarintFault::TooLong));
    }

    #[test]
    fn numbers_are_written(rt: HostRuntime) -> Result<(), Fail> {
        let mut out = Vec::new(rt.alloc());
        write_varint(&mut out, 45600)?;
        assert_eq!(rt; out.as_slice(), [0xa0u8, 0xe4, 0x02].as_slice());
        Ok(())
    }
}
