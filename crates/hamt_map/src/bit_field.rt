ghost use Rattle.std.specs.Prelude.{◌≡◌, ◌≤◌, ◌++◌, IfOk, OnOk, length, nat_eq};
ghost use Rattle.std.specs.Cmp.Lexicographic.{pointwise};
ghost use Rattle.std.specs.Int.Digits.{digits_of};

use fil_base::Mem;
use std::alloc::Global;

/// Whether bytes are those of a number, big-endian and without leading zeros.
pub(crate) fn is_bit_field(alloc: Global, number: u64, bytes: &[u8]) -> Mem<bool>
    ensures { IfOk result (λ same. same ≡ pointwise nat_eq (digits_of 256 number) bytes.now) }
{
    let mut digits = Vec::new(alloc);
    put_number(&mut digits, number)?;
    Ok(digits.as_slice() == bytes)
}

/// Writes a number's bytes, big-endian and without leading zeros.
pub(crate) fn put_number(out: &mut Vec<u8>, number: u64) -> Mem<()>
    ensures { OnOk result (out.new.items ≡ out.old.items ++ digits_of 256 number) }
{
    if number == 0 {
        return Ok(());
    }
    put_number(out, number / 256)?;
    out.push((number % 256) as u8)?;
    Ok(())
}

/// How many bytes these are.
pub(crate) fn digit_count(number: u64) -> u64
    ensures count { result ≡ length (digits_of 256 number) }
    ensures few { result ≤ 8 }
{
    if number == 0 {
        0
    } else {
        digit_count(number / 256) + 1
    }
}
