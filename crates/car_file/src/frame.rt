// Bytes behind their length: how the header and the sections stand in an archive.

ghost use Rattle.std.specs.Prelude.{◌≡◌, ◌++◌, ◌<◌, ◌^◌, ℕ, List, [], IfErr, IfOk, OnOk, length, take};
ghost use Rattle.fil_base.specs.Varint.{varint};
ghost use Rattle.car_file.specs.CarFault.{IsCut, IsFramed};
ghost use Rattle.car_file.specs.Frame.{HasNothingBehind, IsFrameFault};

use fil_base::{Mem, VarintFault, read_varint};

/// Why no bytes stand at the front behind their length.
#[derive(Clone, Copy, Debug, PartialEq, Eq)]
pub(crate) enum FrameFault {
    /// The bytes end before them.
    Cut,

    /// The length is not in its one spelling.
    BadLength,
}

/// The bytes at the front behind their length, and what follows them.
pub(crate) fn split_frame(bytes: &[u8]) -> Result<(&[u8], &[u8]), FrameFault>
    ensures found { IfOk result (λ found. IsFramed bytes.now found.0.now found.1.now) }
    ensures fault { IfErr result (IsFrameFault bytes.now) }
{
    let (length, rest) = split_length(bytes)?;
    if (rest.len() as u64) < length {
        return Err(FrameFault::Cut);
    }
    Ok(rest.split_at(length as usize))
}

/// How many bytes are missing where the bytes are cut: with fewer more they still are. Else 0.
fn missing(bytes: &[u8]) -> u64
    ensures still { (more : List ℕ) → length more < result → IsCut (bytes.now ++ more) }
    ensures some { IsCut bytes.now → 0 < result }
{
    match split_length(bytes) {
        Ok((length, rest)) => length.saturating_sub(rest.len() as u64),
        Err(FrameFault::Cut) => 1,
        Err(FrameFault::BadLength) => 0,
    }
}

// The length at the front, and what follows it.
fn split_length(bytes: &[u8]) -> Result<(u64, &[u8]), FrameFault>
    ensures small { IfOk result (λ found. found.0 < 2 ^ 63) }
    ensures found { IfOk result (λ found. bytes.now ≡ varint found.0 ++ found.1.now) }
    ensures fault { IfErr result (IsFrameFault bytes.now) }
{
    match read_varint(bytes) {
        Ok((number, length)) => Ok((number, &bytes[length..])),
        Err(VarintFault::Cut) => Err(FrameFault::Cut),
        Err(VarintFault::TooLong) => Err(FrameFault::BadLength),
        Err(VarintFault::NotShortest) => Err(FrameFault::BadLength),
    }
}

/// Moves bytes from the front of the piece to the end of `begun`, which is cut, until it no longer is, and gives what
/// is left of the piece. Where there is no memory, some of them may have been moved.
pub(crate) fn fill<'a>(begun: &mut Vec<u8>, piece: &'a [u8]) -> Mem<&'a [u8]>
    ensures all { IfOk result (λ rest. begun.new.items ++ rest.now ≡ begun.old.items ++ piece.now) }
    ensures used { IfOk result (λ rest. IsCut begun.new.items → rest.now ≡ []) }
    ensures just { OnOk result (IsCut begun.old.items → HasNothingBehind begun.new.items) }
    ensures kept { take (length begun.old.items) begun.new.items ≡ begun.old.items }
{
    let mut rest = piece;
    loop {
        let count = missing(begun.as_slice()).min(rest.len() as u64) as usize;
        if count == 0 {
            return Ok(rest);
        }
        let (front, behind) = rest.split_at(count);
        begun.extend_from_slice(front)?;
        rest = behind;
    }
}
