ghost use Rattle.std.specs.Int.{w8, w16, w32, w64};
ghost use Rattle.dag_cbor.specs.Reading.{Gives, number_at, number_behind, raw_head_at, head_at};

use crate::fault::{CborKind, Flaw};
use crate::rows::head_fault;

/// The major type of the integers from 0 on.
pub const NATURAL: u8 = 0;

/// The major type of the integers below 0.
pub const NEGATIVE: u8 = 1;

/// The major type of byte strings.
pub const BYTES: u8 = 2;

/// The major type of texts.
pub const TEXT: u8 = 3;

/// The major type of lists.
pub const LIST: u8 = 4;

/// The major type of maps.
pub const MAP: u8 = 5;

/// The major type of tags.
pub const TAG: u8 = 6;

/// The major type of simple values and floating-point numbers.
pub const SIMPLE: u8 = 7;

/// A head as it stands in the bytes, whether good or not (RFC 8949, section 3).
#[derive(Clone, Copy)]
pub struct RawHead {
    /// The major type.
    pub major: u8,

    /// The low bits of the first byte: the number, or how many bytes have it.
    pub info: u8,

    /// The number.
    pub number: u64,
}

/// The head of an item.
#[derive(Clone, Copy)]
pub struct Head {
    /// The major type.
    pub major: u8,

    /// An integer, a length, a tag or a simple value, as the major type says.
    pub number: u64,
}

/// The head at the front, and the bytes after it.
#[inline(always)]
#[tactic(auto, unfolding(crate::specs::Reading::head_at))]
pub fn head_of(bytes: &[u8]) -> Result<(Head, &[u8]), Flaw>
    ensures { Gives (λ x. (x.0, x.1.now)) result (head_at bytes.now) }
{
    let (raw, rest) = raw_head_of(bytes)?;
    match head_fault(raw) {
        None => Ok((
            Head {
                major: raw.major,
                number: raw.number,
            },
            rest,
        )),
        Some(kind) => Err(Flaw {
            kind,
            left: bytes.len() as u64,
        }),
    }
}

/// The head at the front, whether good or not, and the bytes after it.
#[inline(always)]
#[tactic(auto, unfolding(crate::specs::Reading::raw_head_at))]
fn raw_head_of(bytes: &[u8]) -> Result<(RawHead, &[u8]), Flaw>
    ensures { Gives (λ x. (x.0, x.1.now)) result (raw_head_at bytes.now) }
{
    match bytes.split_first() {
        None => Err(Flaw {
            kind: CborKind::Cut,
            left: 0,
        }),
        Some((first, after)) => {
            let major = *first / 32;
            let info = *first % 32;
            let (number, rest) = number_of(info, after)?;
            Ok((
                RawHead {
                    major,
                    info,
                    number,
                },
                rest,
            ))
        }
    }
}

/// The number that the low bits are, or that the bytes have which they say, and the bytes after it.
#[inline(always)]
fn number_of(info: u8, bytes: &[u8]) -> Result<(u64, &[u8]), Flaw>
    ensures { Gives (λ x. (x.0, x.1.now)) result (number_behind info bytes.now) }
{
    match info {
        24 => one_byte_number(bytes),
        25 => two_byte_number(bytes),
        26 => four_byte_number(bytes),
        27 => eight_byte_number(bytes),
        _ => Ok((u64::from(info), bytes)),
    }
}

/// The number in the next byte, and the bytes after it.
#[inline(always)]
fn one_byte_number(bytes: &[u8]) -> Result<(u64, &[u8]), Flaw>
    ensures { Gives (λ x. (x.0, x.1.now)) result (number_at w8 bytes.now) }
{
    match bytes.split_first() {
        None => Err(Flaw {
            kind: CborKind::Cut,
            left: 0,
        }),
        Some((number, rest)) => Ok((u64::from(*number), rest)),
    }
}

/// The number in the next two bytes, and the bytes after it.
#[inline(always)]
fn two_byte_number(bytes: &[u8]) -> Result<(u64, &[u8]), Flaw>
    ensures { Gives (λ x. (x.0, x.1.now)) result (number_at w16 bytes.now) }
{
    match bytes.split_first_chunk::<2>() {
        None => Err(Flaw {
            kind: CborKind::Cut,
            left: 0,
        }),
        Some((front, rest)) => Ok((u64::from(u16::from_be_bytes(*front)), rest)),
    }
}

/// The number in the next four bytes, and the bytes after it.
#[inline(always)]
fn four_byte_number(bytes: &[u8]) -> Result<(u64, &[u8]), Flaw>
    ensures { Gives (λ x. (x.0, x.1.now)) result (number_at w32 bytes.now) }
{
    match bytes.split_first_chunk::<4>() {
        None => Err(Flaw {
            kind: CborKind::Cut,
            left: 0,
        }),
        Some((front, rest)) => Ok((u64::from(u32::from_be_bytes(*front)), rest)),
    }
}

/// The number in the next eight bytes, and the bytes after it.
#[inline(always)]
fn eight_byte_number(bytes: &[u8]) -> Result<(u64, &[u8]), Flaw>
    ensures { Gives (λ x. (x.0, x.1.now)) result (number_at w64 bytes.now) }
{
    match bytes.split_first_chunk::<8>() {
        None => Err(Flaw {
            kind: CborKind::Cut,
            left: 0,
        }),
        Some((front, rest)) => Ok((u64::from_be_bytes(*front), rest)),
    }
}
