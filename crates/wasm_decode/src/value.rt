ghost use Rattle.std.specs.Prelude.{◌≡◌};
ghost use Rattle.std.specs.Str.{is_utf8};
ghost use Rattle.wasm_decode.specs.ReadingValues.{blob_at, bytes_at, count_at, name_at, same_count_at};
ghost use Rattle.wasm_decode.specs.Stops.{Gives};

use crate::fault::{Stop, WasmKind};
use crate::number::u32_of;
use std::str;

/// So many bytes, and the rest.
#[inline(always)]
pub fn blob_of(size: u32, bytes: &[u8]) -> Result<(&[u8], &[u8]), Stop>
    ensures { Gives (λ x. (x.0.now, x.1.now)) result (blob_at size bytes.now) }
{
    if (bytes.len() as u64) < u64::from(size) {
        return Err(Stop::Short);
    }
    Ok(bytes.split_at(size as usize))
}

/// Bytes behind their number, and the rest.
#[inline(always)]
#[tactic(auto, unfolding(crate::specs::ReadingValues::bytes_at))]
pub fn bytes_of(bytes: &[u8]) -> Result<(&[u8], &[u8]), Stop>
    ensures { Gives (λ x. (x.0.now, x.1.now)) result (bytes_at bytes.now) }
{
    let (size, rest) = u32_of(bytes)?;
    blob_of(size, rest)
}

/// A name, and the rest.
#[inline(always)]
#[tactic(auto, unfolding(crate::specs::ReadingValues::name_at))]
pub fn name_of(bytes: &[u8]) -> Result<(&[u8], &[u8]), Stop>
    ensures { Gives (λ x. (x.0.now, x.1.now)) result (name_at bytes.now) }
{
    let (name, rest) = bytes_of(bytes)?;
    if !is_text(name) {
        return Err(Stop::Flaw(WasmKind::Form, bytes.len()));
    }
    Ok((name, rest))
}

/// Whether the bytes are UTF-8.
#[inline(always)]
pub fn is_text(bytes: &[u8]) -> bool
    ensures { result ≡ is_utf8 bytes.now }
{
    match str::from_utf8(bytes) {
        Ok(_) => true,
        Err(_) => false,
    }
}

/// A number of items, which is at most `most`, and the rest.
#[inline(always)]
#[tactic(auto, unfolding(crate::specs::ReadingValues::count_at))]
pub fn count_of(most: u32, bytes: &[u8]) -> Result<(u32, &[u8]), Stop>
    ensures { Gives (λ x. (x.0, x.1.now)) result (count_at most bytes.now) }
{
    let (count, rest) = u32_of(bytes)?;
    if count > most {
        return Err(Stop::Flaw(WasmKind::Limit, bytes.len()));
    }
    Ok((count, rest))
}

/// A number of items that is given elsewhere and at most `most`: the rest.
#[inline(always)]
#[tactic(auto, unfolding(crate::specs::ReadingValues::same_count_at))]
pub fn same_count_of(wanted: usize, most: u32, bytes: &[u8]) -> Result<(u32, &[u8]), Stop>
    ensures { Gives (λ x. (x.0, x.1.now)) result (same_count_at wanted most bytes.now) }
{
    let (count, rest) = count_of(most, bytes)?;
    if count as usize != wanted {
        return Err(Stop::Flaw(WasmKind::Form, bytes.len()));
    }
    Ok((count, rest))
}
