ghost use Rattle.std.specs.Prelude.{◌≡◌, IfOk};
ghost use Rattle.std.specs.Str.{is_utf8};
ghost use Rattle.dag_cbor.specs.Reading.{Gives, blob_at, text_at};

use crate::fault::{CborKind, Flaw};
use fil_base::{Bytes, Mem};
use std::alloc::Global;
use std::str;

/// The byte string of this length at the front, and the bytes after it.
#[inline(always)]
#[tactic(auto, unfolding(crate::specs::Reading::blob_at))]
pub fn blob_of(len: u64, bytes: &[u8]) -> Result<(&[u8], &[u8]), Flaw>
    ensures { Gives (λ x. (x.0.now, x.1.now)) result (blob_at len bytes.now) }
{
    if len > bytes.len() as u64 {
        return Err(Flaw {
            kind: CborKind::Cut,
            left: 0,
        });
    }
    Ok(bytes.split_at(len as usize))
}

/// The text of this length at the front, and the bytes after it, with so many bytes left at its head.
#[inline(always)]
#[tactic(auto, unfolding(crate::specs::Reading::text_at))]
pub fn text_of(left: u64, len: u64, bytes: &[u8]) -> Result<(&[u8], &[u8]), Flaw>
    ensures { Gives (λ x. (x.0.now, x.1.now)) result (text_at left len bytes.now) }
{
    let (text, rest) = blob_of(len, bytes)?;
    if !is_text(text) {
        return Err(Flaw {
            kind: CborKind::Utf8,
            left,
        });
    }
    Ok((text, rest))
}

/// Whether the bytes are UTF-8.
#[inline(always)]
pub fn is_text(bytes: &[u8]) -> bool
    ensures { result ≡ is_utf8 bytes.now }
{
    match str::from_utf8(bytes) {
        Ok(_) => true,
        Err(_) => false,
    }
}

/// The bytes, copied.
#[inline(always)]
pub fn owned(alloc: Global, bytes: &[u8]) -> Mem<Bytes>
    ensures { IfOk result (λ copy. copy ≡ bytes.now) }
{
    Ok(Bytes::of(Vec::from_slice(alloc, bytes)?))
}
