ghost use Rattle.std.specs.Prelude.{◌≡◌, IfOk};
ghost use Rattle.dag_cbor.specs.CidReading.{cid_of};
ghost use Rattle.dag_cbor.specs.Reading.{Gives, GivesOrNoMemory, linked, link_at};
ghost use Rattle.dag_cbor.specs.Behind.{link_bytes_at};

use crate::fault::{CborKind, Flaw};
use crate::head::{BYTES, head_of};
use crate::text::blob_of;
use crate::usual_link::{usual_cid, usual_digest};
use fil_base::{Cid, Failure, Mem, NoMemory, read_cid};
use std::alloc::Global;

/// The CID behind a link's tag, and the bytes after it, with so many bytes left at the tag.
#[tactic(auto, using(crate::proofs::LinkBytes::link_parts))]
pub fn link_of(alloc: Global, left: u64, bytes: &[u8]) -> Result<(Cid, &[u8]), Failure<Flaw>>
    ensures { GivesOrNoMemory (λ x. (x.0, x.1.now)) result (link_at left bytes.now) }
{
    let (blob, rest) = link_bytes_of(left, bytes)?;
    match cid_in(alloc, blob)? {
        None => Err(Failure::Fault(Flaw {
            kind: CborKind::LinkForm,
            left,
        })),
        Some(cid) => Ok((cid, rest)),
    }
}

/// The byte string at the place of a link's, and the bytes after it, with so many bytes left at the tag.
#[inline(always)]
#[tactic(auto, unfolding(crate::specs::Behind::link_bytes_at))]
pub fn link_bytes_of(left: u64, bytes: &[u8]) -> Result<(&[u8], &[u8]), Flaw>
    ensures { Gives (λ x. (x.0.now, x.1.now)) result (link_bytes_at left bytes.now) }
{
    let (head, after) = head_of(bytes)?;
    if head.major != BYTES {
        return Err(Flaw {
            kind: CborKind::LinkForm,
            left,
        });
    }
    blob_of(head.number, after)
}

/// The CID behind a byte 00, if these bytes are no more and no less.
fn cid_in(alloc: Global, bytes: &[u8]) -> Mem<Option<Cid>>
    ensures { IfOk result (λ cid. cid ≡ linked bytes.now) }
{
    if let Some((codec, digest)) = usual_digest(bytes) {
        return usual_cid(alloc, codec, digest);
    }
    match bytes.split_first() {
        Some((0, rest)) => whole_cid(alloc, rest),
        _ => Ok(None),
    }
}

/// The CID that these bytes spell, if they do.
fn whole_cid(alloc: Global, bytes: &[u8]) -> Mem<Option<Cid>>
    ensures { IfOk result (λ cid. cid ≡ cid_of bytes.now) }
{
    match read_cid(alloc, bytes) {
        Ok((cid, len)) => {
            if len == bytes.len() {
                Ok(Some(cid))
            } else {
                Ok(None)
            }
        }
        Err(Failure::NoMemory) => Err(NoMemory),
        Err(Failure::Fault(_)) => Ok(None),
    }
}
