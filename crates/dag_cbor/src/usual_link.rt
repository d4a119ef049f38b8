ghost use Rattle.std.specs.Prelude.{◌≡◌, ◌<◌, ◌∷◌, ◌++◌, IfOk, IfSome, IsTrue, Ok, Some, length};
ghost use Rattle.dag_cbor.specs.declared.value.Value.TheOpen as layer;
ghost use Rattle.dag_cbor.specs.Behind.{behind};
ghost use Rattle.dag_cbor.specs.Reading.{item_at};
ghost use Rattle.dag_cbor.specs.Spelling.{spelled_layer};
ghost use Rattle.dag_cbor.specs.UsualLink.{link_front, usual, usual_front, usual_hash, usual_link_front};

use fil_base::{Bytes, Cid, Mem};
use std::alloc::Global;

/// The multihash code of BLAKE2b with 32 bytes.
const BLAKE2B_256: u64 = 0xb220;

/// The bytes behind the item at the front, which nests at most so deep, where it is a usual link.
#[inline(always)]
pub fn behind_usual_link(depth: u64, bytes: &[u8]) -> Option<&[u8]>
    ensures { IfSome result (λ rest. behind (item_at depth bytes.now) ≡ Ok rest.now) }
{
    let (_codec, digest) = usual_link_front(bytes)?;
    if depth == 0 || digest.len() < 32 {
        return None;
    }
    let (_, rest) = digest.split_at(32);
    Some(rest)
}

/// The codec of the usual link at the front, and the bytes behind what stands before its digest.
#[inline(always)]
fn usual_link_front(bytes: &[u8]) -> Option<(u8, &[u8])>
    ensures { IfSome result (λ x. (x.0 < 128) × (bytes.now ≡ usual_link_front x.0 ++ x.1.now)) }
{
    let content = behind_link_front(bytes)?;
    usual_content(content)
}

/// The digest of the usual link whose byte string this is, behind its codec.
#[inline(always)]
pub fn usual_digest(bytes: &[u8]) -> Option<(u8, &[u8])>
    ensures { IfSome result (λ x. (x.0 < 128) × (length x.1.now ≡ 32) × (bytes.now ≡ usual_front x.0 ++ x.1.now)) }
{
    if bytes.len() != 39 {
        return None;
    }
    let content = bytes.strip_prefix(&[0, 1])?;
    usual_content(content)
}

/// A codec below 128, and the bytes behind the code of BLAKE2b-256 and the length of its digest.
#[inline(always)]
fn usual_content(bytes: &[u8]) -> Option<(u8, &[u8])>
    ensures { IfSome result (λ x. (x.0 < 128) × (bytes.now ≡ x.0 ∷ (usual_hash ++ x.1.now))) }
{
    let (codec, hash) = bytes.split_first()?;
    let digest = behind_usual_hash(hash)?;
    if *codec < 128 {
        Some((*codec, digest))
    } else {
        None
    }
}

/// The bytes behind the code of BLAKE2b-256 and the length of its digest.
#[inline(always)]
fn behind_usual_hash(bytes: &[u8]) -> Option<&[u8]>
    ensures { IfSome result (λ rest. bytes.now ≡ usual_hash ++ rest.now) }
{
    bytes.strip_prefix(&[0xa0, 0xe4, 0x02, 0x20])
}

/// The bytes behind what stands before the codec of a link of 39 bytes.
#[inline(always)]
fn behind_link_front(bytes: &[u8]) -> Option<&[u8]>
    ensures { IfSome result (λ rest. bytes.now ≡ link_front ++ rest.now) }
{
    bytes.strip_prefix(&[0xd8, 0x2a, 0x58, 0x27, 0, 1])
}

/// The usual CID of a digest.
pub fn usual_cid(alloc: Global, codec: u8, digest: &[u8]) -> Mem<Option<Cid>>
    requires { length digest.now ≡ 32 }
    ensures { IfOk result (λ cid. cid ≡ Some (usual codec digest.now)) }
{
    let digest = Bytes::copy_of(alloc, digest)?;
    Ok(Cid::new(1, u64::from(codec), BLAKE2B_256, digest))
}

/// Whether this is the usual CID of its digest.
pub fn is_usual(cid: &Cid) -> bool
    ensures { IsTrue result → (cid.now.codec < 128) × (length cid.now.digest ≡ 32)
        × (cid.now ≡ usual cid.now.codec cid.now.digest) }
{
    cid.version() == 1 && cid.codec() < 128 && cid.hash() == BLAKE2B_256 && cid.digest().len() == 32
}

/// Writes the usual link of a digest.
pub fn put_usual_link(out: &mut Vec<u8>, codec: u8, digest: &[u8]) -> Mem<()>
    requires codec { codec < 128 }
    requires digest { length digest.now ≡ 32 }
    ensures { IfOk result (λ _. out.new.items ≡ out.old.items ++ spelled_layer (layer.Link (usual codec digest.now))) }
{
    out.extend_from_slice(&[0xd8, 0x2a, 0x58, 0x27, 0, 1, codec, 0xa0, 0xe4, 0x02, 0x20])?;
    out.extend_from_slice(digest)?;
    Ok(())
}
