ghost use Rattle.std.specs.Prelude.{◌≡◌, ◌∷◌, ◌++◌, ◌<◌, ◌^◌, ◌↔◌, ℕ, List, length, IfNone, IfSome, IsTrue, is_some};
ghost use Rattle.fil_base.specs.Varint.{varint};
ghost use Rattle.dag_cbor.specs.Behind.{behind};
ghost use Rattle.dag_cbor.specs.CidReading.{cid_of};
ghost use Rattle.dag_cbor.specs.CidForm.{BeginsWithNumber, IsContent, IsDigest, IsMultihash, SpellsCid};
ghost use Rattle.dag_cbor.specs.Reading.{Gives, linked, link_at};

use crate::fault::{CborKind, Flaw};
use crate::link::link_bytes_of;
use fil_base::read_varint;

/// The bytes behind a link, whose tag is read, with so many bytes left at the tag.
#[tactic(auto, using(crate::proofs::LinkBytes::link_parts))]
pub fn skip_link(left: u64, bytes: &[u8]) -> Result<&[u8], Flaw>
    ensures { Gives (λ rest. rest.now) result (behind (link_at left bytes.now)) }
{
    let (blob, rest) = link_bytes_of(left, bytes)?;
    if !is_link(blob) {
        return Err(Flaw {
            kind: CborKind::LinkForm,
            left,
        });
    }
    Ok(rest)
}

/// Whether the bytes are 00 and a CID.
fn is_link(bytes: &[u8]) -> bool
    ensures { result ≡ is_some (linked bytes.now) }
{
    match bytes.split_first() {
        Some((0, cid)) => is_cid(cid),
        _ => false,
    }
}

/// Whether the bytes are a CID: those that `read_cid` reads to their end.
fn is_cid(bytes: &[u8]) -> bool
    ensures { result ≡ is_some (cid_of bytes.now) }
{
    match bytes.split_first() {
        Some((first, rest)) => is_cid_of(*first, rest),
        None => false,
    }
}

/// Whether this byte and those behind it are a CID.
fn is_cid_of(first: u8, rest: &[u8]) -> bool
    ensures { IsTrue result ↔ SpellsCid (first ∷ rest.now) }
{
    match first {
        0x12 => is_version_0(rest),
        1 => is_content(rest),
        _ => false,
    }
}

/// Whether the bytes are 20 and a digest of 32 bytes.
fn is_version_0(bytes: &[u8]) -> bool
    ensures { IsTrue result ↔ (digest : List ℕ) × (bytes.now ≡ 0x20 ∷ digest) × (length digest ≡ 32) }
{
    match bytes.split_first() {
        Some((0x20, digest)) => digest.len() == 32,
        _ => false,
    }
}

/// Whether the bytes are a codec and a multihash.
fn is_content(bytes: &[u8]) -> bool
    ensures { IsTrue result ↔ IsContent bytes.now }
{
    match number_of(bytes) {
        Some((_codec, multihash)) => is_multihash(multihash),
        None => false,
    }
}

/// Whether the bytes are a hash code, and a digest behind its length.
fn is_multihash(bytes: &[u8]) -> bool
    ensures { IsTrue result ↔ IsMultihash bytes.now }
{
    match number_of(bytes) {
        Some((_hash, digest)) => is_digest(digest),
        None => false,
    }
}

/// Whether the bytes are a digest behind its length.
fn is_digest(bytes: &[u8]) -> bool
    ensures { IsTrue result ↔ BeginsWithNumber IsDigest bytes.now }
{
    match number_of(bytes) {
        Some((len, digest)) => len <= 128 && digest.len() as u64 == len,
        None => false,
    }
}

/// The number of varying length at the front, and the bytes after it.
fn number_of(bytes: &[u8]) -> Option<(u64, &[u8])>
    ensures found { IfSome result (λ x. (x.0 < 2 ^ 63) × (bytes.now ≡ varint x.0 ++ x.1.now)) }
    ensures none { IfNone result ((n : ℕ) (rest : List ℕ) → n < 2 ^ 63 → bytes.now ≡ varint n ++ rest → ⊥) }
{
    match read_varint(bytes) {
        Ok((number, len)) => Some((number, &bytes[len..])),
        Err(_) => None,
    }
}
