ghost use Rattle.std.specs.Prelude.{◌≡◌, ◌++◌, ◌↔◌, ◌<◌, ◌≤◌, ◌^◌, ℕ, List, IfOk, IfErr, IsTrue, length};
ghost use Rattle.fil_base.specs.CidBytes.{cid_bytes};
ghost use Rattle.fil_base.specs.CidFault.{BeginsVersion0, FoundCid, IsCidFault, IsLengthFault, IsNumberFault, IsVersionFault};
ghost use Rattle.fil_base.specs.CidParts.{CidParts, IsCid, parts};
ghost use Rattle.fil_base.specs.Failure.{IfFault};
ghost use Rattle.fil_base.specs.Varint.{varint};
ghost use Rattle.fil_base.specs.declared.cid.CidFault.{CidFault};
ghost use Rattle.fil_base.specs.declared.failure.Failure.TheVariants.{Fault};

use crate::bytes::Bytes;
use crate::cid::{Cid, CidFault};
use crate::failure::Failure;
use crate::varint::{VarintFault, read_varint};
use std::alloc::Global;

impl From<CidFault> for Failure<CidFault> {
    ghost from_gives = { λ fault failure. failure ≡ Fault fault };

    fn from(fault: CidFault) -> Failure<CidFault> {
        Failure::Fault(fault)
    }
}

// The parts of the CID at the front of bytes, and what follows it.
#[derive(Clone, Copy)]
struct Found<'a> {
    version: u8,
    codec: u64,
    hash: u64,
    digest: &'a [u8],
    rest: &'a [u8],
}

/// The CID at the front of the bytes, and its length (the CID specification; version 0 is 34 bytes that begin 12 20).
pub fn read_cid(alloc: Global, bytes: &[u8]) -> Result<(Cid, usize), Failure<CidFault>>
    ensures found { IfOk result (λ found. (rest : List ℕ) × (bytes.now ≡ cid_bytes found.0 ++ rest)
        × (found.1 ≡ length (cid_bytes found.0))) }
    ensures cid { IfOk result (λ found. IsCid found.0) }
    ensures fault { IfErr result (λ failure. IfFault failure (λ fault.
        (cid : CidParts) (rest : List ℕ) → IsCid cid → bytes.now ≡ cid_bytes cid ++ rest → ⊥)) }
    ensures exact { IfErr result (λ failure. IfFault failure (IsCidFault bytes.now)) }
{
    let found = split_cid(bytes)?;
    let digest = Bytes::copy_of(alloc, found.digest)?;
    let cid = Cid {
        version: found.version,
        codec: found.codec,
        hash: found.hash,
        digest,
    };
    Ok((cid, bytes.len() - found.rest.len()))
}

fn split_cid(bytes: &[u8]) -> Result<Found<'_>, CidFault>
    ensures found { IfOk result (λ found.
        FoundCid bytes.now (parts found.version found.codec found.hash found.digest.now) found.rest.now) }
    ensures fault { IfErr result (IsCidFault bytes.now) }
{
    if begins_version0(bytes) {
        split_version0(bytes)
    } else {
        split_version1(bytes)
    }
}

fn begins_version0(bytes: &[u8]) -> bool
    ensures { IsTrue result ↔ BeginsVersion0 bytes.now }
{
    match bytes {
        [first] => *first == 0x12,
        [first, second, ..] => *first == 0x12 && *second == 0x20,
        _ => false,
    }
}

fn split_version0(bytes: &[u8]) -> Result<Found<'_>, CidFault>
    requires { BeginsVersion0 bytes.now }
    ensures found { IfOk result (λ found.
        FoundCid bytes.now (parts found.version found.codec found.hash found.digest.now) found.rest.now) }
    ensures fault { IfErr result (λ fault. (length bytes.now < 34) × (fault ≡ CidFault.Cut)) }
{
    if bytes.len() < 34 {
        return Err(CidFault::Cut);
    }
    let (_front, after_front) = bytes.split_at(2);
    let (digest, rest) = after_front.split_at(32);
    Ok(Found {
        version: 0,
        codec: 0x70,
        hash: 0x12,
        digest,
        rest,
    })
}

fn split_version1(bytes: &[u8]) -> Result<Found<'_>, CidFault>
    ensures found { IfOk result (λ found.
        FoundCid bytes.now (parts found.version found.codec found.hash found.digest.now) found.rest.now) }
    ensures fault { IfErr result (λ fault. IsVersionFault fault bytes.now) }
{
    let (version, after_version) = split_number(bytes)?;
    if version != 1 {
        return Err(CidFault::Version);
    }
    let (codec, after_codec) = split_number(after_version)?;
    let (hash, after_hash) = split_number(after_codec)?;
    let (digest, rest) = split_digest(after_hash)?;
    Ok(Found {
        version: 1,
        codec,
        hash,
        digest,
        rest,
    })
}

// The digest behind its length, and what follows it.
fn split_digest(bytes: &[u8]) -> Result<(&[u8], &[u8]), CidFault>
    ensures short { IfOk result (λ found. length found.0.now ≤ 128) }
    ensures found { IfOk result (λ found. bytes.now ≡ varint (length found.0.now) ++ (found.0.now ++ found.1.now)) }
    ensures fault { IfErr result (λ fault. IsLengthFault fault bytes.now) }
{
    let (length, rest) = split_number(bytes)?;
    if length > 128 {
        return Err(CidFault::TooLong);
    }
    let length = length as usize;
    if rest.len() < length {
        return Err(CidFault::Cut);
    }
    Ok(rest.split_at(length))
}

// The number at the front, and what follows it.
fn split_number(bytes: &[u8]) -> Result<(u64, &[u8]), CidFault>
    ensures small { IfOk result (λ found. found.0 < 2 ^ 63) }
    ensures found { IfOk result (λ found. bytes.now ≡ varint found.0 ++ found.1.now) }
    ensures fault { IfErr result (IsNumberFault bytes.now) }
{
    match read_varint(bytes) {
        Ok((number, length)) => Ok((number, &bytes[length..])),
        Err(VarintFault::Cut) => Err(CidFault::Cut),
        Err(VarintFault::TooLong) => Err(CidFault::Varint),
        Err(VarintFault::NotShortest) => Err(CidFault::Varint),
    }
}

/// A law, with no code: bytes have one fault at most, and no CID is at the front of bytes with a fault.
pub fn one_cid_fault()
    ensures one { (bytes : List ℕ) (f g : CidFault) → IsCidFault bytes f → IsCidFault bytes g → f ≡ g }
    ensures no_cid { (bytes : List ℕ) (fault : CidFault) (cid : CidParts) (rest : List ℕ) →
        IsCidFault bytes fault → IsCid cid → bytes ≡ cid_bytes cid ++ rest → ⊥ }
{}
