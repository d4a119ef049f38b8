// A section: its length, and behind it the CID and the bytes of a block.

ghost use Rattle.std.specs.Prelude.{◌≡◌, ◌≢◌, ◌++◌, ◌<◌, ℕ, List, IfErr, IfNone, IfOk, IfSome, length};
ghost use Rattle.fil_base.specs.CidBytes.{cid_bytes};
ghost use Rattle.fil_base.specs.CidParts.{CidParts, IsCid};
ghost use Rattle.fil_base.specs.Failure.{IfFault};
ghost use Rattle.cid_core.specs.BlockParts.{IsBlock};
ghost use Rattle.car_file.specs.Car.{content_of};
ghost use Rattle.car_file.specs.CarFault.{IsContentFault, IsCut, IsSectionFault};
ghost use Rattle.car_file.specs.Sections.{IsSection};
ghost use Rattle.car_file.specs.declared.fault.CarKind.TheVariants.{Cid as CidKind, Cut};

use crate::fault::{CarFault, CarKind, placed};
use crate::frame::{FrameFault, split_frame};
use cid_core::{Block, BlockFault};
use fil_base::{Bytes, Cid, Failure, read_cid};
use std::alloc::Global;

/// The block of the section at the front and what follows it, if the section is whole. A fault stands at `begin`.
pub(crate) fn next_block<'a>(
    alloc: Global,
    bytes: &'a [u8],
    begin: u64,
) -> Result<Option<(Block, &'a [u8])>, Failure<CarFault>>
    ensures found { IfOk result (λ next. IfSome next (λ found. IsSection bytes.now found.0 found.1.now)) }
    ensures shorter { IfOk result (λ next. IfSome next (λ found. length found.1.now < length bytes.now)) }
    ensures cut { IfOk result (λ next. IfNone next (IsCut bytes.now)) }
    ensures fault { IfErr result (λ failure. IfFault failure (λ fault.
        IsSectionFault bytes.now fault.kind × (fault.kind ≢ Cut) × (fault.at ≡ begin))) }
{
    let (content, rest) = match split_frame(bytes) {
        Ok(found) => found,
        Err(FrameFault::Cut) => return Ok(None),
        Err(FrameFault::BadLength) => {
            return Err(Failure::Fault(CarFault {
                kind: CarKind::Section,
                at: begin,
            }));
        }
    };
    match block_of(alloc, content) {
        Ok(block) => Ok(Some((block, rest))),
        Err(failure) => Err(placed(failure, begin)),
    }
}

// The block of a section's bytes behind the length.
fn block_of(alloc: Global, content: &[u8]) -> Result<Block, Failure<CarKind>>
    ensures block { IfOk result IsBlock }
    ensures found { IfOk result (λ block. content.now ≡ content_of block) }
    ensures fault { IfErr result (λ failure. IfFault failure (IsContentFault content.now)) }
{
    if content.is_empty() {
        return Err(Failure::Fault(CarKind::Section));
    }
    let (cid, held) = split_cid(alloc, content)?;
    let bytes = Bytes::copy_of(alloc, held)?;
    match Block::checked(cid, bytes) {
        Ok(block) => Ok(block),
        Err(BlockFault::HashNotSupported) => Err(Failure::Fault(CarKind::HashNotSupported)),
        Err(BlockFault::Digest) => Err(Failure::Fault(CarKind::Digest)),
    }
}

// The CID at the front, and what follows it.
fn split_cid(alloc: Global, content: &[u8]) -> Result<(Cid, &[u8]), Failure<CarKind>>
    ensures cid { IfOk result (λ found. IsCid found.0) }
    ensures found { IfOk result (λ found. content.now ≡ cid_bytes found.0 ++ found.1.now) }
    ensures fault { IfErr result (λ failure. IfFault failure (λ kind. (kind ≡ CidKind)
        × ((cid : CidParts) (held : List ℕ) → IsCid cid → content.now ≢ cid_bytes cid ++ held))) }
{
    match read_cid(alloc, content) {
        Ok((cid, length)) => Ok((cid, &content[length..])),
        Err(Failure::NoMemory) => Err(Failure::NoMemory),
        Err(Failure::Fault(_)) => Err(Failure::Fault(CarKind::Cid)),
    }
}
