ghost use Rattle.std.specs.Prelude.{◌<◌};

use crate::trees::cid_of_word;
use crate::unanswered::{Answer, Unanswered};
use crate::words::{bytes_of, hex_of, hex_of_cid, number_in};
use block_base::Base;
use car_file::{Car, CarFault, CarReader, write_car};
use cid_core::{Block, BlockSource, cid_of};
use fil_base::{Bytes, Failure, Mem, Row};
use std::alloc::Global;

const RAW: u64 = 0x55;

/// `carfile PIECE B`: the root of an archive that is read in pieces of PIECE bytes, and the CIDs of the base of its
/// blocks.
pub fn car_file(alloc: Global, piece: &[u8], bytes: &[u8]) -> Answer {
    let piece = number_in(piece, 1, u64::MAX)? as usize;
    let bytes = bytes_of(alloc, bytes)?;
    match read_in_pieces(alloc, piece, &bytes) {
        Ok(car) => root_and_cids(alloc, car),
        Err(Failure::NoMemory) => Err(Unanswered::NoMemory),
        Err(Failure::Fault(fault)) => {
            Ok(format!(in alloc; "refused {:?} {}", fault.kind, fault.at)?)
        }
    }
}

fn read_in_pieces(alloc: Global, piece: usize, bytes: &[u8]) -> Result<Car, Failure<CarFault>>
    requires { 0 < piece }
{
    let mut reader = CarReader::new(alloc);
    for part in bytes.chunks(piece) {
        reader.feed(part)?;
    }
    reader.finish()
}

fn root_and_cids(alloc: Global, car: Car) -> Answer {
    let base = Base::of(alloc, car.blocks)?;
    let root = hex_of_cid(alloc, &car.root)?;
    let mut text = format!(in alloc; "ok {root} {}", base.count())?;
    for at in 0..base.count() {
        if let Some(block) = base.at(at) {
            text.push(' ')?;
            text.push_str(&hex_of_cid(alloc, block.cid())?)?;
        }
    }
    Ok(text)
}

/// `carof ROOT B1 B2 ..`: the archive of the raw blocks under the root.
pub fn car_of(alloc: Global, root: &[u8], blocks: &[&[u8]]) -> Answer {
    let root = cid_of_word(alloc, root)?;
    let mut row = Vec::new(alloc);
    for word in blocks {
        let bytes = Bytes::of(bytes_of(alloc, word)?);
        row.push(Block::of(alloc, RAW, bytes)?)?;
    }
    let archive = write_car(alloc, &root, &row)?;
    Ok(hex_of(alloc, archive.as_slice())?)
}

/// `findall N`: whether the base of N raw blocks, each of a number from 0 in eight bytes, finds each by its CID; else the
/// first that is lost.
pub fn find_all(alloc: Global, count: &[u8]) -> Answer {
    let count = number_in(count, 0, u32::MAX as u64)?;
    let mut blocks = Vec::new(alloc);
    for number in 0..count {
        let bytes = Bytes::copy_of(alloc, &number.to_be_bytes())?;
        blocks.push(Block::of(alloc, RAW, bytes)?)?;
    }
    let base = Base::of(alloc, Row::of(blocks))?;
    for number in 0..count {
        if !is_found(alloc, &base, &number.to_be_bytes())? {
            return Ok(format!(in alloc; "lost {number}")?);
        }
    }
    Ok(format!(in alloc; "ok")?)
}

fn is_found(alloc: Global, base: &Base, bytes: &[u8]) -> Mem<bool> {
    let cid = cid_of(alloc, RAW, bytes)?;
    match base.find(&cid) {
        Some(block) => Ok(block.bytes() == bytes),
        None => Ok(false),
    }
}
