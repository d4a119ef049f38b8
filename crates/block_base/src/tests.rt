ghost use Rattle.std.specs.Prelude.{◌<◌, ◌^◌};

use crate::Base;
use cid_core::{Block, BlockSource};
use fil_base::{Bytes, Cid, Row};
use std::alloc::Global;
use std::test::Fail;

// The BLAKE2b-256 digest of the byte 80, as Python's `hashlib` gives it.
const EMPTY_LIST: [u8; 32] = [
    0x45, 0xb0, 0xcf, 0xc2, 0x20, 0xce, 0xec, 0x5b, 0x7c, 0x1c, 0x62, 0xc4, 0xd4, 0x19, 0x3d, 0x38,
    0xe4, 0xeb, 0xa4, 0x8e, 0x88, 0x15, 0x72, 0x9c, 0xe7, 0x5f, 0x9c, 0x0a, 0xb0, 0xe4, 0xc1, 0xc0,
];

fn block(alloc: Global, codec: u64, bytes: &[u8]) -> Result<Block, Fail>
    requires { codec < 2 ^ 63 }
{
    let bytes = Bytes::copy_of(alloc, bytes)?;
    Ok(Block::of(alloc, codec, bytes)?)
}

// The base of a raw block for each of the texts.
fn base_of(alloc: Global, texts: &[&[u8]]) -> Result<Base, Fail> {
    let mut blocks = Vec::new(alloc);
    for text in texts {
        blocks.push(block(alloc, 0x55, text)?)?;
    }
    Ok(Base::of(alloc, Row::of(blocks))?)
}

// Whether the bytes are those of the block under the CID.
fn finds<S: BlockSource>(source: &S, cid: &Cid, bytes: &[u8]) -> bool {
    match source.find(cid) {
        Some(block) => block.bytes() == bytes,
        None => false,
    }
}

// Whether the bytes are those of the block at the place.
fn has_at(base: &Base, place: usize, bytes: &[u8]) -> bool {
    match base.at(place) {
        Some(block) => block.bytes() == bytes,
        None => false,
    }
}

#[test]
fn each_block_is_found(rt: HostRuntime) -> Result<(), Fail> {
    let texts: [&[u8]; 6] = [b"one", b"two", b"one", b"", b"three", b"two"];
    let base = base_of(rt.alloc(), &texts)?;
    assert_eq!(rt; base.count(), 7);
    for (place, text) in texts.iter().enumerate() {
        let wanted = block(rt.alloc(), 0x55, text)?;
        assert!(rt; finds(&base, wanted.cid(), text));
        assert!(rt; has_at(&base, place, text));
        let other = block(rt.alloc(), 0x71, text)?;
        assert!(rt; base.find(other.cid()).is_none());
    }
    let missing = block(rt.alloc(), 0x55, b"four")?;
    assert!(rt; base.code(missing.cid()).is_none());
    Ok(())
}

#[test]
fn the_empty_list_is_behind_the_blocks(rt: HostRuntime) -> Result<(), Fail> {
    let base = base_of(rt.alloc(), &[b"one"])?;
    assert_eq!(rt; base.count(), 2);
    assert!(rt; base.at(2).is_none());
    let digest = Bytes::copy_of(rt.alloc(), &EMPTY_LIST)?;
    let cid = Cid::new(1, 0x71, 0xb220, digest).ok_or("no CID")?;
    assert!(rt; finds(&base, &cid, &[0x80]));
    assert!(rt; has_at(&base, 1, &[0x80]));
    Ok(())
}

#[test]
fn the_empty_list_is_added_once(rt: HostRuntime) -> Result<(), Fail> {
    let mut blocks = Vec::new(rt.alloc());
    blocks.push(block(rt.alloc(), 0x71, &[0x80])?)?;
    blocks.push(block(rt.alloc(), 0x55, b"one")?)?;
    let base = Base::of(rt.alloc(), Row::of(blocks))?;
    assert_eq!(rt; base.count(), 2);
    // Under another codec the same byte is another block.
    let raw = base_of(rt.alloc(), &[&[0x80]])?;
    assert_eq!(rt; raw.count(), 2);
    Ok(())
}
