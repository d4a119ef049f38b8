ghost use Rattle.std.specs.Prelude.{◌≡◌, ◌<◌, ◌^◌, IfErr, IfOk};
ghost use Rattle.cid_core.specs.BlockParts.{IsBlock, block_of};
ghost use Rattle.cid_core.specs.BlockFault.{IsBlockFault};

use crate::hash::{cid_of, digest_under, has_supported_hash};
use fil_base::{Bytes, Cid, Mem};
use std::alloc::Global;
use std::marker::Model;

/// Bytes under their CID: its hash is supported, and its digest is that of the bytes.
#[derive(Debug, Drop)]
pub struct Block {
    cid: Cid,
    bytes: Bytes,
}

impl Model for Block {
    ghost use Rattle.cid_core.specs.BlockParts.{BlockParts, IsBlock};

    ghost Value = { BlockParts };

    ghost view = { λ block. record {
      cid = block.cid;
      bytes = block.bytes;
    } };

    ghost invariant = { λ block. IsBlock record {
      cid = block.cid;
      bytes = block.bytes;
    } };
}

/// Why bytes are no block under a CID, in the order in which it is judged.
#[derive(Clone, Copy, Debug, PartialEq, Eq)]
pub enum BlockFault {
    /// The CID is not of version 1, or its hash is neither BLAKE2b-256 nor SHA2-256 with 32 bytes.
    HashNotSupported,

    /// The digest of the bytes is another one.
    Digest,
}

impl Block {
    /// The block of the bytes in a codec (multicodec), below 2^63, under BLAKE2b-256.
    pub fn of(alloc: Global, codec: u64, bytes: Bytes) -> Mem<Block>
        requires { codec < 2 ^ 63 }
        ensures { IfOk result (λ block. block ≡ block_of codec bytes) }
    {
        let cid = cid_of(alloc, codec, bytes.as_slice())?;
        Ok(Block { cid, bytes })
    }

    /// The block of the bytes under the CID. It takes no memory.
    pub fn checked(cid: Cid, bytes: Bytes) -> Result<Block, BlockFault>
        ensures block { IfOk result IsBlock }
        ensures found { IfOk result (λ block. (block.cid ≡ cid) × (block.bytes ≡ bytes)) }
        ensures fault { IfErr result (IsBlockFault cid bytes) }
    {
        if !has_supported_hash(&cid) {
            return Err(BlockFault::HashNotSupported);
        }
        if digest_under(cid.hash(), bytes.as_slice()).as_slice() != cid.digest() {
            return Err(BlockFault::Digest);
        }
        Ok(Block { cid, bytes })
    }

    pub fn cid(&self) -> &Cid
        ensures value { result.now ≡ self.now.cid }
        ensures block { IsBlock self.now }
    {
        let Block { cid, .. } = self;
        cid
    }

    pub fn bytes(&self) -> &[u8]
        ensures value { result.now ≡ self.now.bytes }
        ensures block { IsBlock self.now }
    {
        let Block { bytes, .. } = self;
        bytes.as_slice()
    }

    /// An equal block.
    pub fn copy(&self, alloc: Global) -> Mem<Block>
        ensures { IfOk result (λ copy. copy ≡ self.now) }
    {
        let cid = self.cid.copy(alloc)?;
        let bytes = Bytes::copy_of(alloc, self.bytes.as_slice())?;
        Ok(Block { cid, bytes })
    }
}

#[cfg(test)]
mod tests {
    use super::*;
    use std::test::Fail;

    // The digests of "abc" under BLAKE2b-256 and SHA2-256, as Python's `hashlib` gives them.
    const BLAKE2B: [u8; 32] = [
        0xbd, 0xdd, 0x81, 0x3c, 0x63, 0x42, 0x39, 0x72, 0x31, 0x71, 0xef, 0x3f, 0xee, 0x98, 0x57,
        0x9b, 0x94, 0x96, 0x4e, 0x3b, 0xb1, 0xcb, 0x3e, 0x42, 0x72, 0x62, 0xc8, 0xc0, 0x68, 0xd5,
        0x23, 0x19,
    ];

    const SHA2: [u8; 32] = [
        0xba, 0x78, 0x16, 0xbf, 0x8f, 0x01, 0xcf, 0xea, 0x41, 0x41, 0x40, 0xde, 0x5d, 0xae, 0x22,
        0x23, 0xb0, 0x03, 0x61, 0xa3, 0x96, 0x17, 0x7a, 0x9c, 0xb4, 0x10, 0xff, 0x61, 0xf2, 0x00,
        0x15, 0xad,
    ];

    fn checked(
        rt: HostRuntime,
        cid: (u8, u64, u64),
        digest: &[u8],
    ) -> Result<Option<BlockFault>, Fail> {
        let (version, codec, hash) = cid;
        let digest = Bytes::copy_of(rt.alloc(), digest)?;
        let bytes = Bytes::copy_of(rt.alloc(), b"abc")?;
        let cid = Cid::new(version, codec, hash, digest).ok_or("no CID")?;
        Ok(Block::checked(cid, bytes).err())
    }

    #[test]
    fn a_block_is_named_by_its_digest(rt: HostRuntime) -> Result<(), Fail> {
        let bytes = Bytes::copy_of(rt.alloc(), b"abc")?;
        let block = Block::of(rt.alloc(), 0x55, bytes)?;
        assert_eq!(rt; block.cid().version(), 1);
        assert_eq!(rt; block.cid().codec(), 0x55);
        assert_eq!(rt; block.cid().digest(), BLAKE2B.as_slice());
        let copy = block.copy(rt.alloc())?;
        assert!(rt; copy.cid() == block.cid());
        assert_eq!(rt; copy.bytes(), b"abc".as_slice());
        Ok(())
    }

    #[test]
    fn digests_are_checked(rt: HostRuntime) -> Result<(), Fail> {
        assert_eq!(rt; checked(rt, (1, 0x55, 0x12), &SHA2)?, None);
        assert_eq!(rt; checked(rt, (1, 0x55, 0xb220), &BLAKE2B)?, None);
        let mut flipped = SHA2;
        flipped[31] ^= 1;
        assert_eq!(rt;
            checked(rt, (1, 0x55, 0x12), &flipped)?,
            Some(BlockFault::Digest)
        );
        let not_supported = Some(BlockFault::HashNotSupported);
        assert_eq!(rt; checked(rt, (1, 0x55, 0x13), &SHA2)?, not_supported);
        assert_eq!(rt; checked(rt, (0, 0x70, 0x12), &SHA2)?, not_supported);
        assert_eq!(rt; checked(rt, (1, 0x55, 0x12), &SHA2[..31])?, not_supported);
        Ok(())
    }
}
