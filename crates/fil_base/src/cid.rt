ghost use Rattle.std.specs.Prelude.{◌≡◌, ◌↔◌, ◌≤◌, IfOk, IsTrue, length};
ghost use Rattle.std.specs.Option.{SomeIff};
ghost use Rattle.fil_base.specs.CidParts.{IsCid, parts};

use crate::bytes::Bytes;
use crate::failure::Mem;
use std::alloc::Global;
use std::marker::Model;

mod reading;
mod writing;

pub use reading::{one_cid_fault, read_cid};
pub use writing::{no_cid_begins_another, write_cid};

/// A content identifier (the CID specification): a version, the codec of the content, and the code and digest of
/// its hash. It is always one that has a spelling.
#[derive(Debug, Drop)]
pub struct Cid {
    version: u8,
    codec: u64,
    hash: u64,
    digest: Bytes,
}

impl Model for Cid {
    ghost use Rattle.fil_base.specs.CidParts.{CidParts, IsCid};

    ghost Value = { CidParts };

    ghost view = { λ cid. record {
      version = cid.version;
      codec = cid.codec;
      hash = cid.hash;
      digest = cid.digest;
    } };

    ghost invariant = { λ cid. IsCid record {
      version = cid.version;
      codec = cid.codec;
      hash = cid.hash;
      digest = cid.digest;
    } };
}

impl Cid {
    /// The CID of these parts, if they make one: a version 0 or 1, a codec and a hash code below 2^63, and a digest
    /// of at most 128 bytes. Version 0 is DAG-PB (70) under SHA2-256 (12), with 32 bytes.
    pub fn new(version: u8, codec: u64, hash: u64, digest: Bytes) -> Option<Cid>
        ensures { SomeIff result (IsCid (parts version codec hash digest)) (parts version codec hash digest) }
    {
        if is_cid(version, codec, hash, digest.as_slice()) {
            Some(Cid {
                version,
                codec,
                hash,
                digest,
            })
        } else {
            None
        }
    }

    /// 0 or 1.
    pub fn version(&self) -> u8
        ensures value { result ≡ self.now.version }
        ensures cid { IsCid self.now }
    {
        self.version
    }

    /// The code of the content's format (multicodec), below 2^63.
    pub fn codec(&self) -> u64
        ensures value { result ≡ self.now.codec }
        ensures cid { IsCid self.now }
    {
        self.codec
    }

    /// The code of the hash function (multicodec), below 2^63.
    pub fn hash(&self) -> u64
        ensures value { result ≡ self.now.hash }
        ensures cid { IsCid self.now }
    {
        self.hash
    }

    /// The bytes of the hash, at most 128.
    pub fn digest(&self) -> &[u8]
        ensures value { result.now ≡ self.now.digest }
        ensures cid { IsCid self.now }
    {
        let Cid { digest, .. } = self;
        digest.as_slice()
    }

    /// An equal one.
    pub fn copy(&self, alloc: Global) -> Mem<Cid>
        ensures { IfOk result (λ copy. copy ≡ self.now) }
    {
        let digest = Bytes::copy_of(alloc, self.digest.as_slice())?;
        Ok(Cid {
            version: self.version,
            codec: self.codec,
            hash: self.hash,
            digest,
        })
    }
}

// Whether these parts make a CID.
fn is_cid(version: u8, codec: u64, hash: u64, digest: &[u8]) -> bool
    ensures { IsTrue result ↔ IsCid (parts version codec hash digest.now) }
{
    match version {
        0 => codec == 0x70 && hash == 0x12 && digest.len() == 32,
        1 => codec < 1 << 63 && hash < 1 << 63 && digest.len() <= 128,
        _ => false,
    }
}

impl PartialEq for Cid {
    ghost use Rattle.std.specs.Prelude.{◌≡◌, ◌↔◌, IsTrue};
    ghost use Rattle.std.specs.Cmp.{partial_equiv_from_equiv};
    ghost use Rattle.fil_base.specs.CidEquality.{parts_equiv, same_parts};

    ghost eq = { same_parts };

    ghost laws = { partial_equiv_from_equiv parts_equiv };

    fn eq(&self, other: &Cid) -> bool
        ensures eq { result ≡ same_parts self.now other.now }
        ensures parts { IsTrue result ↔ (self.now ≡ other.now) }
    {
        self.version == other.version
            && self.codec == other.codec
            && self.hash == other.hash
            && self.digest.as_slice() == other.digest.as_slice()
    }
}

impl Eq for Cid {
    ghost use Rattle.fil_base.specs.CidEquality.{parts_equiv};

    ghost laws = { parts_equiv };
}

/// Why no CID is at the front of bytes, in the order in which it is judged from the left.
#[derive(Clone, Copy, Debug, PartialEq, Eq)]
pub enum CidFault {
    /// A number is in more than nine bytes, or not in its shortest form.
    Varint,

    /// The first number is not 1, and the bytes begin no CID of version 0.
    Version,

    /// The digest is longer than 128 bytes.
    TooLong,

    /// The bytes end inside the CID.
    Cut,
}
