use crate::amt::Amt;
use cid_core::{Block, BlockSource};
use dag_cbor::Value;
use fil_base::{Bytes, Cid, Failure};
use std::test::Fail;
use tree_blocks::TreeFault;

// The nodes and the digests below are by a Python program that reads the format by itself, with `hashlib`.
const EMPTY: &[u8] = b"\x83\x00\x00\x83\x41\x00\x80\x80";

// The root of true at index 2.
const ONE: &[u8] = b"\x83\x00\x01\x83\x41\x04\x80\x81\xf5";

// The leaves of true at index 0 and of false at index 9, and their root.
const FIRST: &[u8] = b"\x83\x41\x01\x80\x81\xf5";

const SECOND: &[u8] = b"\x83\x41\x02\x80\x81\xf4";

const TWO: &[u8] = b"\x83\x01\x02\x83\x41\x03\x82\xd8\x2a\x58\x27\x00\x01\x71\xa0\xe4\
    \x02\x20\x23\x43\xef\x70\x8c\xfe\x66\x7d\x6a\xf0\x64\x90\x61\xa8\
    \x9b\x41\xd2\xad\xfb\x0b\x51\xcf\xa1\xae\x30\xe3\xe3\xf0\x89\xbd\
    \x7e\x72\xd8\x2a\x58\x27\x00\x01\x71\xa0\xe4\x02\x20\x4e\xd1\x9c\
    \xde\x67\x09\x17\xa7\x3f\x0e\x82\xab\x23\x86\x42\xd2\xa5\xd8\x57\
    \x9d\xfe\x03\x26\x55\x3e\x0b\x5d\x9b\x64\x67\x87\xc5\x80";

// The leaf of true at index 2, and a root over it that is one too high.
const LEAF: &[u8] = b"\x83\x41\x04\x80\x81\xf5";

const TOO_HIGH: &[u8] = b"\x83\x01\x01\x83\x41\x01\x81\xd8\x2a\x58\x27\x00\x01\x71\xa0\xe4\
    \x02\x20\xbb\xc6\x7c\x10\xa0\xa0\x71\x84\x5e\x52\xdf\x9c\xb5\x04\
    \x92\x82\x35\xdd\x32\x31\x5e\x2b\x6c\x23\xf8\xa0\x73\x50\x9f\x2c\
    \xfa\x22\x80";

// A leaf of nothing, and a root over it.
const EMPTY_LEAF: &[u8] = b"\x83\x41\x00\x80\x80";

const OVER_EMPTY: &[u8] = b"\x83\x01\x00\x83\x41\x01\x81\xd8\x2a\x58\x27\x00\x01\x71\xa0\xe4\
    \x02\x20\xed\xe5\x3b\xfa\x64\x6a\xbe\x0d\x8f\x0f\x69\x98\x3d\x27\
    \xe7\xde\xdd\x5f\x1b\x1d\x81\x4d\xc9\x28\xb3\xd6\xe2\xb1\x3f\x87\
    \xd8\x45\x80";

// A root at height 0 with a link to the first leaf beside a value.
const LINK_AND_VALUE: &[u8] = b"\x83\x00\x01\x83\x41\x01\x81\xd8\x2a\x58\x27\x00\x01\x71\xa0\xe4\
    \x02\x20\x23\x43\xef\x70\x8c\xfe\x66\x7d\x6a\xf0\x64\x90\x61\xa8\
    \x9b\x41\xd2\xad\xfb\x0b\x51\xcf\xa1\xae\x30\xe3\xe3\xf0\x89\xbd\
    \x7e\x72\x81\xf5";

// The same at height 1.
const VALUE_AND_LINK: &[u8] = b"\x83\x01\x01\x83\x41\x01\x81\xd8\x2a\x58\x27\x00\x01\x71\xa0\xe4\
    \x02\x20\x23\x43\xef\x70\x8c\xfe\x66\x7d\x6a\xf0\x64\x90\x61\xa8\
    \x9b\x41\xd2\xad\xfb\x0b\x51\xcf\xa1\xae\x30\xe3\xe3\xf0\x89\xbd\
    \x7e\x72\x81\xf5";

// A root with two bits and one link.
const ONE_LINK: &[u8] = b"\x83\x01\x02\x83\x41\x03\x81\xd8\x2a\x58\x27\x00\x01\x71\xa0\xe4\
    \x02\x20\x23\x43\xef\x70\x8c\xfe\x66\x7d\x6a\xf0\x64\x90\x61\xa8\
    \x9b\x41\xd2\xad\xfb\x0b\x51\xcf\xa1\xae\x30\xe3\xe3\xf0\x89\xbd\
    \x7e\x72\x80";

// A root over the two leaves, whose link to the first is under SHA2-256.
const UNDER_SHA2: &[u8] = b"\x83\x01\x02\x83\x41\x03\x82\xd8\x2a\x58\x25\x00\x01\x71\x12\x20\
    \xef\x55\x34\x4a\x84\xba\x99\xa0\x14\xa3\x91\xf2\x4a\xe1\x79\xc3\
    \x76\x9f\xfe\x9c\x8e\x9c\xde\x6a\x11\xe1\x7e\x37\x8c\x80\xd9\xa6\
    \xd8\x2a\x58\x27\x00\x01\x71\xa0\xe4\x02\x20\x4e\xd1\x9c\xde\x67\
    \x09\x17\xa7\x3f\x0e\x82\xab\x23\x86\x42\xd2\xa5\xd8\x57\x9d\xfe\
    \x03\x26\x55\x3e\x0b\x5d\x9b\x64\x67\x87\xc5\x80";

// A root over the two leaves, whose link to the first has the codec of raw bytes.
const UNDER_RAW: &[u8] = b"\x83\x01\x02\x83\x41\x03\x82\xd8\x2a\x58\x27\x00\x01\x55\xa0\xe4\
    \x02\x20\x23\x43\xef\x70\x8c\xfe\x66\x7d\x6a\xf0\x64\x90\x61\xa8\
    \x9b\x41\xd2\xad\xfb\x0b\x51\xcf\xa1\xae\x30\xe3\xe3\xf0\x89\xbd\
    \x7e\x72\xd8\x2a\x58\x27\x00\x01\x71\xa0\xe4\x02\x20\x4e\xd1\x9c\
    \xde\x67\x09\x17\xa7\x3f\x0e\x82\xab\x23\x86\x42\xd2\xa5\xd8\x57\
    \x9d\xfe\x03\x26\x55\x3e\x0b\x5d\x9b\x64\x67\x87\xc5\x80";

// The SHA2-256 of the first leaf.
const FIRST_SHA2: &[u8] = b"\xef\x55\x34\x4a\x84\xba\x99\xa0\x14\xa3\x91\xf2\x4a\xe1\x79\xc3\
    \x76\x9f\xfe\x9c\x8e\x9c\xde\x6a\x11\xe1\x7e\x37\x8c\x80\xd9\xa6";

#[derive(Drop)]
struct ThreeBlocks {
    root: Block,
    first: Block,
    second: Block,
}

impl BlockSource for ThreeBlocks {
    ghost use Rattle.std.specs.Prelude.{[], ◌∷◌};

    ghost blocks = { λ base. base.root ∷ base.first ∷ base.second ∷ [] };

    fn find(&self, cid: &Cid) -> Option<&Block> {
        if self.root.cid() == cid {
            Some(&self.root)
        } else if self.first.cid() == cid {
            Some(&self.first)
        } else if self.second.cid() == cid {
            Some(&self.second)
        } else {
            None
        }
    }
}

fn block(rt: HostRuntime, bytes: &[u8]) -> Result<Block, Fail> {
    let bytes = Bytes::copy_of(rt.alloc(), bytes)?;
    Ok(Block::of(rt.alloc(), 0x71, bytes)?)
}

fn base_of(rt: HostRuntime, root: &[u8], first: &[u8], second: &[u8]) -> Result<ThreeBlocks, Fail> {
    Ok(ThreeBlocks {
        root: block(rt, root)?,
        first: block(rt, first)?,
        second: block(rt, second)?,
    })
}

// The fault of the tree whose root is the first of three blocks.
fn load(
    rt: HostRuntime,
    root: &[u8],
    first: &[u8],
    second: &[u8],
) -> Result<Option<TreeFault>, Fail> {
    let base = base_of(rt, root, first, second)?;
    Ok(fault_of(Amt::load(rt.alloc(), &base, base.root.cid())))
}

fn fault_of(answer: Result<Amt, Failure<TreeFault>>) -> Option<TreeFault> {
    match answer {
        Err(Failure::Fault(fault)) => Some(fault),
        _ => None,
    }
}

fn is_missing(fault: &Option<TreeFault>, root: &Cid) -> bool {
    match fault {
        Some(TreeFault::Missing(cid)) => cid == root,
        _ => false,
    }
}

fn is_form(fault: &Option<TreeFault>, root: &Cid) -> bool {
    match fault {
        Some(TreeFault::Form(cid)) => cid == root,
        _ => false,
    }
}

fn is_not_canonical(fault: &Option<TreeFault>, root: &Cid, canonical: &Cid) -> bool {
    match fault {
        Some(TreeFault::NotCanonical(cid, other)) => cid == root && other == canonical,
        _ => false,
    }
}

#[test]
fn a_tree_loads(rt: HostRuntime) -> Result<(), Fail> {
    let base = base_of(rt, TWO, FIRST, SECOND)?;
    let list = Amt::load(rt.alloc(), &base, base.root.cid())
        .ok()
        .ok_or("no tree")?;
    assert!(rt; matches!(list.get(&base, 0)?, Some(Value::Bool(true))));
    assert!(rt; matches!(list.get(&base, 9)?, Some(Value::Bool(false))));
    assert!(rt; list.get(&base, 1)?.is_none());
    Ok(())
}

#[test]
fn a_missing_node_is_named(rt: HostRuntime) -> Result<(), Fail> {
    let base = base_of(rt, TWO, FIRST, EMPTY)?;
    let other = block(rt, ONE)?;
    let fault = fault_of(Amt::load(rt.alloc(), &base, other.cid()));
    assert!(rt; is_missing(&fault, other.cid()));
    let second = block(rt, SECOND)?;
    let fault = load(rt, TWO, FIRST, EMPTY)?;
    assert!(rt; is_missing(&fault, second.cid()));
    Ok(())
}

#[test]
fn other_roots_are_refused(rt: HostRuntime) -> Result<(), Fail> {
    let cases: [&[u8]; 5] = [
        b"\x80",
        // height 20
        b"\x83\x14\x00\x83\x41\x00\x80\x80",
        // two bytes of bits
        b"\x83\x00\x00\x83\x42\x00\x00\x80\x80",
        // two bits and one value
        b"\x83\x00\x02\x83\x41\x03\x80\x81\xf5",
        ONE_LINK,
    ];
    for bytes in cases {
        let root = block(rt, bytes)?;
        let fault = load(rt, bytes, FIRST, SECOND)?;
        assert!(rt; is_form(&fault, root.cid()));
    }
    Ok(())
}

// A node has values at height 0, and links above.
#[test]
fn links_and_values_are_not_mixed(rt: HostRuntime) -> Result<(), Fail> {
    for bytes in [LINK_AND_VALUE, VALUE_AND_LINK] {
        let root = block(rt, bytes)?;
        let fault = load(rt, bytes, FIRST, SECOND)?;
        assert!(rt; is_form(&fault, root.cid()));
    }
    Ok(())
}

// The root of true in so many lists at index 0.
fn nested(rt: HostRuntime, lists: u64) -> Result<Vec<u8>, Fail> {
    let mut bytes = Vec::from_slice(rt.alloc(), b"\x83\x00\x01\x83\x41\x01\x80\x81")?;
    for _ in 0..lists {
        bytes.push(0x81)?;
    }
    bytes.push(0xf5)?;
    Ok(bytes)
}

#[test]
fn values_are_at_most_125_deep(rt: HostRuntime) -> Result<(), Fail> {
    let deepest = nested(rt, 124)?;
    assert!(rt; load(rt, deepest.as_slice(), EMPTY, EMPTY)?.is_none());
    let deeper = nested(rt, 125)?;
    let root = block(rt, deeper.as_slice())?;
    let fault = load(rt, deeper.as_slice(), EMPTY, EMPTY)?;
    assert!(rt; is_form(&fault, root.cid()));
    Ok(())
}

// Each root is beside a node under it and the root that the pairs have.
#[test]
fn roots_that_are_not_canonical_are_refused(rt: HostRuntime) -> Result<(), Fail> {
    let cases: [(&[u8], &[u8], &[u8]); 3] = [
        (TOO_HIGH, LEAF, ONE),
        (OVER_EMPTY, EMPTY_LEAF, EMPTY),
        // a count of two
        (b"\x83\x00\x02\x83\x41\x04\x80\x81\xf5", EMPTY, ONE),
    ];
    for (root, under, canonical) in cases {
        let root_block = block(rt, root)?;
        let canonical = block(rt, canonical)?;
        let fault = load(rt, root, under, EMPTY)?;
        assert!(rt; is_not_canonical(&fault, root_block.cid(), canonical.cid()));
    }
    Ok(())
}

// The child has the right bytes, but not the right hash.
#[test]
fn a_child_under_another_hash_is_refused(rt: HostRuntime) -> Result<(), Fail> {
    let digest = Bytes::copy_of(rt.alloc(), FIRST_SHA2)?;
    let cid = Cid::new(1, 0x71, 0x12, digest).ok_or("no CID")?;
    let bytes = Bytes::copy_of(rt.alloc(), FIRST)?;
    let base = ThreeBlocks {
        root: block(rt, UNDER_SHA2)?,
        first: Block::checked(cid, bytes).ok().ok_or("no block")?,
        second: block(rt, SECOND)?,
    };
    let canonical = block(rt, FIRST)?;
    let fault = fault_of(Amt::load(rt.alloc(), &base, base.root.cid()));
    assert!(rt; is_not_canonical(&fault, base.first.cid(), canonical.cid()));
    Ok(())
}

// The child has the right bytes, but not the right codec.
#[test]
fn a_child_in_another_codec_is_refused(rt: HostRuntime) -> Result<(), Fail> {
    let bytes = Bytes::copy_of(rt.alloc(), FIRST)?;
    let base = ThreeBlocks {
        root: block(rt, UNDER_RAW)?,
        first: Block::of(rt.alloc(), 0x55, bytes)?,
        second: block(rt, SECOND)?,
    };
    let canonical = block(rt, FIRST)?;
    let fault = fault_of(Amt::load(rt.alloc(), &base, base.root.cid()));
    assert!(rt; is_not_canonical(&fault, base.first.cid(), canonical.cid()));
    Ok(())
}
