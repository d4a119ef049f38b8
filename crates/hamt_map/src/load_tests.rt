use crate::hamt::Hamt;
use cid_core::{Block, BlockSource};
use dag_cbor::Value;
use fil_base::{Bytes, Cid, Failure};
use std::test::Fail;
use tree_blocks::TreeFault;

// The nodes and the digests below are by a Python program with `hashlib`. The SHA2-256 of `s`, `bf`, `ff` and `fw`
// begin with the bits 00000, followed by 10000, 10011, 10110 and 11111; that of `u` begins with 00001.
const EMPTY: &[u8] = b"\x82\x40\x80";

const EMPTY_DIGEST: [u8; 32] = [
    0x18, 0xfe, 0x6a, 0xcc, 0x61, 0xa3, 0xa3, 0x6b, 0x0c, 0x37, 0x3c, 0x4a, 0x3a, 0x8e, 0xa6, 0x4b,
    0x81, 0x2b, 0xf2, 0xca, 0x9b, 0x52, 0x80, 0x50, 0x90, 0x9c, 0x78, 0xd4, 0x08, 0x55, 0x8a, 0x0c,
];

// The node on the second level of `s`, `bf`, `ff` and `fw`.
pub(crate) const FOUR: &[u8] = b"\x82\x44\x80\x49\x00\x00\x84\
    \x81\x82\x41s\x02\x81\x82\x42bf\x03\x81\x82\x42ff\x04\x81\x82\x42fw\x05";

// The node on the second level of the last three.
const THREE: &[u8] = b"\x82\x44\x80\x48\x00\x00\x83\
    \x81\x82\x42bf\x03\x81\x82\x42ff\x04\x81\x82\x42fw\x05";

// A root with a link to the node of four.
const OVER_FOUR: &[u8] = b"\x82\x41\x01\x81\xd8\x2a\x58\x27\x00\x01\x71\xa0\xe4\x02\x20\
    \x98\x4b\x16\x90\x90\xab\x0c\xc8\x3f\x10\x3a\x53\x76\x38\x80\xab\
    \x9c\x76\xe5\x1f\x87\xd1\x04\x46\xae\x60\x34\xc4\x06\xec\x59\x57";

// The same with a bucket of `u` behind the link.
pub(crate) const OVER_FOUR_AND_ONE: &[u8] =
    b"\x82\x41\x03\x82\xd8\x2a\x58\x27\x00\x01\x71\xa0\xe4\x02\x20\
    \x98\x4b\x16\x90\x90\xab\x0c\xc8\x3f\x10\x3a\x53\x76\x38\x80\xab\
    \x9c\x76\xe5\x1f\x87\xd1\x04\x46\xae\x60\x34\xc4\x06\xec\x59\x57\x81\x82\x41u\x01";

// A root with a link to the node of three.
const OVER_THREE: &[u8] = b"\x82\x41\x01\x81\xd8\x2a\x58\x27\x00\x01\x71\xa0\xe4\x02\x20\
    \x0d\x30\x1b\x43\x72\x01\x13\x43\x23\x58\x9b\x1d\x2a\xc6\x3b\xd3\
    \x10\xec\x1a\x68\xa3\xb3\xe1\x7c\x5e\xdf\x82\xec\xed\xd9\x9e\x8e";

// A root with a link to the node of four and one to the block 80, which is no node.
const OVER_FOUR_AND_NO_NODE: &[u8] = b"\x82\x41\x03\x82\xd8\x2a\x58\x27\x00\x01\x71\xa0\xe4\x02\x20\
    \x98\x4b\x16\x90\x90\xab\x0c\xc8\x3f\x10\x3a\x53\x76\x38\x80\xab\
    \x9c\x76\xe5\x1f\x87\xd1\x04\x46\xae\x60\x34\xc4\x06\xec\x59\x57\xd8\x2a\x58\x27\x00\x01\x71\xa0\xe4\x02\x20\
    \x45\xb0\xcf\xc2\x20\xce\xec\x5b\x7c\x1c\x62\xc4\xd4\x19\x3d\x38\
    \xe4\xeb\xa4\x8e\x88\x15\x72\x9c\xe7\x5f\x9c\x0a\xb0\xe4\xc1\xc0";

#[derive(Drop)]
pub(crate) struct TwoBlocks {
    pub(crate) first: Block,
    pub(crate) second: Block,
}

impl BlockSource for TwoBlocks {
    ghost use Rattle.std.specs.Prelude.{[], ◌∷◌};

    ghost blocks = { λ base. base.first ∷ base.second ∷ [] };

    fn find(&self, cid: &Cid) -> Option<&Block> {
        if self.first.cid() == cid {
            Some(&self.first)
        } else if self.second.cid() == cid {
            Some(&self.second)
        } else {
            None
        }
    }
}

pub(crate) fn block(rt: HostRuntime, bytes: &[u8]) -> Result<Block, Fail> {
    let bytes = Bytes::copy_of(rt.alloc(), bytes)?;
    Ok(Block::of(rt.alloc(), 0x71, bytes)?)
}

// The fault of the tree whose root is the first of two blocks.
fn load(rt: HostRuntime, first: &[u8], second: &[u8]) -> Result<Option<TreeFault>, Fail> {
    let base = TwoBlocks {
        first: block(rt, first)?,
        second: block(rt, second)?,
    };
    Ok(fault_of(Hamt::load(rt.alloc(), &base, base.first.cid())))
}

fn fault_of(answer: Result<Hamt, Failure<TreeFault>>) -> Option<TreeFault> {
    match answer {
        Err(Failure::Fault(fault)) => Some(fault),
        _ => None,
    }
}

fn is_missing(fault: &Option<TreeFault>, root: &Cid) -> bool {
    match fault {
        Some(TreeFault::Missing(cid)) => cid == root,
        _ => false,
    }
}

fn is_form(fault: &Option<TreeFault>, root: &Cid) -> bool {
    match fault {
        Some(TreeFault::Form(cid)) => cid == root,
        _ => false,
    }
}

fn is_not_canonical(fault: &Option<TreeFault>, root: &Cid, canonical: &Cid) -> bool {
    match fault {
        Some(TreeFault::NotCanonical(cid, other)) => cid == root && other == canonical,
        _ => false,
    }
}

#[test]
fn a_tree_loads(rt: HostRuntime) -> Result<(), Fail> {
    let base = TwoBlocks {
        first: block(rt, EMPTY)?,
        second: block(rt, EMPTY)?,
    };
    let tree = Hamt::load(rt.alloc(), &base, base.first.cid())
        .ok()
        .ok_or("no tree")?;
    assert!(rt; tree.get(&base, b"u")?.is_none());
    let base = TwoBlocks {
        first: block(rt, OVER_FOUR_AND_ONE)?,
        second: block(rt, FOUR)?,
    };
    let tree = Hamt::load(rt.alloc(), &base, base.first.cid())
        .ok()
        .ok_or("no tree")?;
    assert!(rt; matches!(tree.get(&base, b"fw")?, Some(Value::Int(5))));
    assert!(rt; matches!(tree.get(&base, b"u")?, Some(Value::Int(1))));
    assert!(rt; tree.get(&base, b"a")?.is_none());
    Ok(())
}

#[test]
fn a_missing_node_is_named(rt: HostRuntime) -> Result<(), Fail> {
    let base = TwoBlocks {
        first: block(rt, FOUR)?,
        second: block(rt, THREE)?,
    };
    let digest = Bytes::copy_of(rt.alloc(), &EMPTY_DIGEST)?;
    let root = Cid::new(1, 0x71, 0xb220, digest).ok_or("no CID")?;
    let fault = fault_of(Hamt::load(rt.alloc(), &base, &root));
    assert!(rt; is_missing(&fault, &root));
    Ok(())
}

// The first child is missing, and the second is no node.
#[test]
fn children_are_walked_in_order(rt: HostRuntime) -> Result<(), Fail> {
    let four = block(rt, FOUR)?;
    let fault = load(rt, OVER_FOUR_AND_NO_NODE, b"\x80")?;
    assert!(rt; is_missing(&fault, four.cid()));
    Ok(())
}

#[test]
fn other_forms_are_refused(rt: HostRuntime) -> Result<(), Fail> {
    let cases: [&[u8]; 6] = [
        b"\x80",
        b"\xff",
        b"\x82\x45\x00\x00\x00\x00\x00\x80",
        b"\x82\x41\x01\x80",
        b"\x82\x41\x01\x81\x00",
        b"\x82\x41\x01\x81\x81\x83\x41s\x02\x03",
    ];
    for bytes in cases {
        let root = block(rt, bytes)?;
        let fault = load(rt, bytes, EMPTY)?;
        assert!(rt; is_form(&fault, root.cid()));
    }
    Ok(())
}

// Each root is beside a node under it and the root that the pairs have.
#[test]
fn nodes_that_are_not_canonical_are_refused(rt: HostRuntime) -> Result<(), Fail> {
    let cases: [(&[u8], &[u8], &[u8]); 4] = [
        // a bucket that is not sorted
        (
            b"\x82\x41\x01\x81\x82\x82\x41s\x02\x82\x42bf\x03",
            EMPTY,
            b"\x82\x41\x01\x81\x82\x82\x42bf\x03\x82\x41s\x02",
        ),
        // a bucket of four on the first level
        (
            b"\x82\x41\x01\x81\x84\x82\x42bf\x03\x82\x42ff\x04\x82\x42fw\x05\x82\x41s\x02",
            EMPTY,
            OVER_FOUR,
        ),
        // a child with three pairs
        (
            OVER_THREE,
            THREE,
            b"\x82\x41\x01\x81\x83\x82\x42bf\x03\x82\x42ff\x04\x82\x42fw\x05",
        ),
        // a bit field that names another place
        (
            b"\x82\x41\x02\x81\x81\x82\x41s\x02",
            EMPTY,
            b"\x82\x41\x01\x81\x81\x82\x41s\x02",
        ),
    ];
    for (root, under, canonical) in cases {
        let root_block = block(rt, root)?;
        let canonical = block(rt, canonical)?;
        let fault = load(rt, root, under)?;
        assert!(rt; is_not_canonical(&fault, root_block.cid(), canonical.cid()));
    }
    Ok(())
}

// As above; the canonical roots are those of the pairs in Python.
#[test]
fn bit_fields_and_orders_are_judged(rt: HostRuntime) -> Result<(), Fail> {
    let cases: [(&[u8], &[u8]); 3] = [
        // a leading zero in the bit field
        (
            b"\x82\x42\x00\x01\x81\x81\x82\x41s\x02",
            b"\x82\x41\x01\x81\x81\x82\x41s\x02",
        ),
        // a key twice in a bucket
        (
            b"\x82\x41\x01\x81\x82\x82\x41s\x02\x82\x41s\x03",
            b"\x82\x41\x01\x81\x81\x82\x41s\x02",
        ),
        // places that fall
        (
            b"\x82\x41\x03\x82\x81\x82\x41u\x01\x81\x82\x41s\x02",
            b"\x82\x41\x03\x82\x81\x82\x41s\x02\x81\x82\x41u\x01",
        ),
    ];
    for (root, canonical) in cases {
        let root_block = block(rt, root)?;
        let canonical = block(rt, canonical)?;
        let fault = load(rt, root, EMPTY)?;
        assert!(rt; is_not_canonical(&fault, root_block.cid(), canonical.cid()));
    }
    Ok(())
}
