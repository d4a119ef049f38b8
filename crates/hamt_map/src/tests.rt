ghost use Rattle.dag_cbor.specs.Plain.{IsPlain};

use crate::hamt::Hamt;
use cid_core::{Block, BlockSource};
use dag_cbor::Value;
use fil_base::{Bytes, Cid};
use std::alloc::Global;
use std::test::Fail;

// The blocks were spelled by hand in Python, and their digests are `hashlib`'s BLAKE2b-256. The SHA2-256 of each of the
// keys begins with the bits 01101, and the next five bits differ.
const KEYS: [&[u8]; 4] = [b"*", b"1", b"C", b"J"];

const EMPTY: [u8; 3] = [0x82, 0x40, 0x80];

const EMPTY_DIGEST: [u8; 32] = [
    0x18, 0xfe, 0x6a, 0xcc, 0x61, 0xa3, 0xa3, 0x6b, 0x0c, 0x37, 0x3c, 0x4a, 0x3a, 0x8e, 0xa6, 0x4b,
    0x81, 0x2b, 0xf2, 0xca, 0x9b, 0x52, 0x80, 0x50, 0x90, 0x9c, 0x78, 0xd4, 0x08, 0x55, 0x8a, 0x0c,
];

// The node of the first three keys: one bucket, at place 13.
const THREE: [u8; 18] = [
    0x82, 0x42, 0x20, 0x00, 0x81, 0x83, 0x82, 0x41, 0x2a, 0xf5, 0x82, 0x41, 0x31, 0xf4, 0x82, 0x41,
    0x43, 0xf5,
];

// The nodes of all four keys: four buckets of one pair on level 2, and a root with one link.
const BELOW: [u8; 26] = [
    0x82, 0x43, 0x40, 0x50, 0x02, 0x84, 0x81, 0x82, 0x41, 0x2a, 0xf5, 0x81, 0x82, 0x41, 0x43, 0xf5,
    0x81, 0x82, 0x41, 0x31, 0xf4, 0x81, 0x82, 0x41, 0x4a, 0xf4,
];

const FOUR: [u8; 48] = [
    0x82, 0x42, 0x20, 0x00, 0x81, 0xd8, 0x2a, 0x58, 0x27, 0x00, 0x01, 0x71, 0xa0, 0xe4, 0x02, 0x20,
    0xfc, 0xa1, 0x79, 0x9f, 0xd9, 0xf6, 0x7f, 0xc8, 0x0e, 0x90, 0x43, 0x14, 0xaf, 0x5c, 0x82, 0x0c,
    0x60, 0x7c, 0xf6, 0xb7, 0x46, 0xb7, 0x9f, 0x28, 0x23, 0x88, 0xc4, 0x03, 0x43, 0x6f, 0x84, 0x18,
];

/// A base of one block, or of none.
#[derive(Drop)]
struct Base {
    held: Option<Block>,
}

impl BlockSource for Base {
    ghost use Rattle.std.specs.Option.{option_to_list};

    ghost blocks = { λ base. option_to_list base.held };

    fn find(&self, cid: &Cid) -> Option<&Block> {
        match &self.held {
            None => None,
            Some(block) => {
                if block.cid() == cid {
                    Some(block)
                } else {
                    None
                }
            }
        }
    }
}

#[tactic(auto, unfolding(dag_cbor::specs::Plain::IsPlain))]
fn truth(truth: bool) -> Value
    ensures { IsPlain 120 result }
{
    Value::Bool(truth)
}

/// The tree of so many of the keys, which are given true and false in turn.
fn tree_of(alloc: Global, base: &Base, count: usize) -> Result<Hamt, Fail> {
    let mut tree = Hamt::empty(alloc);
    for (i, key) in KEYS.iter().take(count).enumerate() {
        tree.set(base, key, truth(i % 2 == 0))?;
    }
    Ok(tree)
}

#[test]
fn the_empty_map_has_one_node(rt: HostRuntime) -> Result<(), Fail> {
    let mut tree = Hamt::empty(rt.alloc());
    let (root, nodes) = tree.flush(&Base { held: None })?;
    assert_eq!(rt; root.version(), 1);
    assert_eq!(rt; root.codec(), 0x71);
    assert_eq!(rt; root.hash(), 0xb220);
    assert_eq!(rt; root.digest(), EMPTY_DIGEST.as_slice());
    let nodes = nodes.into_vec();
    assert_eq!(rt; nodes.len(), 1);
    assert_eq!(rt; nodes[0].bytes(), EMPTY.as_slice());
    let bytes = Bytes::copy_of(rt.alloc(), &EMPTY)?;
    let held = Block::of(rt.alloc(), 0x71, bytes)?;
    let (_, nodes) = tree.flush(&Base { held: Some(held) })?;
    assert_eq!(rt; nodes.as_slice().len(), 0);
    Ok(())
}

#[test]
fn values_are_set_and_taken_away(rt: HostRuntime) -> Result<(), Fail> {
    let base = Base { held: None };
    let mut tree = tree_of(rt.alloc(), &base, 2)?;
    assert!(rt; matches!(tree.get(&base, b"*")?, Some(Value::Bool(true))));
    assert!(rt; tree.get(&base, b"C")?.is_none());
    assert!(rt; tree.set(&base, b"C", truth(true))?.is_none());
    let copy = tree.copy()?;
    assert!(rt;
        matches!(
            tree.set(&base, b"*", truth(false))?,
            Some(Value::Bool(true))
        )
    );
    assert!(rt; matches!(tree.remove(&base, b"1")?, Some(Value::Bool(false))));
    assert!(rt; tree.remove(&base, b"1")?.is_none());
    let pairs = tree.pairs(&base)?.into_vec();
    assert_eq!(rt; pairs.len(), 2);
    assert_eq!(rt; pairs[0].0.as_slice(), b"*".as_slice());
    assert!(rt; matches!(pairs[0].1, Value::Bool(false)));
    assert_eq!(rt; pairs[1].0.as_slice(), b"C".as_slice());
    assert_eq!(rt; copy.pairs(&base)?.as_slice().len(), 3);
    Ok(())
}

#[test]
fn four_pairs_at_a_place_get_a_node(rt: HostRuntime) -> Result<(), Fail> {
    let base = Base { held: None };
    let mut tree = tree_of(rt.alloc(), &base, 3)?;
    let (three, nodes) = tree.flush(&base)?;
    let nodes = nodes.into_vec();
    assert_eq!(rt; nodes.len(), 1);
    assert_eq!(rt; nodes[0].bytes(), THREE.as_slice());
    tree.set(&base, b"J", truth(false))?;
    let (_, nodes) = tree.flush(&base)?;
    let nodes = nodes.into_vec();
    assert_eq!(rt; nodes.len(), 2);
    assert_eq!(rt; nodes[0].bytes(), BELOW.as_slice());
    assert_eq!(rt; nodes[1].bytes(), FOUR.as_slice());
    tree.remove(&base, b"J")?;
    let (again, _) = tree.flush(&base)?;
    assert!(rt; again == three);
    Ok(())
}

// The digest of the root of the keys of one byte below 100, which are given true and false in turn.
const HUNDRED_DIGEST: [u8; 32] = [
    0xa6, 0x57, 0xd9, 0x77, 0xf5, 0xf2, 0xcb, 0x03, 0x36, 0x78, 0xc3, 0x6c, 0xbb, 0x06, 0x59, 0x59,
    0x32, 0xf7, 0x7f, 0xe5, 0xa2, 0xf0, 0x82, 0x0c, 0xec, 0xf6, 0x77, 0x92, 0x37, 0x2d, 0x8a, 0x4b,
];

#[test]
fn a_hundred_pairs_have_eleven_nodes_under_the_root(rt: HostRuntime) -> Result<(), Fail> {
    let base = Base { held: None };
    let mut tree = Hamt::empty(rt.alloc());
    for i in 0..100u8 {
        tree.set(&base, &[i], truth(i % 2 == 0))?;
    }
    let (root, nodes) = tree.flush(&base)?;
    assert_eq!(rt; root.digest(), HUNDRED_DIGEST.as_slice());
    assert_eq!(rt; nodes.as_slice().len(), 12);
    Ok(())
}
