ghost use Rattle.dag_cbor.specs.Plain.{IsPlain};

use crate::amt::Amt;
use cid_core::{Block, BlockSource};
use dag_cbor::Value;
use fil_base::{Bytes, Cid};
use std::alloc::Global;
use std::test::Fail;

// The blocks were spelled by a reading of the format in Python, and their digests are `hashlib`'s BLAKE2b-256.
const EMPTY: [u8; 8] = [0x83, 0x00, 0x00, 0x83, 0x41, 0x00, 0x80, 0x80];

const EMPTY_DIGEST: [u8; 32] = [
    0xe5, 0x65, 0x8b, 0x3d, 0x18, 0xcd, 0x06, 0xe1, 0xdb, 0x90, 0x15, 0xb4, 0xb0, 0xec, 0x55, 0xc1,
    0x23, 0xa2, 0x4d, 0x5b, 0xe1, 0xea, 0x24, 0xd8, 0x39, 0x38, 0xc5, 0xb8, 0x39, 0x7b, 0x4f, 0x2f,
];

// The root of true at index 2.
const ONE: [u8; 9] = [0x83, 0x00, 0x01, 0x83, 0x41, 0x04, 0x80, 0x81, 0xf5];

// The nodes of true at index 0 and of false at index 9: two leaves, and a root with their links.
const FIRST: [u8; 6] = [0x83, 0x41, 0x01, 0x80, 0x81, 0xf5];

const SECOND: [u8; 6] = [0x83, 0x41, 0x02, 0x80, 0x81, 0xf4];

const TWO: [u8; 94] = [
    0x83, 0x01, 0x02, 0x83, 0x41, 0x03, 0x82, 0xd8, 0x2a, 0x58, 0x27, 0x00, 0x01, 0x71, 0xa0, 0xe4,
    0x02, 0x20, 0x23, 0x43, 0xef, 0x70, 0x8c, 0xfe, 0x66, 0x7d, 0x6a, 0xf0, 0x64, 0x90, 0x61, 0xa8,
    0x9b, 0x41, 0xd2, 0xad, 0xfb, 0x0b, 0x51, 0xcf, 0xa1, 0xae, 0x30, 0xe3, 0xe3, 0xf0, 0x89, 0xbd,
    0x7e, 0x72, 0xd8, 0x2a, 0x58, 0x27, 0x00, 0x01, 0x71, 0xa0, 0xe4, 0x02, 0x20, 0x4e, 0xd1, 0x9c,
    0xde, 0x67, 0x09, 0x17, 0xa7, 0x3f, 0x0e, 0x82, 0xab, 0x23, 0x86, 0x42, 0xd2, 0xa5, 0xd8, 0x57,
    0x9d, 0xfe, 0x03, 0x26, 0x55, 0x3e, 0x0b, 0x5d, 0x9b, 0x64, 0x67, 0x87, 0xc5, 0x80,
];

// The root of true at the greatest index. There are 19 nodes under it.
const GREATEST: [u8; 51] = [
    0x83, 0x13, 0x01, 0x83, 0x41, 0x80, 0x81, 0xd8, 0x2a, 0x58, 0x27, 0x00, 0x01, 0x71, 0xa0, 0xe4,
    0x02, 0x20, 0x90, 0xc2, 0xd6, 0x79, 0x05, 0x85, 0x60, 0xe8, 0x1b, 0xab, 0xc2, 0x19, 0xcc, 0xf5,
    0x35, 0x08, 0xb2, 0x17, 0x65, 0x52, 0x0b, 0x29, 0x6e, 0xd0, 0x50, 0xee, 0x3f, 0x49, 0xc1, 0x1f,
    0xf4, 0xd7, 0x80,
];

/// A base of one block, or of none.
#[derive(Drop)]
struct Base {
    held: Option<Block>,
}

impl BlockSource for Base {
    ghost use Rattle.std.specs.Option.{option_to_list};

    ghost blocks = { λ base. option_to_list base.held };

    fn find(&self, cid: &Cid) -> Option<&Block> {
        match &self.held {
            None => None,
            Some(block) => {
                if block.cid() == cid {
                    Some(block)
                } else {
                    None
                }
            }
        }
    }
}

#[tactic(auto, unfolding(dag_cbor::specs::Plain::IsPlain))]
fn truth(truth: bool) -> Value
    ensures { IsPlain 120 result }
{
    Value::Bool(truth)
}

#[test]
fn the_empty_map_has_one_node(rt: HostRuntime) -> Result<(), Fail> {
    let mut tree = Amt::empty(rt.alloc());
    let (root, nodes) = tree.flush(&Base { held: None })?;
    assert_eq!(rt; root.version(), 1);
    assert_eq!(rt; root.codec(), 0x71);
    assert_eq!(rt; root.hash(), 0xb220);
    assert_eq!(rt; root.digest(), EMPTY_DIGEST.as_slice());
    let nodes = nodes.into_vec();
    assert_eq!(rt; nodes.len(), 1);
    assert_eq!(rt; nodes[0].bytes(), EMPTY.as_slice());
    let bytes = Bytes::copy_of(rt.alloc(), &EMPTY)?;
    let held = Block::of(rt.alloc(), 0x71, bytes)?;
    let (_, nodes) = tree.flush(&Base { held: Some(held) })?;
    assert_eq!(rt; nodes.as_slice().len(), 0);
    Ok(())
}

#[test]
fn values_are_set_and_taken_away(rt: HostRuntime) -> Result<(), Fail> {
    let base = Base { held: None };
    let mut tree = Amt::empty(rt.alloc());
    assert!(rt; tree.set(&base, 9, truth(true))?.is_none());
    assert!(rt; matches!(tree.get(&base, 9)?, Some(Value::Bool(true))));
    assert!(rt; tree.get(&base, 1)?.is_none());
    tree.set(&base, 3, truth(false))?;
    let copy = tree.copy()?;
    let pairs = tree.pairs(&base)?.into_vec();
    assert_eq!(rt; pairs.len(), 2);
    assert_eq!(rt; pairs[0].0, 3);
    assert_eq!(rt; pairs[1].0, 9);
    assert!(rt; matches!(pairs[1].1, Value::Bool(true)));
    assert!(rt; matches!(tree.remove(&base, 9)?, Some(Value::Bool(true))));
    assert!(rt; tree.remove(&base, 9)?.is_none());
    assert_eq!(rt; copy.pairs(&base)?.as_slice().len(), 2);
    Ok(())
}

/// Puts a value behind a short list.
fn append(tree: &mut Amt, base: &Base, value: Value) -> Result<bool, Fail>
    requires { IsPlain 120 value }
{
    if tree.count() >= 1 << 60 {
        return Ok(false);
    }
    let old = tree.append(base, value)?;
    Ok(old.is_none())
}

#[test]
fn values_are_appended(rt: HostRuntime) -> Result<(), Fail> {
    let base = Base { held: None };
    let mut tree = Amt::empty(rt.alloc());
    assert!(rt; append(&mut tree, &base, truth(true))?);
    assert!(rt; append(&mut tree, &base, truth(false))?);
    assert_eq!(rt; tree.count(), 2);
    assert!(rt; matches!(tree.get(&base, 1)?, Some(Value::Bool(false))));
    Ok(())
}

#[test]
fn the_height_is_the_least_that_has_room(rt: HostRuntime) -> Result<(), Fail> {
    let base = Base { held: None };
    let mut tree = Amt::empty(rt.alloc());
    tree.set(&base, 2, truth(true))?;
    let (one, nodes) = tree.flush(&base)?;
    let nodes = nodes.into_vec();
    assert_eq!(rt; nodes.len(), 1);
    assert_eq!(rt; nodes[0].bytes(), ONE.as_slice());
    tree.set(&base, 1 << 20, truth(true))?;
    tree.remove(&base, 1 << 20)?;
    let (again, _) = tree.flush(&base)?;
    assert!(rt; again == one);
    Ok(())
}

#[test]
fn children_come_before_their_parent(rt: HostRuntime) -> Result<(), Fail> {
    let base = Base { held: None };
    let mut tree = Amt::empty(rt.alloc());
    tree.set(&base, 9, truth(false))?;
    tree.set(&base, 0, truth(true))?;
    let (_, nodes) = tree.flush(&base)?;
    let nodes = nodes.into_vec();
    assert_eq!(rt; nodes.len(), 3);
    assert_eq!(rt; nodes[0].bytes(), FIRST.as_slice());
    assert_eq!(rt; nodes[1].bytes(), SECOND.as_slice());
    assert_eq!(rt; nodes[2].bytes(), TWO.as_slice());
    Ok(())
}

#[test]
fn the_greatest_index_has_a_tree_of_twenty_levels(rt: HostRuntime) -> Result<(), Fail> {
    let base = Base { held: None };
    let mut tree = Amt::empty(rt.alloc());
    tree.set(&base, (1 << 60) - 1, truth(true))?;
    let (_, nodes) = tree.flush(&base)?;
    let nodes = nodes.into_vec();
    assert_eq!(rt; nodes.len(), 20);
    assert_eq!(rt; nodes[19].bytes(), GREATEST.as_slice());
    Ok(())
}
