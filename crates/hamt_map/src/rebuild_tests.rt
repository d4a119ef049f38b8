ghost use Rattle.dag_cbor.specs.Plain.{IsPlain};

use crate::nodes::all_nodes;
use crate::pairs::Spelled;
use crate::rebuilding::nodes_over;
use cid_core::{Block, BlockSource};
use dag_cbor::Value;
use fil_base::{Cid, Mem};
use std::alloc::Global;
use std::test::Fail;

// The SHA2-256 of each of these keys begins with the bits 01101, and that of `u` with 00001.
const KEYS: [&[u8]; 4] = [b"*", b"1", b"C", b"J"];

/// A base of a root and of the one node under it.
#[derive(Drop)]
struct TwoNodes {
    child: Block,
    root: Block,
}

impl BlockSource for TwoNodes {
    ghost use Rattle.std.specs.Prelude.{[], ◌∷◌};

    ghost blocks = { λ base. base.child ∷ base.root ∷ [] };

    fn find(&self, cid: &Cid) -> Option<&Block> {
        if self.child.cid() == cid {
            Some(&self.child)
        } else if self.root.cid() == cid {
            Some(&self.root)
        } else {
            None
        }
    }
}

#[tactic(auto, unfolding(dag_cbor::specs::Plain::IsPlain))]
fn null() -> Value
    ensures { IsPlain 124 result }
{
    Value::Null
}

/// Keys, each with the value null.
fn pairs_of(alloc: Global, keys: &[&[u8]]) -> Mem<Spelled> {
    let mut pairs = Spelled::empty(alloc);
    for key in keys {
        pairs.insert(alloc, key, &null())?;
    }
    Ok(pairs)
}

/// The base of the tree of four keys that have one place.
fn base_of(alloc: Global) -> Result<TwoNodes, Fail> {
    let pairs = pairs_of(alloc, &KEYS)?;
    let (_, mut nodes) = all_nodes(alloc, &pairs)?;
    let root = nodes.pop().ok_or("no root")?;
    let child = nodes.pop().ok_or("no child")?;
    Ok(TwoNodes { child, root })
}

/// How many nodes are put for a key over four, and their root.
fn put(alloc: Global, base: &TwoNodes, key: &[u8]) -> Mem<(usize, Cid)> {
    let own = pairs_of(alloc, &[key])?;
    let (root, nodes) = nodes_over(alloc, base, base.root.cid(), &own)?;
    Ok((nodes.len(), root))
}

#[test]
fn a_node_that_no_key_touches_is_left_out(rt: HostRuntime) -> Result<(), Fail> {
    let base = base_of(rt.alloc())?;
    let (count, root) = put(rt.alloc(), &base, b"u")?;
    assert_eq!(rt; count, 1);
    let five = pairs_of(rt.alloc(), &[b"*", b"1", b"C", b"J", b"u"])?;
    let (wanted, _) = all_nodes(rt.alloc(), &five)?;
    assert!(rt; root == wanted);
    Ok(())
}

#[test]
fn nodes_on_the_path_of_a_key_are_put(rt: HostRuntime) -> Result<(), Fail> {
    let base = base_of(rt.alloc())?;
    let (count, root) = put(rt.alloc(), &base, b"C")?;
    assert_eq!(rt; count, 2);
    assert!(rt; root == *base.root.cid());
    Ok(())
}
