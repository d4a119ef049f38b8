ghost use Rattle.std.specs.Prelude.{◌≡◌, All, Err, List, IfErr, IfOk, None, OnErr, OnOk};
ghost use Rattle.std.specs.FinMap.{empty, entries, get, insert, remove};
ghost use Rattle.cid_core.specs.BlockParts.{BlockParts};
ghost use Rattle.dag_cbor.specs.Plain.{IsPlain};
ghost use Rattle.fil_base.specs.Failure.{IfFault};
ghost use Rattle.hamt_map.specs.Holds.{Holds};
ghost use Rattle.hamt_map.specs.Kept.{IsUnder, over};
ghost use Rattle.hamt_map.specs.Node.{hamt_nodes, hamt_root};
ghost use Rattle.hamt_map.specs.Pairs.{Map};
ghost use Rattle.hamt_map.specs.Stands.{Stands};
ghost use Rattle.tree_blocks.specs.NewBlocks.{IsNodeBlock, new_blocks};
ghost use Rattle.hamt_map.specs.Walk.{hamt_at};

use crate::finding::kept_value;
use crate::loading::{BELOW_ROOT, judge_tree, put_tree};
use crate::nodes::all_nodes;
use crate::pairs::Spelled;
use crate::rebuilding::nodes_over;
use cid_core::{Block, BlockSource};
use dag_cbor::Value;
use fil_base::{Bytes, Cid, Failure, Mem, NoMemory, Row};
use std::alloc::Global;
use tree_blocks::{TreeFault as HamtFault, new_of};

/// A finite map from bytes to values of DAG-CBOR, as a tree with a canonical root.
///
/// In clauses, `Stands tree blocks m` says that the tree stands for the map `m` over a base that holds `blocks`.
#[derive(Drop)]
pub struct Hamt {
    alloc: Global,

    /// The root of a tree in the base, if there is one.
    root: Option<Cid>,

    /// The pairs that lie over those of that tree.
    pairs: Spelled,
}

#[tactic(auto, unfolding(crate::specs::Stands::Stands))]
impl Hamt {
    /// The tree of no pairs.
    pub fn empty(alloc: Global) -> Hamt
        ensures { (blocks : List BlockParts) → Stands result blocks empty }
    {
        Hamt {
            alloc,
            root: None,
            pairs: Spelled::empty(alloc),
        }
    }

    /// A tree of the same map.
    pub fn copy(&self) -> Mem<Hamt>
        ensures { (blocks : List BlockParts) (m : Map) → Stands self.now blocks m
            → IfOk result (λ copy. Stands copy blocks m) }
    {
        let root = copy_of(self.alloc, &self.root)?;
        let pairs = self.pairs.copy()?;
        Ok(Hamt {
            alloc: self.alloc,
            root,
            pairs,
        })
    }

    /// The tree under a root, whose nodes are all in the base. It walks the whole tree, and keeps the root alone.
    pub fn load<B: BlockSource>(
        alloc: Global,
        base: &B,
        root: &Cid,
    ) -> Result<Hamt, Failure<HamtFault>>
        ensures found { IfOk result (λ tree.
            (m : Map) × (hamt_at (B.blocks base.now) root.now ≡ Ok m) × Stands tree (B.blocks base.now) m) }
        ensures fault { IfErr result (λ failure. IfFault failure (λ fault.
            hamt_at (B.blocks base.now) root.now ≡ Err fault)) }
    {
        match judge_tree(alloc, base, root)? {
            None => {
                let root = root.copy(alloc)?;
                Ok(Hamt {
                    alloc,
                    root: Some(root),
                    pairs: Spelled::empty(alloc),
                })
            }
            Some(pairs) => Ok(Hamt {
                alloc,
                root: None,
                pairs,
            }),
        }
    }

    /// The value of a key.
    pub fn get<B: BlockSource>(&self, base: &B, key: &[u8]) -> Mem<Option<Value>>
        ensures { (m : Map) → Stands self.now (B.blocks base.now) m → IfOk result (λ value. value ≡ get m key.now) }
    {
        match self.pairs.get(self.alloc, key)? {
            Some(value) => Ok(Some(value)),
            None => self.get_under(base, key),
        }
    }

    /// The value of a key in the tree under the root.
    fn get_under<B: BlockSource>(&self, base: &B, key: &[u8]) -> Mem<Option<Value>>
        ensures { (kept : Map) → IsUnder (B.blocks base.now) self.now.root kept
            → IfOk result (λ value. value ≡ get kept key.now) }
    {
        match &self.root {
            None => Ok(None),
            Some(root) => kept_value(self.alloc, base, root, key),
        }
    }

    /// Gives a key a value, and answers the old one.
    pub fn set<B: BlockSource>(&mut self, base: &B, key: &[u8], value: Value) -> Mem<Option<Value>>
        requires plain { IsPlain 120 value }
        ensures old { (m : Map) → Stands self.old (B.blocks base.now) m → IfOk result (λ old. old ≡ get m key.now) }
        ensures after { (m : Map) → Stands self.old (B.blocks base.now) m
            → OnOk result (Stands self.new (B.blocks base.now) (insert m key.now value)) }
        ensures unchanged { (m : Map) → Stands self.old (B.blocks base.now) m
            → OnErr result (Stands self.new (B.blocks base.now) m) }
    {
        self.replace(base, key, &value)
    }

    /// Gives a key a value, and answers the old one.
    fn replace<B: BlockSource>(&mut self, base: &B, key: &[u8], value: &Value) -> Mem<Option<Value>>
        requires plain { IsPlain 120 value.now }
        ensures old { (m : Map) → Stands self.old (B.blocks base.now) m → IfOk result (λ old. old ≡ get m key.now) }
        ensures after { (m : Map) → Stands self.old (B.blocks base.now) m
            → OnOk result (Stands self.new (B.blocks base.now) (insert m key.now value.now)) }
        ensures unchanged { (m : Map) → Stands self.old (B.blocks base.now) m
            → OnErr result (Stands self.new (B.blocks base.now) m) }
    {
        match &self.root {
            None => self.pairs.insert(self.alloc, key, value),
            Some(_) => self.replace_over(base, key, value),
        }
    }

    /// Likewise, where the old value may be that of the tree under the root.
    fn replace_over<B: BlockSource>(
        &mut self,
        base: &B,
        key: &[u8],
        value: &Value,
    ) -> Mem<Option<Value>>
        requires plain { IsPlain 120 value.now }
        ensures old { (m : Map) → Stands self.old (B.blocks base.now) m → IfOk result (λ old. old ≡ get m key.now) }
        ensures after { (m : Map) → Stands self.old (B.blocks base.now) m
            → OnOk result (Stands self.new (B.blocks base.now) (insert m key.now value.now)) }
        ensures unchanged { (m : Map) → Stands self.old (B.blocks base.now) m
            → OnErr result (Stands self.new (B.blocks base.now) m) }
    {
        let old = self.get(base, key)?;
        self.pairs.set(self.alloc, key, value)?;
        Ok(old)
    }

    /// Gives a key a value. It reads no node, as [`set`](Hamt::set) does for the old value.
    pub fn put(&mut self, key: &[u8], value: Value) -> Mem<()>
        requires plain { IsPlain 120 value }
        ensures after { (blocks : List BlockParts) (m : Map) → Stands self.old blocks m
            → OnOk result (Stands self.new blocks (insert m key.now value)) }
        ensures unchanged { (blocks : List BlockParts) (m : Map) → Stands self.old blocks m
            → OnErr result (Stands self.new blocks m) }
    {
        self.pairs.set(self.alloc, key, &value)
    }

    /// Takes a key away, and answers its old value. Where the tree under the root may have the key, that tree's pairs are
    /// all taken into memory.
    pub fn remove<B: BlockSource>(&mut self, base: &B, key: &[u8]) -> Mem<Option<Value>>
        ensures old { (m : Map) → Stands self.old (B.blocks base.now) m → IfOk result (λ old. old ≡ get m key.now) }
        ensures after { (m : Map) → Stands self.old (B.blocks base.now) m
            → OnOk result (Stands self.new (B.blocks base.now) (remove m key.now)) }
        ensures unchanged { (m : Map) → Stands self.old (B.blocks base.now) m
            → OnErr result (Stands self.new (B.blocks base.now) m) }
    {
        let old = self.get(base, key)?;
        match old {
            None => Ok(None),
            Some(value) => {
                self.forget(base, key)?;
                Ok(Some(value))
            }
        }
    }

    /// Takes a key away.
    fn forget<B: BlockSource>(&mut self, base: &B, key: &[u8]) -> Mem<()>
        ensures after { (m : Map) → Stands self.old (B.blocks base.now) m
            → OnOk result (Stands self.new (B.blocks base.now) (remove m key.now)) }
        ensures unchanged { (m : Map) → Stands self.old (B.blocks base.now) m
            → OnErr result (Stands self.new (B.blocks base.now) m) }
    {
        self.take_in(base)?;
        self.pairs.remove(key);
        Ok(())
    }

    /// Takes the pairs of the tree under the root into memory.
    fn take_in<B: BlockSource>(&mut self, base: &B) -> Mem<()>
        ensures root { OnOk result (self.new.root ≡ None) }
        ensures pairs { (m : Map) → Stands self.old (B.blocks base.now) m → OnOk result (Holds self.new.pairs m) }
        ensures unchanged { OnErr result (self.new ≡ self.old) }
    {
        match &self.root {
            None => Ok(()),
            Some(_) => {
                let whole = self.whole(base)?;
                self.pairs = whole;
                self.root = None;
                Ok(())
            }
        }
    }

    /// The pairs of the map.
    fn whole<B: BlockSource>(&self, base: &B) -> Mem<Spelled>
        ensures { (m : Map) → Stands self.now (B.blocks base.now) m → IfOk result (λ pairs. Holds pairs m) }
    {
        match &self.root {
            None => self.pairs.copy(),
            Some(root) => self.whole_over(base, root),
        }
    }

    /// The pairs of the map, where there is a tree under this root.
    fn whole_over<B: BlockSource>(&self, base: &B, root: &Cid) -> Mem<Spelled>
        ensures { (own kept : Map) → Holds self.now.pairs own → (hamt_at (B.blocks base.now) root.now ≡ Ok kept)
            → IfOk result (λ pairs. Holds pairs (over own kept)) }
    {
        let mut leaves = Vec::new(self.alloc);
        self.pairs.put_leaves(&mut leaves)?;
        match put_tree(self.alloc, base, &mut leaves, BELOW_ROOT, root) {
            Ok(_) => Spelled::of_leaves(self.alloc, leaves.as_slice()),
            Err(_) => Err(NoMemory),
        }
    }

    /// All pairs, by rising key.
    pub fn pairs<B: BlockSource>(&self, base: &B) -> Mem<Row<(Bytes, Value)>>
        ensures { (m : Map) → Stands self.now (B.blocks base.now) m → IfOk result (λ pairs. pairs ≡ entries m) }
    {
        let whole = self.whole(base)?;
        let pairs = whole.decoded(self.alloc)?;
        Ok(Row::of(pairs))
    }

    /// The canonical root, and the nodes of the tree that the base does not hold, each once: children before parents,
    /// by rising place. Of a tree that was loaded only the nodes are made below which a pair was set.
    pub fn flush<B: BlockSource>(&mut self, base: &B) -> Mem<(Cid, Row<Block>)>
        ensures root { (m : Map) → Stands self.old (B.blocks base.now) m → IfOk result (λ r. r.0 ≡ hamt_root m) }
        ensures nodes { (m : Map) → Stands self.old (B.blocks base.now) m
            → IfOk result (λ r. r.1 ≡ new_blocks (B.blocks base.now) (hamt_nodes m)) }
        ensures after { (m : Map) → Stands self.old (B.blocks base.now) m → Stands self.new (B.blocks base.now) m }
    {
        let (root, nodes) = self.made(base)?;
        let new = new_of(self.alloc, base, nodes)?;
        Ok((root, new))
    }

    /// The canonical root, and the nodes of the tree but for some that the base holds.
    fn made<B: BlockSource>(&self, base: &B) -> Mem<(Cid, Vec<Block>)>
        ensures root { (m : Map) → Stands self.now (B.blocks base.now) m → IfOk result (λ r. r.0 ≡ hamt_root m) }
        ensures nodes { (m : Map) → Stands self.now (B.blocks base.now) m
            → IfOk result (λ r. new_blocks (B.blocks base.now) r.1.items ≡ new_blocks (B.blocks base.now) (hamt_nodes m)) }
        ensures cids { IfOk result (λ r. All IsNodeBlock r.1.items) }
    {
        match &self.root {
            None => all_nodes(self.alloc, &self.pairs),
            Some(root) => nodes_over(self.alloc, base, root, &self.pairs),
        }
    }
}

/// The same CID, if there is one.
fn copy_of(alloc: Global, root: &Option<Cid>) -> Mem<Option<Cid>>
    ensures { IfOk result (λ copy. copy ≡ root.now) }
{
    match root {
        None => Ok(None),
        Some(root) => {
            let root = root.copy(alloc)?;
            Ok(Some(root))
        }
    }
}
