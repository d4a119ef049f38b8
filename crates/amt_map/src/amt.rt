ghost use Rattle.std.specs.Prelude.{◌≡◌, ◌<◌, ◌^◌, List, IfErr, IfOk, OnErr, OnOk, length};
ghost use Rattle.std.specs.FinMap.{empty, entries, get, insert, remove};
ghost use Rattle.cid_core.specs.BlockParts.{BlockParts};
ghost use Rattle.dag_cbor.specs.Plain.{IsPlain};
ghost use Rattle.fil_base.specs.Failure.{IfFault};
ghost use Rattle.tree_blocks.specs.NewBlocks.{new_blocks};
ghost use Rattle.amt_map.specs.Node.{amt_nodes, amt_root};
ghost use Rattle.amt_map.specs.Pairs.{Map};
ghost use Rattle.amt_map.specs.Stands.{Stands};
ghost use Rattle.amt_map.specs.Walk.{amt_at};

use crate::loading::load_pairs;
use crate::nodes::all_nodes;
use crate::pairs::Spelled;
use cid_core::{Block, BlockSource};
use dag_cbor::Value;
use fil_base::{Cid, Failure, Mem, Row};
use std::alloc::Global;
use tree_blocks::{TreeFault as AmtFault, new_of};

/// A finite map from indexes below 2^60 to values of DAG-CBOR, as a tree with a canonical root.
///
/// In clauses, `Stands tree blocks m` says that the tree stands for the map `m` over a base that holds `blocks`.
#[derive(Drop)]
pub struct Amt {
    alloc: Global,
    pairs: Spelled,
}

#[tactic(auto, unfolding(crate::specs::Stands::Stands))]
impl Amt {
    /// The tree of no pairs.
    pub fn empty(alloc: Global) -> Amt
        ensures { (blocks : List BlockParts) → Stands result blocks empty }
    {
        Amt {
            alloc,
            pairs: Spelled::empty(alloc),
        }
    }

    /// A tree of the same map.
    pub fn copy(&self) -> Mem<Amt>
        ensures { (blocks : List BlockParts) (m : Map) → Stands self.now blocks m
            → IfOk result (λ copy. Stands copy blocks m) }
    {
        let pairs = self.pairs.copy()?;
        Ok(Amt {
            alloc: self.alloc,
            pairs,
        })
    }

    /// The tree under a root, whose nodes are all in the base. It walks the whole tree.
    pub fn load<B: BlockSource>(
        alloc: Global,
        base: &B,
        root: &Cid,
    ) -> Result<Amt, Failure<AmtFault>>
        ensures found { IfOk result (λ tree.
            (m : Map) × (amt_at (B.blocks base.now) root.now ≡ Ok m) × Stands tree (B.blocks base.now) m) }
        ensures fault { IfErr result (λ failure. IfFault failure (λ fault.
            amt_at (B.blocks base.now) root.now ≡ Err fault)) }
    {
        let pairs = load_pairs(alloc, base, root)?;
        Ok(Amt { alloc, pairs })
    }

    /// How many pairs there are.
    pub fn count(&self) -> u64
        ensures { (blocks : List BlockParts)
            → (m : Map) × Stands self.now blocks m × (result ≡ length (entries m)) }
    {
        self.pairs.count()
    }

    /// The value at an index.
    pub fn get<B: BlockSource>(&self, base: &B, index: u64) -> Mem<Option<Value>>
        requires { index < 2 ^ 60 }
        ensures { (m : Map) → Stands self.now (B.blocks base.now) m → IfOk result (λ value. value ≡ get m index) }
    {
        self.pairs.get(self.alloc, index)
    }

    /// Puts a value at an index, and answers the old one.
    pub fn set<B: BlockSource>(&mut self, base: &B, index: u64, value: Value) -> Mem<Option<Value>>
        requires index { index < 2 ^ 60 }
        requires plain { IsPlain 120 value }
        ensures old { (m : Map) → Stands self.old (B.blocks base.now) m → IfOk result (λ old. old ≡ get m index) }
        ensures after { (m : Map) → Stands self.old (B.blocks base.now) m
            → OnOk result (Stands self.new (B.blocks base.now) (insert m index value)) }
        ensures unchanged { (m : Map) → Stands self.old (B.blocks base.now) m
            → OnErr result (Stands self.new (B.blocks base.now) m) }
    {
        self.pairs.insert(self.alloc, index, &value)
    }

    /// Puts a value at the index that is the count of the pairs, and answers the old one.
    pub fn append<B: BlockSource>(&mut self, base: &B, value: Value) -> Mem<Option<Value>>
        requires count { (m : Map) × Stands self.old (B.blocks base.now) m × length (entries m) < 2 ^ 60 }
        requires plain { IsPlain 120 value }
        ensures old { (m : Map) → Stands self.old (B.blocks base.now) m
            → IfOk result (λ old. old ≡ get m (length (entries m))) }
        ensures after { (m : Map) → Stands self.old (B.blocks base.now) m
            → OnOk result (Stands self.new (B.blocks base.now) (insert m (length (entries m)) value)) }
        ensures unchanged { (m : Map) → Stands self.old (B.blocks base.now) m
            → OnErr result (Stands self.new (B.blocks base.now) m) }
    {
        let count = self.pairs.count();
        self.set(base, count, value)
    }

    /// Takes the value at an index away, and answers it.
    pub fn remove<B: BlockSource>(&mut self, base: &B, index: u64) -> Mem<Option<Value>>
        requires { index < 2 ^ 60 }
        ensures old { (m : Map) → Stands self.old (B.blocks base.now) m → IfOk result (λ old. old ≡ get m index) }
        ensures after { (m : Map) → Stands self.old (B.blocks base.now) m
            → OnOk result (Stands self.new (B.blocks base.now) (remove m index)) }
        ensures unchanged { (m : Map) → Stands self.old (B.blocks base.now) m
            → OnErr result (Stands self.new (B.blocks base.now) m) }
    {
        let old = self.pairs.get(self.alloc, index)?;
        self.pairs.remove(index);
        Ok(old)
    }

    /// All pairs, by rising index.
    pub fn pairs<B: BlockSource>(&self, base: &B) -> Mem<Row<(u64, Value)>>
        ensures { (m : Map) → Stands self.now (B.blocks base.now) m → IfOk result (λ pairs. pairs ≡ entries m) }
    {
        let pairs = self.pairs.decoded(self.alloc)?;
        Ok(Row::of(pairs))
    }

    /// The canonical root, and the nodes of the tree that the base does not hold, each once: children before parents,
    /// by rising digit.
    pub fn flush<B: BlockSource>(&mut self, base: &B) -> Mem<(Cid, Row<Block>)>
        ensures root { (m : Map) → Stands self.old (B.blocks base.now) m → IfOk result (λ r. r.0 ≡ amt_root m) }
        ensures nodes { (m : Map) → Stands self.old (B.blocks base.now) m
            → IfOk result (λ r. r.1 ≡ new_blocks (B.blocks base.now) (amt_nodes m)) }
        ensures after { (m : Map) → Stands self.old (B.blocks base.now) m → Stands self.new (B.blocks base.now) m }
    {
        let (root, nodes) = all_nodes(self.alloc, &self.pairs)?;
        let new = new_of(self.alloc, base, nodes)?;
        Ok((root, new))
    }
}
