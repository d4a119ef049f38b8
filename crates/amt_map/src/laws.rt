ghost use Rattle.std.specs.Prelude.{◌≡◌, ◌≢◌, List, ℕ};
ghost use Rattle.std.specs.FinMap.{insert};
ghost use Rattle.cid_core.specs.BlockParts.{BlockParts};
ghost use Rattle.dag_cbor.specs.declared.value.Value.{Value};
ghost use Rattle.amt_map.specs.declared.amt.Amt.{Amt};
ghost use Rattle.amt_map.specs.Node.{amt_root};
ghost use Rattle.amt_map.specs.Pairs.{Map};
ghost use Rattle.amt_map.specs.Stands.{Stands};

/// A law, with no code: a tree stands for one map at most.
pub fn one_map()
    ensures { (tree : Amt) (blocks : List BlockParts) (m n : Map)
        → Stands tree blocks m → Stands tree blocks n → m ≡ n }
{}

/// A law, with no code: the root does not depend on the order in which indexes are given their values.
pub fn one_order()
    ensures map { (m : Map) (a b : ℕ) (x y : Value) → a ≢ b
        → insert (insert m a x) b y ≡ insert (insert m b y) a x }
    ensures root { (m : Map) (a b : ℕ) (x y : Value) → a ≢ b
        → amt_root (insert (insert m a x) b y) ≡ amt_root (insert (insert m b y) a x) }
{}
