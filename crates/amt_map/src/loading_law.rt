ghost use Rattle.std.specs.Prelude.{◌≡◌, All, List, Ok, Some};
ghost use Rattle.std.specs.FinMap.{entries};
ghost use Rattle.cid_core.specs.BlockParts.{BlockParts, found};
ghost use Rattle.amt_map.specs.Holds.{FitRoot};
ghost use Rattle.amt_map.specs.Node.{amt_nodes, amt_root};
ghost use Rattle.amt_map.specs.Pairs.{Map};
ghost use Rattle.amt_map.specs.Walk.{amt_at};

/// A law, with no code: the root that flushing gives loads as the map, over a base that has all its nodes.
pub fn loaded_again()
    ensures { (m : Map) (blocks : List BlockParts) → FitRoot (entries m)
        → All (λ b. found blocks b.cid ≡ Some b) (amt_nodes m) → amt_at blocks (amt_root m) ≡ Ok m }
{}
