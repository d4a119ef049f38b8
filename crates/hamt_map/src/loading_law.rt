ghost use Rattle.std.specs.Prelude.{◌≡◌, ◌<◌, ◌^◌, All, List, length};
ghost use Rattle.std.specs.FinMap.{entries};
ghost use Rattle.std.specs.declared.option.Option.TheVariants.{Some};
ghost use Rattle.std.specs.declared.result.Result.TheVariants.{Ok};
ghost use Rattle.cid_core.specs.BlockParts.{BlockParts, found};
ghost use Rattle.hamt_map.specs.Holds.{FitNodes};
ghost use Rattle.hamt_map.specs.Node.{hamt_nodes, hamt_root};
ghost use Rattle.hamt_map.specs.Pairs.{Map};
ghost use Rattle.hamt_map.specs.Walk.{hamt_at};

/// A law, with no code: a tree whose nodes are all there is loaded as its map, if its keys, its values and their number
/// have a spelling.
pub fn loaded_again()
    ensures { (blocks : List BlockParts) (m : Map)
        → FitNodes (entries m) → All (λ p. length p.0 < 2 ^ 64) (entries m) → length (entries m) < 2 ^ 64
        → All (λ b. found blocks b.cid ≡ Some b) (hamt_nodes m)
        → hamt_at blocks (hamt_root m) ≡ Ok m }
{}
