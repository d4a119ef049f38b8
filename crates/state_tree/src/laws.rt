ghost use Rattle.std.specs.Prelude.{◌≡◌, List};
ghost use Rattle.cid_core.specs.BlockParts.{BlockParts};
ghost use Rattle.fil_base.specs.CidParts.{CidParts};
ghost use Rattle.state_tree.specs.Actors.{Actors};
ghost use Rattle.state_tree.specs.Stands.{Stands};
ghost use Rattle.state_tree.specs.declared.state_tree.StateTree.{StateTree};

use hamt_map::one_map;

/// A law, with no code: a tree stands for one state at most.
pub fn one_state()
    ensures { (tree : StateTree) (blocks : List BlockParts) (a b : Actors) (i j : CidParts)
        → Stands tree blocks a i → Stands tree blocks b j → (a ≡ b) × (i ≡ j) }
{
    one_map();
}
