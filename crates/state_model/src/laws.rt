ghost use Rattle.std.specs.Prelude.{◌≡◌, All, List};
ghost use Rattle.std.specs.declared.option.Option.TheVariants.{Some};
ghost use Rattle.std.specs.declared.result.Result.TheVariants.{Ok};
ghost use Rattle.cid_core.specs.BlockParts.{BlockParts, found};
ghost use Rattle.gas_prices.specs.declared.rules.Codes.{Codes};
ghost use Rattle.state_model.specs.State.{HaveCount, IsState, State, flushed, state_nodes, state_root};
ghost use Rattle.state_model.specs.StateAt.{state_at};
ghost use Rattle.state_tree.specs.Reading.{with_own_actors};

/// A law, with no code: a state whose blocks are all there is loaded as it was flushed, with nothing made, minted or
/// burned.
pub fn a_flushed_state_loads()
    ensures { (blocks : List BlockParts) (s : State) (codes : Codes)
        → IsState s → HaveCount s → with_own_actors codes s.actors ≡ Ok s.actors
        → All (λ b. found blocks b.cid ≡ Some b) (state_nodes s)
        → state_at blocks (state_root s) codes ≡ Ok (flushed s) }
{}
