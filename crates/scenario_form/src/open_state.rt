ghost use Rattle.std.specs.Prelude.{◌≡◌, ◌<◌, Err, IfErr, IfOk, Ok};
ghost use Rattle.fil_base.specs.Failure.{IfFault};
ghost use Rattle.state_model.specs.Stands.{StandFor};
ghost use Rattle.state_model.specs.State.{State, all_below_next};
ghost use Rattle.state_model.specs.StateAt.{state_at};

use block_base::Base;
use fil_base::{ActorId, Cid, Failure, Mem};
use gas_prices::Codes;
use hamt_map::StateFault;
use init_names::Names;
use state_tree::StateTree;
use std::alloc::Global;

/// The ID of the init actor, whose state has the names.
const INIT: u64 = 1;

/// A state that is loaded.
#[derive(Drop)]
pub(crate) struct OpenState {
    /// Its actors.
    pub tree: StateTree,

    /// Its names.
    pub names: Names,
}

impl OpenState {
    /// The state under a root.
    pub(crate) fn load(
        alloc: Global,
        base: &Base,
        root: &Cid,
        codes: &Codes,
    ) -> Result<OpenState, Failure<StateFault>>
        ensures found { IfOk result (λ loaded. (s : State)
            × (state_at base.now root.now codes.now ≡ Ok s) × StandFor loaded.tree loaded.names base.now s) }
        ensures fault { IfErr result (λ failure. IfFault failure (λ fault.
            state_at base.now root.now codes.now ≡ Err fault)) }
    {
        let tree = StateTree::load(alloc, base, root, codes)?;
        let init = match tree.actor(base, init_id())? {
            Some(init) => init,
            None => return Err(Failure::Fault(StateFault::Actor(INIT))),
        };
        let names = Names::load(alloc, base, &init.head)?;
        Ok(OpenState { tree, names })
    }

    /// Whether the IDs of all actors, and all that are named, are below the next one.
    pub(crate) fn is_below_next(&self, base: &Base) -> Mem<bool>
        ensures { (s : State) → StandFor self.now.tree self.now.names base.now s
            → IfOk result (λ all. all ≡ all_below_next s) }
    {
        if self.tree.below(base, self.names.next())? {
            self.names.below(base)
        } else {
            Ok(false)
        }
    }
}

fn init_id() -> ActorId
    ensures { result ≡ 1 }
{
    ActorId::new(INIT).unwrap()
}
