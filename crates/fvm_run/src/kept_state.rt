ghost use Rattle.std.specs.Prelude.{◌≡◌, IfOk, IfSome, Ok};
ghost use Rattle.state_model.specs.State.{State};
ghost use Rattle.state_model.specs.StateAt.{state_at};
ghost use Rattle.tipset_exec.specs.Opens.{Opens};
ghost use Rattle.fvm_run.specs.Kept.{IsKept};

use block_base::Base;
use fil_base::{Cid, Mem, NoMemory};
use gas_prices::Codes;
use std::alloc::Global;
use tipset_exec::OpeningState;

/// The state that was loaded last, which is kept for a next tipset under the same root.
#[derive(Drop)]
pub(crate) struct KeptState {
    root: Cid,
    opening: OpeningState,
}

impl KeptState {
    /// The state under a root: the one that was kept, where it is under this root. Else that one is let go, and the
    /// state is loaded.
    pub(crate) fn under(
        alloc: Global,
        base: &Base,
        codes: &Codes,
        root: &Cid,
        kept: Option<KeptState>,
    ) -> Mem<KeptState>
        requires { IfSome kept (IsKept base.now codes.now) }
        ensures root { IfOk result (λ state. state.root ≡ root.now) }
        ensures kept { IfOk result (IsKept base.now codes.now) }
    {
        if let Some(state) = kept {
            if state.root == *root {
                return Ok(state);
            }
        }
        KeptState::load(alloc, base, codes, root)
    }

    /// The state under a root, loaded.
    fn load(alloc: Global, base: &Base, codes: &Codes, root: &Cid) -> Mem<KeptState>
        ensures root { IfOk result (λ state. state.root ≡ root.now) }
        ensures kept { IfOk result (IsKept base.now codes.now) }
    {
        let copy = root.copy(alloc)?;
        match OpeningState::load(alloc, base, root, codes) {
            Ok(opening) => Ok(KeptState {
                root: copy,
                opening,
            }),
            Err(_) => Err(NoMemory),
        }
    }

    /// The state itself, from which tipsets are evaluated.
    pub(crate) fn opening(&self) -> &OpeningState
        ensures { result.now ≡ self.now.opening }
    {
        &self.opening
    }
}
