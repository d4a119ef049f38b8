ghost use Rattle.std.specs.Prelude.{◌≡◌, Err, IfErr, IfOk, List, Ok};
ghost use Rattle.cid_core.specs.BlockParts.{BlockParts};
ghost use Rattle.fil_base.specs.Failure.{IfFault};
ghost use Rattle.state_model.specs.State.{State};
ghost use Rattle.state_model.specs.StateAt.{state_at};
ghost use Rattle.tipset_exec.specs.Opens.{Opens};
ghost use Rattle.tipset_exec.specs.Stands.{Stands};

use crate::ledger::Ledger;
use block_base::Base;
use fil_base::{Cid, Failure, Mem};
use gas_prices::Codes;
use hamt_map::StateFault;
use std::alloc::Global;

/// The state under a root, which is loaded once and from which any number of tipsets are evaluated.
///
/// It is lent to each evaluation, and never changed: a tipset begins with a copy, and what its messages change is changed
/// in that copy. So a tipset is evaluated alone, whatever was evaluated before it.
///
/// In clauses, `Opens opening blocks s` says that it is the state `s`, over a base that holds `blocks`.
#[derive(Drop)]
pub struct OpeningState {
    ledger: Ledger,
}

#[tactic(auto, unfolding(crate::specs::Opens::Opens))]
impl OpeningState {
    /// The state under a root, or its first fault.
    pub fn load(
        alloc: Global,
        base: &Base,
        root: &Cid,
        codes: &Codes,
    ) -> Result<OpeningState, Failure<StateFault>>
        ensures found { IfOk result (λ opening. (s : State)
            × (state_at base.now root.now codes.now ≡ Ok s) × Opens opening base.now s) }
        ensures fault { IfErr result (λ failure. IfFault failure (λ fault.
            state_at base.now root.now codes.now ≡ Err fault)) }
    {
        match Ledger::load(alloc, base, root, codes) {
            Ok(ledger) => Ok(OpeningState { ledger }),
            Err(failure) => Err(failure),
        }
    }

    /// A ledger of the state, over which messages can run.
    pub(crate) fn begin(&self) -> Mem<Ledger>
        ensures { (blocks : List BlockParts) (s : State) → Opens self.now blocks s
            → IfOk result (λ ledger. Stands ledger blocks s) }
    {
        self.ledger.copy()
    }

    /// The ledger itself, to be read.
    pub(crate) fn ledger(&self) -> &Ledger
        ensures { (blocks : List BlockParts) (s : State) → Opens self.now blocks s → Stands result.now blocks s }
    {
        &self.ledger
    }
}
