ghost use Rattle.std.specs.Prelude.{◌≡◌};
ghost use Rattle.fil_base.specs.Failure.{IfFault};
ghost use Rattle.hamt_map.specs.StateFaults.{as_state_fault, same_failure};
ghost use Rattle.hamt_map.specs.declared.state_fault.StateFault.TheVariants.{Form as IsForm, Missing as IsMissing};

use fil_base::{Cid, Failure};
use std::alloc::Global;
use tree_blocks::TreeFault;

/// Why a state, or a part of it, does not load.
#[derive(Debug, Drop)]
pub enum StateFault {
    /// There is no block under this CID.
    Missing(Cid),

    /// The block under this CID has another form than its place asks for.
    Form(Cid),

    /// The node of a tree under the first CID is not the one of the pairs under it, whose CID is the second.
    NotCanonical(Cid, Cid),

    /// The state is of this version.
    Version(u64),

    /// The actor of this ID, which every state has, is missing or has another code.
    Actor(u64),
}

impl StateFault {
    /// There is no block under this CID.
    pub fn missing(alloc: Global, cid: &Cid) -> Failure<StateFault>
        ensures { IfFault result (λ fault. fault ≡ IsMissing cid.now) }
    {
        match cid.copy(alloc) {
            Ok(cid) => Failure::Fault(StateFault::Missing(cid)),
            Err(_) => Failure::NoMemory,
        }
    }

    /// The block under this CID has another form than its place asks for.
    pub fn form(alloc: Global, cid: &Cid) -> Failure<StateFault>
        ensures { IfFault result (λ fault. fault ≡ IsForm cid.now) }
    {
        match cid.copy(alloc) {
            Ok(cid) => Failure::Fault(StateFault::Form(cid)),
            Err(_) => Failure::NoMemory,
        }
    }

    /// A fault of a tree as one of a state.
    pub fn of_tree(fault: TreeFault) -> StateFault
        ensures { result ≡ as_state_fault fault }
    {
        match fault {
            TreeFault::Missing(cid) => StateFault::Missing(cid),
            TreeFault::Form(cid) => StateFault::Form(cid),
            TreeFault::NotCanonical(cid, canonical) => StateFault::NotCanonical(cid, canonical),
        }
    }

    /// Why a tree does not load, as why a state does not.
    pub fn of_load(failure: Failure<TreeFault>) -> Failure<StateFault>
        ensures { result ≡ same_failure failure }
    {
        match failure {
            Failure::NoMemory => Failure::NoMemory,
            Failure::Fault(fault) => Failure::Fault(StateFault::of_tree(fault)),
        }
    }
}
