ghost use Rattle.std.specs.Prelude.{◌≡◌};
ghost use Rattle.fil_base.specs.Failure.{IfFault};
ghost use Rattle.tree_blocks.specs.declared.fault.TreeFault.TheVariants.{Form as IsForm, Missing as IsMissing, NotCanonical as IsNotCanonical};

use fil_base::{Cid, Failure};
use std::alloc::Global;

/// Why a tree does not load: the first fault of a walk over its nodes, where a node is judged when all its pointers
/// were walked in their order.
#[derive(Debug, Drop)]
pub enum TreeFault {
    /// There is no block under this CID.
    Missing(Cid),

    /// The block under this CID is no node.
    Form(Cid),

    /// The node under the first CID is not the one that what it holds defines, whose CID is the second.
    NotCanonical(Cid, Cid),
}

impl TreeFault {
    /// There is no block under this CID.
    pub fn missing(alloc: Global, cid: &Cid) -> Failure<TreeFault>
        ensures { IfFault result (λ fault. fault ≡ IsMissing cid.now) }
    {
        match cid.copy(alloc) {
            Ok(cid) => Failure::Fault(TreeFault::Missing(cid)),
            Err(_) => Failure::NoMemory,
        }
    }

    /// The block under this CID is no node.
    pub fn no_node(alloc: Global, cid: &Cid) -> Failure<TreeFault>
        ensures { IfFault result (λ fault. fault ≡ IsForm cid.now) }
    {
        match cid.copy(alloc) {
            Ok(cid) => Failure::Fault(TreeFault::Form(cid)),
            Err(_) => Failure::NoMemory,
        }
    }

    /// The node under this CID is not the canonical one.
    pub fn not_canonical(alloc: Global, cid: &Cid, canonical: &Cid) -> Failure<TreeFault>
        ensures { IfFault result (λ fault. fault ≡ IsNotCanonical cid.now canonical.now) }
    {
        match (cid.copy(alloc), canonical.copy(alloc)) {
            (Ok(cid), Ok(canonical)) => Failure::Fault(TreeFault::NotCanonical(cid, canonical)),
            _ => Failure::NoMemory,
        }
    }
}
