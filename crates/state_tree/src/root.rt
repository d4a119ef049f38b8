ghost use Rattle.std.specs.Prelude.{◌≡◌, ◌∷◌, [], Err, IfErr, IfOk, Ok, pos};
ghost use Rattle.cid_core.specs.BlockParts.{block_of};
ghost use Rattle.dag_cbor.specs.Spelling.{spelled};
ghost use Rattle.dag_cbor.specs.declared.value.Value.TheVariants as v;
ghost use Rattle.fil_base.specs.Failure.{IfFault};
ghost use Rattle.hamt_map.specs.StateFaults.{if_state, value_under as value_at};
ghost use Rattle.state_tree.specs.Reading.{root_links};

use cbor_fields::{cid_at, list_of, u64_at};
use cid_core::{Block, BlockSource};
use dag_cbor::{Value, encode};
use fil_base::{Cid, Failure, Mem};
use hamt_map::{StateFault, value_under};
use sqlite_items::Items;
use std::alloc::Global;

/// The codec of DAG-CBOR (multicodec).
const DAG_CBOR: u64 = 0x71;

/// The version of a state.
const VERSION: u64 = 4;

/// The links of a state's root.
#[derive(Drop)]
pub(crate) struct RootLinks {
    /// The root of the actors' tree.
    pub actors: Cid,

    /// What is kept.
    pub info: Cid,
}

/// The links of the root under a CID.
pub(crate) fn read_root<B: BlockSource>(
    alloc: Global,
    base: &B,
    root: &Cid,
) -> Result<RootLinks, Failure<StateFault>>
    ensures found { IfOk result (λ links.
        if_state (value_at (B.blocks base.now) root.now) (root_links root.now) ≡ Ok links) }
    ensures fault { IfErr result (λ failure. IfFault failure (λ fault.
        if_state (value_at (B.blocks base.now) root.now) (root_links root.now) ≡ Err fault)) }
{
    let value = value_under(alloc, base, root)?;
    links_in(alloc, root, &value)
}

/// The links of the root that a value is, if it is one of version 4.
fn links_in(alloc: Global, root: &Cid, value: &Value) -> Result<RootLinks, Failure<StateFault>>
    ensures found { IfOk result (λ links. root_links root.now value.now ≡ Ok links) }
    ensures fault { IfErr result (λ failure. IfFault failure (λ fault. root_links root.now value.now ≡ Err fault)) }
{
    let Ok(items) = list_of(value, 3) else {
        return Err(StateFault::form(alloc, root));
    };
    let Ok(version) = u64_at(items, 0) else {
        return Err(StateFault::form(alloc, root));
    };
    if version != VERSION {
        return Err(Failure::Fault(StateFault::Version(version)));
    }
    let Ok(actors) = cid_at(items, 1) else {
        return Err(StateFault::form(alloc, root));
    };
    let Ok(info) = cid_at(items, 2) else {
        return Err(StateFault::form(alloc, root));
    };
    Ok(RootLinks {
        actors: actors.copy(alloc)?,
        info: info.copy(alloc)?,
    })
}

/// The block of a root with these links.
pub(crate) fn root_block(alloc: Global, actors: Cid, info: &Cid) -> Mem<Block>
    ensures { IfOk result (λ block. block
        ≡ block_of 0x71 (spelled (v.List (v.Int (pos 4) ∷ v.Link actors ∷ v.Link info.now ∷ [])))) }
{
    prove!(actors.version() <= 1);
    prove!(info.version() <= 1);
    let info = info.copy(alloc)?;
    let items = vec![in alloc;
        Value::Int(i128::from(VERSION)),
        Value::Link(actors),
        Value::Link(info),
    ]?;
    let root = Value::List(Items::from_vec(items));
    let bytes = encode(alloc, &root)?;
    Block::of(alloc, DAG_CBOR, bytes)
}
