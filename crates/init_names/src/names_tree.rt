ghost use Rattle.std.specs.Prelude.{◌≡◌, ◌<◌, ◌^◌, [], All, IfErr, IfOk, OnErr, OnOk, bytes_eq, is_some, map, true};
ghost use Rattle.std.specs.FinMap.{get, insert};
ghost use Rattle.std.specs.List.{IsDistinct, list_all};
ghost use Rattle.fil_address.specs.AddressBytes.{address as spelled_address};
ghost use Rattle.fil_base.specs.Failure.{IfFault};
ghost use Rattle.hamt_map.specs.StateFaults.{of_tree};
ghost use Rattle.hamt_map.specs.Stands.{Stands};
ghost use Rattle.hamt_map.specs.Walk.{hamt_at};
ghost use Rattle.hamt_map.specs.Pairs.{Map};
ghost use Rattle.init_names.specs.Names.{AreNames, Names, named, names_of, no_id};
ghost use Rattle.init_names.specs.Reading.{id_in, is_below, names_under, pair_in};
ghost use Rattle.tree_blocks.specs.Forms.{for_each};

use crate::fields::{id_of, value_of};
use crate::name::{is_name, name_of};
use cid_core::BlockSource;
use dag_cbor::Value;
use fil_address::Address;
use fil_base::{ActorId, Bytes, Cid, Failure, Mem};
use hamt_map::{Hamt, StateFault};
use std::alloc::Global;
use tree_blocks::NoBlocks;

/// The tree of names under a root.
pub(crate) fn names_under<B: BlockSource>(
    alloc: Global,
    base: &B,
    root: &Cid,
) -> Result<Hamt, Failure<StateFault>>
    ensures found { IfOk result (λ tree. (names : Names) × (names_under (B.blocks base.now) root.now ≡ Ok names)
        × AreNames names × Stands tree (B.blocks base.now) (named names)) }
    ensures fault { IfErr result (λ failure. IfFault failure (λ fault.
        names_under (B.blocks base.now) root.now ≡ Err fault)) }
{
    let tree = tree_under(alloc, base, root)?;
    let pairs = tree.pairs(base)?;
    if are_names(pairs.as_slice()) {
        Ok(tree)
    } else {
        Err(StateFault::form(alloc, root))
    }
}

/// The tree under a root.
fn tree_under<B: BlockSource>(
    alloc: Global,
    base: &B,
    root: &Cid,
) -> Result<Hamt, Failure<StateFault>>
    ensures found { IfOk result (λ tree. (m : Map) × (of_tree (hamt_at (B.blocks base.now) root.now) ≡ Ok m)
        × Stands tree (B.blocks base.now) m) }
    ensures fault { IfErr result (λ failure. IfFault failure (λ fault.
        of_tree (hamt_at (B.blocks base.now) root.now) ≡ Err fault)) }
{
    match Hamt::load(alloc, base, root) {
        Ok(tree) => Ok(tree),
        Err(failure) => Err(StateFault::of_load(failure)),
    }
}

/// Whether each pair is a name with its ID.
fn are_names(pairs: &[(Bytes, Value)]) -> bool
    ensures { result ≡ is_some (for_each pair_in pairs.now) }
{
    for (key, value) in pairs {
        if !is_pair(key.as_slice(), value) {
            return false;
        }
    }
    true
}

/// Whether a key with its value is a name with its ID.
fn is_pair(key: &[u8], value: &Value) -> bool
    ensures { result ≡ is_some (pair_in (key.now, value.now)) }
{
    is_name(key) && id_of(value).is_some()
}

/// Whether the values of all pairs are IDs below this one.
pub(crate) fn all_below(pairs: &[(Bytes, Value)], next: ActorId) -> bool
    ensures { result ≡ list_all (λ p. is_below next (id_in p.1)) pairs.now }
{
    for (_, value) in pairs {
        if !is_below(value, next) {
            return false;
        }
    }
    true
}

/// Whether a value is an ID below this one.
fn is_below(value: &Value, next: ActorId) -> bool
    ensures { result ≡ is_below next (id_in value.now) }
{
    match id_of(value) {
        Some(id) => id.number() < next.number(),
        None => false,
    }
}

/// Gives a name an ID in the tree.
pub(crate) fn put_id<B: BlockSource>(base: &B, tree: &mut Hamt, name: &[u8], id: ActorId) -> Mem<()>
    ensures after { (names : Names) → Stands tree.old (B.blocks base.now) (named names)
        → OnOk result (Stands tree.new (B.blocks base.now) (named (insert names name.now id))) }
    ensures unchanged { (names : Names) → Stands tree.old (B.blocks base.now) (named names)
        → OnErr result (Stands tree.new (B.blocks base.now) (named names)) }
    ensures id { id < 2 ^ 63 }
{
    tree.set(base, name, value_of(id))?;
    Ok(())
}

/// The ID of a name in the tree.
pub(crate) fn id_named<B: BlockSource>(base: &B, tree: &Hamt, name: &[u8]) -> Mem<Option<ActorId>>
    ensures { (names : Names) → AreNames names → Stands tree.now (B.blocks base.now) (named names)
        → IfOk result (λ id. id ≡ get names name.now) }
{
    let Some(value) = tree.get(base, name)? else {
        return Ok(None);
    };
    Ok(id_of(&value))
}

/// The tree of just these names.
pub(crate) fn tree_of(alloc: Global, names: &[(Address, ActorId)]) -> Mem<Hamt>
    requires names { All (λ n. no_id n.0 ≡ true) names.now }
    requires distinct { IsDistinct bytes_eq (map (λ n. spelled_address n.0) names.now) }
    ensures tree { IfOk result (λ tree. Stands tree [] (named (names_of names.now))) }
    ensures names { OnOk result (AreNames (names_of names.now)) }
{
    let mut tree = Hamt::empty(alloc);
    for (address, id) in names {
        let name = name_of(alloc, address)?;
        put_id(&NoBlocks, &mut tree, name.as_slice(), *id)?;
    }
    Ok(tree)
}
