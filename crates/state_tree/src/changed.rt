ghost use Rattle.std.specs.Prelude.{◌≡◌, ◌<◌, ◌^◌, IfOk, IsTrue, List, OnErr, OnOk};
ghost use Rattle.std.specs.FinMap.{empty, get, insert, remove};
ghost use Rattle.cid_core.specs.BlockParts.{BlockParts};
ghost use Rattle.hamt_map.specs.Pairs.{Map};
ghost use Rattle.hamt_map.specs.Stands as hamt;
ghost use Rattle.state_tree.specs.Actors.{Actors, AreActors, IsActor, records};
ghost use Rattle.state_tree.specs.Over.{over};

use crate::actor::Actor;
use crate::key::key_of;
use crate::record::record_of;
use fil_base::{GREATEST_AMOUNT, Mem};
use hamt_map::Hamt;
use std::alloc::Global;
use std::collections::BTreeMap;
use std::marker::Model;

/// Actors that were put, by their IDs.
#[derive(Drop)]
pub(crate) struct Changed {
    inner: BTreeMap<u64, Actor>,
}

impl Model for Changed {
    ghost use Rattle.std.specs.Coded.{coded_ℕ};
    ghost use Rattle.std.specs.FinMap.{code, from_entries};
    ghost use Rattle.state_tree.specs.Actors.{Actors};
    ghost use Rattle.state_tree.specs.Over.{AreEntries};
    ghost use Rattle.state_tree.specs.contracts.actor.Actor as actor;

    ghost Value = { Actors };

    ghost coded = { code coded_ℕ actor.the_row.coded };

    ghost view = { λ changed. from_entries changed.inner.entries };

    ghost invariant = { λ changed. AreEntries changed.inner.entries };
}

impl Changed {
    /// No actors.
    pub(crate) fn none(alloc: Global) -> Changed
        ensures { result ≡ empty }
    {
        Changed {
            inner: BTreeMap::new(alloc),
        }
    }

    /// Whether there are none.
    pub(crate) fn is_none(&self) -> bool
        ensures { IsTrue result → self.now ≡ empty }
    {
        self.inner.is_empty()
    }

    /// The same actors.
    pub(crate) fn copy(&self, alloc: Global) -> Mem<Changed>
        ensures { IfOk result (λ copy. copy ≡ self.now) }
    {
        let mut copy = Changed::none(alloc);
        for (id, actor) in &self.inner {
            let actor = actor.copy(alloc)?;
            copy.insert(*id, actor)?;
        }
        Ok(copy)
    }

    /// The actor of the ID of this number.
    pub(crate) fn actor(&self, alloc: Global, id: u64) -> Mem<Option<Actor>>
        ensures { IfOk result (λ actor. actor ≡ get self.now id) }
    {
        match self.inner.get(&id) {
            None => Ok(None),
            Some(actor) => {
                let actor = actor.copy(alloc)?;
                Ok(Some(actor))
            }
        }
    }

    /// Puts an actor under the ID of this number.
    pub(crate) fn insert(&mut self, id: u64, actor: Actor) -> Mem<()>
        requires { id < 2 ^ 63 }
        ensures actor { OnOk result (IsActor actor) }
        ensures after { OnOk result (self.new ≡ insert self.old id actor) }
        ensures unchanged { OnErr result (self.new ≡ self.old) }
    {
        prove!(actor.code.version() <= 1);
        prove!(actor.head.version() <= 1);
        prove!(actor.balance.number() <= GREATEST_AMOUNT);
        self.inner.insert(id, actor)?;
        Ok(())
    }

    /// Takes the actor of the ID of this number away.
    pub(crate) fn remove(&mut self, id: u64)
        ensures { self.new ≡ remove self.old id }
    {
        self.inner.remove(&id);
    }

    /// Writes the records of all into a tree of others, over whose records they lie. Where memory ends, the tree has the
    /// records of some.
    pub(crate) fn write_into(&self, alloc: Global, tree: &mut Hamt) -> Mem<()>
        ensures after { (blocks : List BlockParts) (kept : Actors) → AreActors kept → hamt.Stands tree.old blocks (records kept)
            → OnOk result (hamt.Stands tree.new blocks (records (over self.now kept))) }
        ensures some { (blocks : List BlockParts) (kept : Actors) → AreActors kept → hamt.Stands tree.old blocks (records kept)
            → (written : Actors) × AreActors written × hamt.Stands tree.new blocks (records written)
            × (over self.now written ≡ over self.now kept) }
    {
        for (id, actor) in &self.inner {
            let actor = actor.copy(alloc)?;
            write_actor(alloc, tree, *id, actor)?;
        }
        Ok(())
    }
}

/// Writes the record of an actor into a tree of actors.
fn write_actor(alloc: Global, tree: &mut Hamt, id: u64, actor: Actor) -> Mem<()>
    requires { id < 2 ^ 63 }
    ensures after { (blocks : List BlockParts) (kept : Actors) → AreActors kept → hamt.Stands tree.old blocks (records kept)
        → OnOk result (hamt.Stands tree.new blocks (records (insert kept id actor))) }
    ensures unchanged { (blocks : List BlockParts) (m : Map) → hamt.Stands tree.old blocks m
        → OnErr result (hamt.Stands tree.new blocks m) }
{
    let key = key_of(alloc, id)?;
    let record = record_of(alloc, actor)?;
    tree.put(&key, record)?;
    Ok(())
}
