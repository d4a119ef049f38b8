ghost use Rattle.std.specs.Prelude.{◌≡◌, ◌+◌, ◌<◌, ◌^◌, [], Err, List, Ok, IfErr, IfOk, OnErr, OnOk, map, nat_le, nat_lt, nat_eq};
ghost use Rattle.std.specs.FinMap.{empty, entries, from_entries, get, insert, remove};
ghost use Rattle.std.specs.List.{IsDistinct, list_all};
ghost use Rattle.cid_core.specs.BlockParts.{BlockParts};
ghost use Rattle.fil_base.specs.CidParts.{CidParts};
ghost use Rattle.fil_base.specs.Failure.{IfFault};
ghost use Rattle.fil_base.specs.declared.token.TheConstants.{GREATEST_AMOUNT};
ghost use Rattle.hamt_map.specs.Node.{hamt_nodes, hamt_root};
ghost use Rattle.hamt_map.specs.Stands as hamt;
ghost use Rattle.tree_blocks.specs.NewBlocks.{new_blocks};
ghost use Rattle.state_tree.specs.Actors.{Actors, AreActors, balances, records};
ghost use Rattle.state_tree.specs.ActorsTree.{actors_nodes, actors_root};
ghost use Rattle.state_tree.specs.Reading.{actors_at, actors_under, has_code, with_own_actors};
ghost use Rattle.state_tree.specs.Stands.{Stands};

use crate::actor::Actor;
use crate::changed::Changed;
use crate::key::key_of;
use crate::pairs::{are_actors, are_below, are_within};
use crate::record::actor_in;
use crate::root::{RootLinks, read_root, root_block};
use cid_core::{Block, BlockSource};
use dag_cbor::Value;
use fil_base::{ActorId, Bytes, Cid, Failure, Mem, Row};
use gas_prices::Codes;
use hamt_map::{Hamt, StateFault};
use std::alloc::Global;
use tree_blocks::{NoBlocks, put_new};

/// The ID of the init actor, which gives others their IDs.
const INIT: u64 = 1;

/// The ID of the reward actor, which pays awards.
const REWARD: u64 = 2;

/// The ID of the actor to which burnt funds go.
const BURNT_FUNDS: u64 = 99;

/// The actors of a state, and the link to further information that its root keeps.
///
/// In clauses, `Stands tree blocks actors info` says that the tree stands for the actors and keeps the link, over a base
/// that holds `blocks`.
#[derive(Drop)]
pub struct StateTree {
    alloc: Global,

    /// The records of the actors as they were last written.
    tree: Hamt,

    /// The actors that were put since then: they lie over those of the tree.
    changed: Changed,

    info: Cid,
}

impl StateTree {
    /// No actors.
    fn empty(alloc: Global, info: Cid) -> StateTree
        ensures { (blocks : List BlockParts) → Stands result blocks empty info }
    {
        StateTree {
            alloc,
            tree: Hamt::empty(alloc),
            changed: Changed::none(alloc),
            info,
        }
    }

    /// A tree of the same actors and the same link.
    pub fn copy(&self) -> Mem<StateTree>
        ensures { (blocks : List BlockParts) (actors : Actors) (info : CidParts) → Stands self.now blocks actors info
            → IfOk result (λ copy. Stands copy blocks actors info) }
    {
        let tree = self.tree.copy()?;
        let changed = self.changed.copy(self.alloc)?;
        let info = self.info.copy(self.alloc)?;
        Ok(StateTree {
            alloc: self.alloc,
            tree,
            changed,
            info,
        })
    }

    /// The actors of the state under a root. Faults in order: of the root's block (`Missing`, `Form`), `Version` where
    /// it is another than 4, `Form` of its links; of the actors' tree, where a pair that is no ID with an actor's record
    /// is `Form` of the tree's root; `Actor` for the first of 1, 2 and 99 that is missing or has another code than
    /// that of init, reward and accounts.
    pub fn load<B: BlockSource>(
        alloc: Global,
        base: &B,
        root: &Cid,
        codes: &Codes,
    ) -> Result<StateTree, Failure<StateFault>>
        ensures found { IfOk result (λ tree. (actors : Actors) × (info : CidParts)
            × (actors_at (B.blocks base.now) root.now codes.now ≡ Ok (actors, info)) × Stands tree (B.blocks base.now) actors info) }
        ensures fault { IfErr result (λ failure. IfFault failure (λ fault.
            actors_at (B.blocks base.now) root.now codes.now ≡ Err fault)) }
    {
        let links = read_root(alloc, base, root)?;
        let tree = StateTree::load_actors(alloc, base, links)?;
        tree.check_own_actors(base, codes)?;
        Ok(tree)
    }

    /// The actors of the tree that a root links to.
    fn load_actors<B: BlockSource>(
        alloc: Global,
        base: &B,
        links: RootLinks,
    ) -> Result<StateTree, Failure<StateFault>>
        ensures found { IfOk result (λ tree. (actors : Actors) × (actors_under (B.blocks base.now) links.actors ≡ Ok actors)
            × Stands tree (B.blocks base.now) actors links.info) }
        ensures fault { IfErr result (λ failure. IfFault failure (λ fault.
            actors_under (B.blocks base.now) links.actors ≡ Err fault)) }
    {
        let RootLinks { actors, info } = links;
        let tree = match Hamt::load(alloc, base, &actors) {
            Ok(tree) => tree,
            Err(failure) => return Err(StateFault::of_load(failure)),
        };
        let pairs = tree.pairs(base)?;
        if are_actors(pairs.as_slice()) {
            Ok(StateTree {
                alloc,
                tree,
                changed: Changed::none(alloc),
                info,
            })
        } else {
            Err(StateFault::form(alloc, &actors))
        }
    }

    /// Judges the actors that every state has: the first that is missing or has another code is a fault.
    fn check_own_actors<B: BlockSource>(
        &self,
        base: &B,
        codes: &Codes,
    ) -> Result<(), Failure<StateFault>>
        ensures found { (actors : Actors) (info : CidParts) → Stands self.now (B.blocks base.now) actors info
            → IfOk result (λ _. with_own_actors codes.now actors ≡ Ok actors) }
        ensures fault { (actors : Actors) (info : CidParts) → Stands self.now (B.blocks base.now) actors info
            → IfErr result (λ failure. IfFault failure (λ fault. with_own_actors codes.now actors ≡ Err fault)) }
    {
        if !self.has_code(base, INIT, &codes.init)? {
            return Err(Failure::Fault(StateFault::Actor(INIT)));
        }
        if !self.has_code(base, REWARD, &codes.reward)? {
            return Err(Failure::Fault(StateFault::Actor(REWARD)));
        }
        if !self.has_code(base, BURNT_FUNDS, &codes.account)? {
            return Err(Failure::Fault(StateFault::Actor(BURNT_FUNDS)));
        }
        Ok(())
    }

    /// Whether the actor of an ID is there and has this code.
    fn has_code<B: BlockSource>(&self, base: &B, id: u64, code: &Cid) -> Mem<bool>
        requires { id < 2 ^ 63 }
        ensures { (actors : Actors) (info : CidParts) → Stands self.now (B.blocks base.now) actors info
            → IfOk result (λ has. has ≡ has_code (get actors id) code.now) }
    {
        match self.actor_at(base, id)? {
            Some(actor) => Ok(actor.code == *code),
            None => Ok(false),
        }
    }

    /// The actor of an ID.
    pub fn actor<B: BlockSource>(&self, base: &B, id: ActorId) -> Mem<Option<Actor>>
        ensures { (actors : Actors) (info : CidParts) → Stands self.now (B.blocks base.now) actors info
            → IfOk result (λ actor. actor ≡ get actors id) }
    {
        self.actor_at(base, id.number())
    }

    /// The actor of the ID of this number.
    fn actor_at<B: BlockSource>(&self, base: &B, id: u64) -> Mem<Option<Actor>>
        requires { id < 2 ^ 63 }
        ensures { (actors : Actors) (info : CidParts) → Stands self.now (B.blocks base.now) actors info
            → IfOk result (λ actor. actor ≡ get actors id) }
    {
        match self.changed.actor(self.alloc, id)? {
            Some(actor) => Ok(Some(actor)),
            None => self.written_actor(base, id),
        }
    }

    /// The actor of the ID of this number as it was last written.
    fn written_actor<B: BlockSource>(&self, base: &B, id: u64) -> Mem<Option<Actor>>
        requires { id < 2 ^ 63 }
        ensures { (kept : Actors) → AreActors kept → hamt.Stands self.now.tree (B.blocks base.now) (records kept)
            → IfOk result (λ actor. actor ≡ get kept id) }
    {
        let key = key_of(self.alloc, id)?;
        match self.tree.get(base, &key)? {
            Some(value) => actor_in(self.alloc, &value),
            None => Ok(None),
        }
    }

    /// Puts an actor under an ID.
    pub fn put_actor<B: BlockSource>(&mut self, base: &B, id: ActorId, actor: Actor) -> Mem<()>
        ensures after { (actors : Actors) (info : CidParts) → Stands self.old (B.blocks base.now) actors info
            → OnOk result (Stands self.new (B.blocks base.now) (insert actors id actor) info) }
        ensures unchanged { (actors : Actors) (info : CidParts) → Stands self.old (B.blocks base.now) actors info
            → OnErr result (Stands self.new (B.blocks base.now) actors info) }
    {
        self.changed.insert(id.number(), actor)?;
        Ok(())
    }

    /// Takes the actor of an ID away.
    pub fn delete_actor<B: BlockSource>(&mut self, base: &B, id: ActorId) -> Mem<()>
        ensures after { (actors : Actors) (info : CidParts) → Stands self.old (B.blocks base.now) actors info
            → OnOk result (Stands self.new (B.blocks base.now) (remove actors id) info) }
        ensures unchanged { (actors : Actors) (info : CidParts) → Stands self.old (B.blocks base.now) actors info
            → OnErr result (Stands self.new (B.blocks base.now) actors info) }
    {
        let key = key_of(self.alloc, id.number())?;
        self.tree.remove(base, &key)?;
        self.changed.remove(id.number());
        Ok(())
    }

    /// Whether the IDs of all actors are below this one.
    pub fn below<B: BlockSource>(&self, base: &B, next: ActorId) -> Mem<bool>
        ensures { (actors : Actors) (info : CidParts) → Stands self.now (B.blocks base.now) actors info
            → IfOk result (λ all. all ≡ list_all (λ e. nat_lt e.0 next) (entries actors)) }
    {
        let pairs = self.pairs(base)?;
        Ok(are_below(pairs.as_slice(), next))
    }

    /// Whether all balances and the awards add up to at most the greatest amount, 2 * 10^27.
    pub fn within<B: BlockSource>(&self, base: &B, awards: u128) -> Mem<bool>
        ensures { (actors : Actors) (info : CidParts) → Stands self.now (B.blocks base.now) actors info
            → IfOk result (λ within. within ≡ nat_le (balances actors + awards) GREATEST_AMOUNT) }
    {
        let pairs = self.pairs(base)?;
        Ok(are_within(pairs.as_slice(), awards))
    }

    /// The keys and the records of all actors, by rising key.
    fn pairs<B: BlockSource>(&self, base: &B) -> Mem<Row<(Bytes, Value)>>
        ensures { (actors : Actors) (info : CidParts) → Stands self.now (B.blocks base.now) actors info
            → IfOk result (λ pairs. (pairs ≡ entries (records actors)) × AreActors actors) }
    {
        if self.changed.is_none() {
            return self.tree.pairs(base);
        }
        let tree = self.settled(base)?;
        tree.pairs(base)
    }

    /// A tree of the records of all actors.
    fn settled<B: BlockSource>(&self, base: &B) -> Mem<Hamt>
        ensures { (actors : Actors) (info : CidParts) → Stands self.now (B.blocks base.now) actors info
            → IfOk result (λ tree. hamt.Stands tree (B.blocks base.now) (records actors) × AreActors actors) }
    {
        let mut tree = self.tree.copy()?;
        self.changed.write_into(self.alloc, &mut tree)?;
        Ok(tree)
    }

    /// Writes the actors that were changed into the tree.
    fn settle<B: BlockSource>(&mut self, base: &B) -> Mem<()>
        ensures written { (actors : Actors) (info : CidParts) → Stands self.old (B.blocks base.now) actors info
            → OnOk result (hamt.Stands self.new.tree (B.blocks base.now) (records actors)) }
        ensures none { OnOk result (self.new.changed ≡ empty) }
        ensures info { self.new.info ≡ self.old.info }
        ensures after { (actors : Actors) (info : CidParts) → Stands self.old (B.blocks base.now) actors info
            → Stands self.new (B.blocks base.now) actors info }
    {
        self.changed.write_into(self.alloc, &mut self.tree)?;
        self.changed = Changed::none(self.alloc);
        Ok(())
    }

    /// The state's root, and the nodes of the actors' tree and the root's block that the base does not hold, each once:
    /// children before parents, by rising place, the root's block last.
    pub fn flush<B: BlockSource>(&mut self, base: &B) -> Mem<(Cid, Row<Block>)>
        ensures root { (actors : Actors) (info : CidParts) → Stands self.old (B.blocks base.now) actors info
            → IfOk result (λ r. r.0 ≡ actors_root actors info) }
        ensures nodes { (actors : Actors) (info : CidParts) → Stands self.old (B.blocks base.now) actors info
            → IfOk result (λ r. r.1 ≡ new_blocks (B.blocks base.now) (actors_nodes actors info)) }
        ensures after { (actors : Actors) (info : CidParts) → Stands self.old (B.blocks base.now) actors info
            → Stands self.new (B.blocks base.now) actors info }
    {
        let (actors, nodes) = self.flush_actors(base)?;
        let block = root_block(self.alloc, actors, &self.info)?;
        let root = block.cid().copy(self.alloc)?;
        let mut new = nodes.into_vec();
        put_new(base, &mut new, block)?;
        Ok((root, Row::of(new)))
    }

    /// The root of the actors' tree, and its nodes that the base does not hold.
    fn flush_actors<B: BlockSource>(&mut self, base: &B) -> Mem<(Cid, Row<Block>)>
        ensures root { (actors : Actors) (info : CidParts) → Stands self.old (B.blocks base.now) actors info
            → IfOk result (λ r. r.0 ≡ hamt_root (records actors)) }
        ensures nodes { (actors : Actors) (info : CidParts) → Stands self.old (B.blocks base.now) actors info
            → IfOk result (λ r. r.1 ≡ new_blocks (B.blocks base.now) (hamt_nodes (records actors))) }
        ensures info { (actors : Actors) (info : CidParts) → Stands self.old (B.blocks base.now) actors info
            → self.new.info ≡ info }
        ensures after { (actors : Actors) (info : CidParts) → Stands self.old (B.blocks base.now) actors info
            → Stands self.new (B.blocks base.now) actors info }
    {
        self.settle(base)?;
        self.tree.flush(base)
    }

    /// Puts actors of distinct IDs into a tree of none.
    fn put_all(&mut self, alloc: Global, actors: &[(ActorId, Actor)]) -> Mem<()>
        requires { IsDistinct nat_eq (map (λ a. a.0) actors.now) }
        ensures { (info : CidParts) → Stands self.old [] empty info
            → OnOk result (Stands self.new [] (from_entries actors.now) info) }
    {
        for (id, actor) in actors {
            let actor = actor.copy(alloc)?;
            self.put_actor(&NoBlocks, *id, actor)?;
        }
        Ok(())
    }
}

/// The root and all blocks of a state with just these actors, in the order of [`StateTree::flush`].
pub fn state_blocks(
    alloc: Global,
    actors: &Row<(ActorId, Actor)>,
    info: &Cid,
) -> Mem<(Cid, Row<Block>)>
    requires { IsDistinct nat_eq (map (λ a. a.0) actors.now) }
    ensures root { IfOk result (λ r. r.0 ≡ actors_root (from_entries actors.now) info.now) }
    ensures blocks { IfOk result (λ r. r.1 ≡ new_blocks [] (actors_nodes (from_entries actors.now) info.now)) }
{
    let info = info.copy(alloc)?;
    let mut tree = StateTree::empty(alloc, info);
    tree.put_all(alloc, actors.as_slice())?;
    tree.flush(&NoBlocks)
}
