ghost use Rattle.std.specs.Prelude.{◌≡◌, ◌+◌, ◌<◌, ◌^◌, ◌-◌, ◌==◌, [], List, All, IfErr, IfOk, None, OnErr, OnOk, Some, bytes_eq, map, nat_lt, true};
ghost use Rattle.std.specs.FinMap.{entries, from_entries, get, insert};
ghost use Rattle.std.specs.List.{IsDistinct, list_all};
ghost use Rattle.std.specs.Str.{IsUtf8};
ghost use Rattle.cid_core.specs.BlockParts.{BlockParts};
ghost use Rattle.fil_address.specs.AddressBytes.{address as spelled_address};
ghost use Rattle.fil_base.specs.Failure.{IfFault};
ghost use Rattle.tree_blocks.specs.NewBlocks.{new_blocks};
ghost use Rattle.init_names.specs.Names.{InitState, init_head, init_nodes, no_id, with_name, made_state};
ghost use Rattle.init_names.specs.Reading.{init_at};
ghost use Rattle.init_names.specs.Resolving.{resolved};
ghost use Rattle.init_names.specs.Stands.{Stands};

use crate::name::name_of;
use crate::names_tree::{all_below, id_named, names_under, put_id, tree_of};
use crate::network::Network;
use crate::state_block::{parts_under, state_block};
use cid_core::{Block, BlockSource};
use fil_address::Address;
use fil_base::{ActorId, Bytes, Cid, Failure, Mem, Row};
use hamt_map::{Hamt, StateFault};
use std::alloc::Global;
use tree_blocks::{NoBlocks, put_new};

/// The names of actors, the next ID and the network.
///
/// In clauses, `Stands names blocks s` says that they stand for the state `s` of the init actor, over a base that holds
/// `blocks`.
#[derive(Drop)]
pub struct Names {
    alloc: Global,
    tree: Hamt,
    next: ActorId,
    network: Network,
}

#[tactic(auto, unfolding(crate::specs::Stands::Stands))]
impl Names {
    /// The names of the init actor's state under its head. Faults in order: of the state's block (`Missing`, `Form`); of
    /// the names' tree, where a pair that is no address of protocol 1 to 3 with an ID is `Form` of the tree's root.
    pub fn load<B: BlockSource>(
        alloc: Global,
        base: &B,
        head: &Cid,
    ) -> Result<Names, Failure<StateFault>>
        ensures found { IfOk result (λ names. (s : InitState)
            × (init_at (B.blocks base.now) head.now ≡ Ok s) × Stands names (B.blocks base.now) s) }
        ensures fault { IfErr result (λ failure. IfFault failure (λ fault.
            init_at (B.blocks base.now) head.now ≡ Err fault)) }
    {
        let parts = parts_under(alloc, base, head)?;
        prove!(parts.next.number() < 1 << 63);
        let tree = names_under(alloc, base, &parts.names)?;
        Ok(Names {
            alloc,
            tree,
            next: parts.next,
            network: parts.network,
        })
    }

    /// The same names, with the same next ID and network.
    pub fn copy(&self) -> Mem<Names>
        ensures { (blocks : List BlockParts) (s : InitState) → Stands self.now blocks s
            → IfOk result (λ copy. Stands copy blocks s) }
    {
        let tree = self.tree.copy()?;
        let network = Bytes::copy_of(self.alloc, self.network.as_slice())?;
        Ok(Names {
            alloc: self.alloc,
            tree,
            next: self.next,
            network: Network::of(network),
        })
    }

    /// The ID that an address names. An ID address names its own.
    pub fn resolve<B: BlockSource>(&self, base: &B, address: &Address) -> Mem<Option<ActorId>>
        ensures { (s : InitState) → Stands self.now (B.blocks base.now) s
            → IfOk result (λ id. id ≡ resolved s.names address.now) }
    {
        if let Address::Id(id) = address {
            return Ok(Some(*id));
        }
        let name = address.to_bytes(self.alloc)?;
        id_named(base, &self.tree, name.as_slice())
    }

    /// Whether no more IDs can be given: the next one is 2^63 - 1.
    pub fn full(&self) -> bool
        ensures { (blocks : List BlockParts) (s : InitState) → Stands self.now blocks s
            → result ≡ (s.next == 2 ^ 63 - 1) }
    {
        self.next.number() == (1 << 63) - 1
    }

    /// The ID that the next actor gets.
    pub fn next(&self) -> ActorId
        ensures { (blocks : List BlockParts) (s : InitState) → Stands self.now blocks s → result ≡ s.next }
    {
        self.next
    }

    /// Gives an address the next ID.
    pub fn assign<B: BlockSource>(&mut self, base: &B, address: &Address) -> Mem<ActorId>
        requires address { no_id address.now ≡ true }
        requires free { (s : InitState) × Stands self.old (B.blocks base.now) s
            × (s.next < 2 ^ 63 - 1) × (get s.names (spelled_address address.now) ≡ None) }
        ensures id { (s : InitState) → Stands self.old (B.blocks base.now) s → IfOk result (λ id. id ≡ s.next) }
        ensures after { (s : InitState) → Stands self.old (B.blocks base.now) s
            → OnOk result (Stands self.new (B.blocks base.now) (with_name s (spelled_address address.now))) }
        ensures unchanged { (s : InitState) → Stands self.old (B.blocks base.now) s
            → OnErr result (Stands self.new (B.blocks base.now) s) }
    {
        let id = self.next;
        let after = id_after(id);
        let name = name_of(self.alloc, address)?;
        put_id(base, &mut self.tree, name.as_slice(), id)?;
        self.next = after;
        Ok(id)
    }

    /// Whether all named IDs are below the next one.
    pub fn below<B: BlockSource>(&self, base: &B) -> Mem<bool>
        ensures { (s : InitState) → Stands self.now (B.blocks base.now) s
            → IfOk result (λ all. all ≡ list_all (λ e. nat_lt e.1 s.next) (entries s.names)) }
    {
        let pairs = self.tree.pairs(base)?;
        Ok(all_below(pairs.as_slice(), self.next))
    }

    /// The head of the init actor, and the nodes of the names' tree and the state's block that the base does not hold,
    /// each once: children before parents, by rising place, the state's block last.
    pub fn flush<B: BlockSource>(&mut self, base: &B) -> Mem<(Cid, Row<Block>)>
        ensures head { (s : InitState) → Stands self.old (B.blocks base.now) s → IfOk result (λ r. r.0 ≡ init_head s) }
        ensures nodes { (s : InitState) → Stands self.old (B.blocks base.now) s
            → IfOk result (λ r. r.1 ≡ new_blocks (B.blocks base.now) (init_nodes s)) }
        ensures after { (s : InitState) → Stands self.old (B.blocks base.now) s
            → Stands self.new (B.blocks base.now) s }
    {
        let (root, nodes) = self.tree.flush(base)?;
        let mut new = nodes.into_vec();
        let block = state_block(self.alloc, root, self.next, self.network.as_slice())?;
        let head = block.cid().copy(self.alloc)?;
        put_new(base, &mut new, block)?;
        Ok((head, Row::of(new)))
    }
}

/// The ID after this one.
fn id_after(id: ActorId) -> ActorId
    requires { id < 2 ^ 63 - 1 }
    ensures value { result ≡ id + 1 }
    ensures small { id + 1 < 2 ^ 63 }
{
    ActorId::new(id.number() + 1).unwrap()
}

/// The head of the init actor and all blocks of a state with just these names, in the order of [`Names::flush`].
pub fn init_blocks(
    alloc: Global,
    names: &Row<(Address, ActorId)>,
    next: ActorId,
    network: &[u8],
) -> Mem<(Cid, Row<Block>)>
    requires names { All (λ n. no_id n.0 ≡ true) names.now }
    requires distinct { IsDistinct bytes_eq (map (λ n. spelled_address n.0) names.now) }
    requires network { IsUtf8 network.now }
    ensures head { IfOk result (λ r. r.0 ≡ init_head (made_state names.now next network.now)) }
    ensures blocks { IfOk result (λ r. r.1 ≡ new_blocks [] (init_nodes (made_state names.now next network.now))) }
{
    prove!(next.number() < 1 << 63);
    let tree = tree_of(alloc, names.as_slice())?;
    let network = Network::of(Bytes::copy_of(alloc, network)?);
    let mut names = Names {
        alloc,
        tree,
        next,
        network,
    };
    names.flush(&NoBlocks)
}
