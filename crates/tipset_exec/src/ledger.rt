ghost use Rattle.std.specs.Prelude.{◌≡◌, ◌+◌, ◌-◌, ◌≤◌, ◌<◌, ◌^◌, Err, IfErr, IfOk, IfSome, List, Ok, OnOk, Some};
ghost use Rattle.std.specs.Option.{option_map};
ghost use Rattle.std.specs.FinMap.{get, insert};
ghost use Rattle.cid_core.specs.BlockParts.{BlockParts};
ghost use Rattle.fil_base.specs.Failure.{IfFault};
ghost use Rattle.fil_base.specs.declared.token.TheConstants.{GREATEST_AMOUNT};
ghost use Rattle.fil_message.specs.Sound.{IsMessage};
ghost use Rattle.init_names.specs.Resolving.{resolved};
ghost use Rattle.state_model.specs.State.{State, state_nodes, state_root};
ghost use Rattle.state_model.specs.StateAt.{state_at};
ghost use Rattle.tree_blocks.specs.NewBlocks.{new_blocks};
ghost use Rattle.tipset_exec.specs.Balances.{burned, burnt_funds_id, minted, moved, paid, reward_id, with_less, with_more};
ghost use Rattle.tipset_exec.specs.Calls.{actor_named};
ghost use Rattle.tipset_exec.specs.Funds.{IsWithin, held};
ghost use Rattle.tipset_exec.specs.Messages.{greatest_cost, set_aside};
ghost use Rattle.tipset_exec.specs.Stands.{Stands};

use crate::cost::greatest_cost;
use block_base::Base;
use cid_core::Block;
use fil_address::Address;
use fil_base::{ActorId, Cid, Failure, Mem, Row, Token};
use fil_message::Message;
use gas_prices::Codes;
use hamt_map::StateFault;
use init_names::Names;
use state_model::flush_state;
use state_tree::{Actor, StateTree};
use std::alloc::Global;

/// The ID of the init actor.
const INIT: u64 = 1;

/// The state that messages run over: the actors, their names, and what was minted and burned.
///
/// In clauses, `Stands ledger blocks s` says that it stands for the state `s`, over a base that holds `blocks`. The calls
/// that change it promise nothing where memory runs out: it is dropped then.
#[derive(Drop)]
pub(crate) struct Ledger {
    tree: StateTree,
    names: Names,
    minted: Token,
    burned: Token,
}

impl Ledger {
    /// The state under a root, or its first fault.
    pub(crate) fn load(
        alloc: Global,
        base: &Base,
        root: &Cid,
        codes: &Codes,
    ) -> Result<Ledger, Failure<StateFault>>
        ensures found { IfOk result (λ ledger. (s : State)
            × (state_at base.now root.now codes.now ≡ Ok s) × Stands ledger base.now s) }
        ensures fault { IfErr result (λ failure. IfFault failure (λ fault.
            state_at base.now root.now codes.now ≡ Err fault)) }
    {
        let tree = StateTree::load(alloc, base, root, codes)?;
        let Some(init) = tree.actor(base, id_of(INIT))? else {
            return Err(Failure::Fault(StateFault::Actor(INIT)));
        };
        let names = Names::load(alloc, base, &init.head)?;
        Ok(Ledger {
            tree,
            names,
            minted: Token::zero(),
            burned: Token::zero(),
        })
    }

    /// A ledger of the same state.
    pub(crate) fn copy(&self) -> Mem<Ledger>
        ensures { (blocks : List BlockParts) (s : State) → Stands self.now blocks s
            → IfOk result (λ copy. Stands copy blocks s) }
    {
        let tree = self.tree.copy()?;
        let names = self.names.copy()?;
        Ok(Ledger {
            tree,
            names,
            minted: self.minted,
            burned: self.burned,
        })
    }

    /// The actor of an ID.
    pub(crate) fn actor(&self, base: &Base, id: ActorId) -> Mem<Option<Actor>>
        ensures { (s : State) → Stands self.now base.now s → IfOk result (λ actor. actor ≡ get s.actors id) }
    {
        self.tree.actor(base, id)
    }

    /// What an actor has; one that is not there has nothing.
    pub(crate) fn balance(&self, base: &Base, id: ActorId) -> Mem<Token>
        ensures { (s : State) → Stands self.now base.now s → IfOk result (λ balance. balance ≡ held s id) }
    {
        match self.actor(base, id)? {
            Some(actor) => Ok(actor.balance),
            None => Ok(Token::zero()),
        }
    }

    /// The ID that an address names.
    pub(crate) fn resolve(&self, base: &Base, address: &Address) -> Mem<Option<ActorId>>
        ensures { (s : State) → Stands self.now base.now s → IfOk result (λ id. id ≡ resolved s.names address.now) }
    {
        self.names.resolve(base, address)
    }

    /// The actor that an address names, with its ID.
    pub(crate) fn receiver(&self, base: &Base, address: &Address) -> Mem<Option<(ActorId, Actor)>>
        ensures found { (s : State) → Stands self.now base.now s → IfOk result (λ found.
            option_map (λ receiver. receiver.0) found ≡ actor_named s address.now) }
        ensures actor { (s : State) → Stands self.now base.now s → IfOk result (λ found.
            IfSome found (λ receiver. get s.actors receiver.0 ≡ Some receiver.1)) }
    {
        let Some(id) = self.resolve(base, address)? else {
            return Ok(None);
        };
        match self.actor(base, id)? {
            Some(actor) => Ok(Some((id, actor))),
            None => Ok(None),
        }
    }

    /// Puts an actor under an ID.
    fn put(&mut self, base: &Base, id: ActorId, actor: Actor) -> Mem<()>
        ensures { (s : State) → Stands self.old base.now s
            → OnOk result (Stands self.new base.now (record s { actors = insert s.actors id actor })) }
    {
        self.tree.put_actor(base, id, actor)
    }

    /// Gives an actor an amount, if it is there.
    pub(crate) fn give(&mut self, base: &Base, id: ActorId, amount: u128) -> Mem<()>
        requires { (s : State) × Stands self.old base.now s × IsWithin (with_more s id amount) }
        ensures { (s : State) → Stands self.old base.now s
            → OnOk result (Stands self.new base.now (with_more s id amount)) }
    {
        match self.actor(base, id)? {
            Some(actor) => self.give_to(base, id, actor, amount),
            None => Ok(()),
        }
    }

    /// Gives the actor that is under an ID an amount.
    fn give_to(&mut self, base: &Base, id: ActorId, actor: Actor, amount: u128) -> Mem<()>
        requires { (s : State) × Stands self.old base.now s × (get s.actors id ≡ Some actor)
            × IsWithin (with_more s id amount) }
        ensures { (s : State) → Stands self.old base.now s → get s.actors id ≡ Some actor
            → OnOk result (Stands self.new base.now (with_more s id amount)) }
    {
        let balance = sum_of(actor.balance, amount);
        self.put(base, id, with_balance(actor, balance))
    }

    /// Takes an amount from an actor, if it is there.
    pub(crate) fn take(&mut self, base: &Base, id: ActorId, amount: u128) -> Mem<()>
        requires { (s : State) × Stands self.old base.now s × (amount ≤ held s id) }
        ensures { (s : State) → Stands self.old base.now s
            → OnOk result (Stands self.new base.now (with_less s id amount)) }
    {
        match self.actor(base, id)? {
            Some(actor) => {
                let balance = rest_of(actor.balance, amount);
                self.put(base, id, with_balance(actor, balance))
            }
            None => Ok(()),
        }
    }

    /// Raises the sequence number of a message's sender, the actor under an ID, and takes the most that the message's gas
    /// can cost from it.
    pub(crate) fn set_aside(
        &mut self,
        base: &Base,
        id: ActorId,
        actor: Actor,
        message: &Message,
    ) -> Mem<()>
        requires message { IsMessage message.now }
        requires sequence { actor.sequence + 1 < 2 ^ 64 }
        requires balance { greatest_cost message.now ≤ actor.balance }
        ensures { (s : State) → Stands self.old base.now s → get s.actors id ≡ Some actor
            → OnOk result (Stands self.new base.now (set_aside s id message.now)) }
    {
        let balance = rest_of(actor.balance, greatest_cost(message));
        self.put(base, id, with_next_sequence(with_balance(actor, balance)))
    }

    /// Burns an amount: it goes to the burnt funds, and is recorded.
    pub(crate) fn burn(&mut self, base: &Base, amount: u128) -> Mem<()>
        requires { (s : State) × Stands self.old base.now s × IsWithin (burned s amount) }
        ensures { (s : State) → Stands self.old base.now s
            → OnOk result (Stands self.new base.now (burned s amount)) }
    {
        self.give(base, burnt_funds(), amount)?;
        self.burned = sum_of(self.burned, amount);
        Ok(())
    }

    /// Pays an actor an amount; what the burnt funds are paid is burned.
    pub(crate) fn pay(&mut self, base: &Base, id: ActorId, amount: u128) -> Mem<()>
        requires { (s : State) × Stands self.old base.now s × IsWithin (paid s id amount) }
        ensures { (s : State) → Stands self.old base.now s
            → OnOk result (Stands self.new base.now (paid s id amount)) }
    {
        if id == burnt_funds() {
            self.burn(base, amount)
        } else {
            self.give(base, id, amount)
        }
    }

    /// Moves an amount from one actor to another.
    pub(crate) fn transfer(
        &mut self,
        base: &Base,
        from: ActorId,
        to: ActorId,
        amount: u128,
    ) -> Mem<()>
        requires { (s : State) × Stands self.old base.now s × (amount ≤ held s from) × IsWithin (moved s from to amount) }
        ensures { (s : State) → Stands self.old base.now s
            → OnOk result (Stands self.new base.now (moved s from to amount)) }
    {
        self.take(base, from, amount)?;
        self.pay(base, to, amount)
    }

    /// Moves an amount from one actor to another, which is the one under its ID.
    pub(crate) fn transfer_to(
        &mut self,
        base: &Base,
        from: ActorId,
        to: (ActorId, Actor),
        amount: u128,
    ) -> Mem<()>
        requires { (s : State) × Stands self.old base.now s × (get s.actors to.0 ≡ Some to.1) × (amount ≤ held s from)
            × IsWithin (moved s from to.0 amount) }
        ensures { (s : State) → Stands self.old base.now s → get s.actors to.0 ≡ Some to.1
            → OnOk result (Stands self.new base.now (moved s from to.0 amount)) }
    {
        let (id, actor) = to;
        if id == from || id == burnt_funds() {
            return self.transfer(base, from, id, amount);
        }
        self.take(base, from, amount)?;
        self.give_to(base, id, actor, amount)
    }

    /// Mints an amount, which the reward actor gets.
    pub(crate) fn mint(&mut self, base: &Base, amount: u128) -> Mem<()>
        requires { (s : State) × Stands self.old base.now s × IsWithin (minted s amount) }
        ensures { (s : State) → Stands self.old base.now s
            → OnOk result (Stands self.new base.now (minted s amount)) }
    {
        self.give(base, reward(), amount)?;
        self.minted = sum_of(self.minted, amount);
        Ok(())
    }

    /// What was minted.
    pub(crate) fn minted(&self) -> Token
        ensures { result ≡ self.now.minted }
    {
        self.minted
    }

    /// What was burned.
    pub(crate) fn burned(&self) -> Token
        ensures { result ≡ self.now.burned }
    {
        self.burned
    }

    /// The state's root, and its blocks that the base does not hold, each once.
    pub(crate) fn flush(mut self, base: &Base) -> Mem<(Cid, Row<Block>)>
        ensures root { (s : State) → Stands self base.now s → IfOk result (λ r. r.0 ≡ state_root s) }
        ensures nodes { (s : State) → Stands self base.now s
            → IfOk result (λ r. r.1 ≡ new_blocks base.now (state_nodes s)) }
    {
        flush_state(base, &mut self.tree, &mut self.names)
    }
}

/// The actor that pays awards.
pub(crate) fn reward() -> ActorId
    ensures { result ≡ reward_id }
{
    id_of(2)
}

/// The actor to which burnt funds go.
pub(crate) fn burnt_funds() -> ActorId
    ensures { result ≡ burnt_funds_id }
{
    id_of(99)
}

/// The ID of this number.
fn id_of(number: u64) -> ActorId
    requires { number < 2 ^ 63 }
    ensures { result ≡ number }
{
    ActorId::new(number).unwrap()
}

/// An amount and more.
fn sum_of(amount: Token, more: u128) -> Token
    requires { amount + more ≤ GREATEST_AMOUNT }
    ensures { result ≡ amount + more }
{
    Token::new(amount.number() + more).unwrap()
}

/// What is left of an amount.
fn rest_of(amount: Token, less: u128) -> Token
    requires { less ≤ amount }
    ensures { result ≡ amount - less }
{
    Token::new(amount.number() - less).unwrap()
}

/// An actor with another balance.
fn with_balance(mut actor: Actor, balance: Token) -> Actor
    ensures { result ≡ record actor { balance = balance } }
{
    actor.balance = balance;
    actor
}

/// An actor with the next sequence number.
fn with_next_sequence(mut actor: Actor) -> Actor
    requires { actor.sequence + 1 < 2 ^ 64 }
    ensures { result ≡ record actor { sequence = actor.sequence + 1 } }
{
    actor.sequence += 1;
    actor
}
