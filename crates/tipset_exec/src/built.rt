ghost use Rattle.std.specs.Prelude.{◌≡◌, ◌==◌, IfOk, IfSome, Ok, not, true};
ghost use Rattle.std.specs.List.{list_all, list_any};
ghost use Rattle.state_model.specs.State.{State};
ghost use Rattle.state_model.specs.StateAt.{state_at};
ghost use Rattle.tipset_exec.specs.Alone.{IsEvaluable, has_account, is_built, is_transfer};
ghost use Rattle.tipset_exec.specs.Keys.{is_key};
ghost use Rattle.tipset_exec.specs.Opens.{Opens};
ghost use Rattle.tipset_exec.specs.Stands.{Stands};

use crate::ledger::Ledger;
use crate::opening_state::OpeningState;
use block_base::Base;
use fil_address::Address;
use fil_base::{Mem, NoMemory};
use fil_message::{Message, Tipset};
use gas_prices::Rules;
use std::alloc::Global;

/// Whether this version evaluates a tipset: it has one block at most, whose messages move values alone, to receivers for
/// which no account would have to be made.
pub fn is_built(alloc: Global, base: &Base, rules: &Rules, tipset: &Tipset) -> Mem<bool>
    requires { (s : State) × IsEvaluable base.now rules.now tipset.now s }
    ensures { (s : State) → state_at base.now tipset.now.root rules.now.codes ≡ Ok s
        → IfOk result (λ built. built ≡ is_built s tipset.now) }
{
    if let Some(built) = built_over_any_state(tipset) {
        return Ok(built);
    }
    match OpeningState::load(alloc, base, &tipset.root, &rules.codes) {
        Ok(opening) => is_built_from(base, tipset, &opening),
        Err(_) => Err(NoMemory),
    }
}

/// Whether this version evaluates a tipset, where that is the same over any state. Where the name of a receiver has to be
/// looked up, it is not.
pub fn built_over_any_state(tipset: &Tipset) -> Option<bool>
    ensures { (s : State) → IfSome result (λ built. built ≡ is_built s tipset.now) }
{
    match tipset.blocks.as_slice() {
        [] => Some(true),
        [block] => are_transfers_over_any_state(block.messages.as_slice()),
        _ => Some(false),
    }
}

/// Whether this version evaluates a tipset, by the state under its root, which is loaded.
pub fn is_built_from(base: &Base, tipset: &Tipset, opening: &OpeningState) -> Mem<bool>
    ensures { (s : State) → Opens opening.now base.now s → IfOk result (λ built. built ≡ is_built s tipset.now) }
{
    match tipset.blocks.as_slice() {
        [] => Ok(true),
        [block] => are_transfers(base, opening.ledger(), block.messages.as_slice()),
        _ => Ok(false),
    }
}

/// Whether messages move values alone, to receivers for which no account would have to be made, where it does not depend
/// on the state.
fn are_transfers_over_any_state(messages: &[Message]) -> Option<bool>
    ensures { (s : State) → IfSome result (λ all. all ≡ list_all (is_transfer s) messages.now) }
{
    if !are_sends(messages) {
        Some(false)
    } else if !have_keys(messages) {
        Some(true)
    } else {
        None
    }
}

/// Whether messages move values alone, to receivers for which no account would have to be made.
fn are_transfers(base: &Base, ledger: &Ledger, messages: &[Message]) -> Mem<bool>
    ensures { (s : State) → Stands ledger.now base.now s
        → IfOk result (λ all. all ≡ list_all (is_transfer s) messages.now) }
{
    if are_sends(messages) {
        have_accounts(base, ledger, messages)
    } else {
        Ok(false)
    }
}

/// Whether all messages send a value alone: method 0.
fn are_sends(messages: &[Message]) -> bool
    ensures { result ≡ list_all (λ m. m.method == 0) messages.now }
{
    messages.iter().all(|message| message.method == 0)
}

/// Whether a message has the address of a key as its receiver.
fn have_keys(messages: &[Message]) -> bool
    ensures { result ≡ list_any (λ m. is_key m.to) messages.now }
{
    messages.iter().any(|message| is_key(&message.to))
}

/// Whether an address is that of a key.
fn is_key(address: &Address) -> bool
    ensures { result ≡ is_key address.now }
{
    match address {
        Address::Secp(_) | Address::Bls(_) => true,
        Address::Id(_) | Address::Made(_) => false,
    }
}

/// Whether no account would have to be made for the receivers of messages.
fn have_accounts(base: &Base, ledger: &Ledger, messages: &[Message]) -> Mem<bool>
    ensures { (s : State) → Stands ledger.now base.now s
        → IfOk result (λ all. all ≡ list_all (λ m. has_account s m.to) messages.now) }
{
    for message in messages {
        if !has_account(base, ledger, &message.to)? {
            return Ok(false);
        }
    }
    Ok(true)
}

/// Whether no account would have to be made for an address.
fn has_account(base: &Base, ledger: &Ledger, address: &Address) -> Mem<bool>
    ensures { (s : State) → Stands ledger.now base.now s
        → IfOk result (λ has. has ≡ has_account s address.now) }
{
    if !is_key(address) {
        return Ok(true);
    }
    let id = ledger.resolve(base, address)?;
    Ok(id.is_some())
}
