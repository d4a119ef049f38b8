ghost use Rattle.std.specs.Prelude.{◌≡◌, ◌+◌, nat_le};
ghost use Rattle.std.specs.List.{list_all, sum_by};
ghost use Rattle.fil_base.specs.declared.token.TheConstants.{GREATEST_AMOUNT as greatest};
ghost use Rattle.state_tree.specs.ActorPairs.{IfPair, IfPairs, balance_in, is_below};
ghost use Rattle.state_tree.specs.Reading.{id_in};

use crate::key::id_in;
use crate::record::fields_in;
use dag_cbor::Value;
use fil_base::{ActorId, Bytes, GREATEST_AMOUNT};

/// Whether each pair is a key with its record.
pub(crate) fn are_actors(pairs: &[(Bytes, Value)]) -> bool
    ensures { IfPairs result pairs.now }
{
    for pair in pairs {
        if !is_actor(pair) {
            return false;
        }
    }
    true
}

/// Whether the IDs of all keys are below this one.
pub(crate) fn are_below(pairs: &[(Bytes, Value)], next: ActorId) -> bool
    ensures { result ≡ list_all (λ p. is_below next (id_in p.0)) pairs.now }
{
    for (key, _) in pairs {
        if !is_below(id_in(key.as_slice()), next) {
            return false;
        }
    }
    true
}

/// Whether all balances and the awards add up to at most the greatest amount.
pub(crate) fn are_within(pairs: &[(Bytes, Value)], awards: u128) -> bool
    ensures { result ≡ nat_le (sum_by (λ p. balance_in p.1) pairs.now + awards) greatest }
{
    if awards > GREATEST_AMOUNT {
        return false;
    }
    let mut left = GREATEST_AMOUNT - awards;
    for (_, value) in pairs {
        let balance = balance_in(value);
        if balance > left {
            return false;
        }
        left -= balance;
    }
    true
}

/// Whether a pair is a key with its record.
fn is_actor(pair: &(Bytes, Value)) -> bool
    ensures { IfPair result pair.now }
{
    let (key, value) = pair;
    id_in(key.as_slice()).is_some() && fields_in(value).is_some()
}

/// Whether there is an ID, and it is below another.
fn is_below(id: Option<ActorId>, next: ActorId) -> bool
    ensures { result ≡ is_below next id }
{
    match id {
        Some(id) => id.number() < next.number(),
        None => false,
    }
}

/// The balance of the actor whose record a value is, or 0.
fn balance_in(value: &Value) -> u128
    ensures { result ≡ balance_in value.now }
{
    match fields_in(value) {
        Some(fields) => fields.balance.number(),
        None => 0,
    }
}
