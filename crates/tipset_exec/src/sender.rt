ghost use Rattle.std.specs.Prelude.{◌≡◌, ◌≤◌, IfOk, Some};
ghost use Rattle.fee_rules.specs.declared.fees.TheConstants.{BLOCK_GAS_LIMIT};
ghost use Rattle.fil_message.specs.Sound.{IsMessage};
ghost use Rattle.state_model.specs.State.{State};
ghost use Rattle.tipset_exec.specs.Ends.{IsJudged};
ghost use Rattle.tipset_exec.specs.Messages.{sender_fault};
ghost use Rattle.tipset_exec.specs.Stands.{Stands};

use crate::cost::greatest_cost;
use crate::ledger::{Ledger, burnt_funds};
use block_base::Base;
use fil_base::{ActorId, Mem, SYS_SENDER_INVALID, SYS_SENDER_STATE_INVALID};
use fil_message::Message;
use gas_prices::Rules;
use state_tree::Actor;

/// The sender with its ID, or the exit code that says why a message may not run.
pub(crate) fn judge_sender(
    base: &Base,
    rules: &Rules,
    ledger: &Ledger,
    message: &Message,
) -> Mem<Result<(ActorId, Actor), u32>>
    requires { IsMessage message.now }
    ensures { (s : State) → Stands ledger.now base.now s
        → IfOk result (IsJudged rules.now s message.now) }
{
    let Some(id) = ledger.resolve(base, &message.from)? else {
        return Ok(Err(SYS_SENDER_INVALID));
    };
    let Some(actor) = ledger.actor(base, id)? else {
        return Ok(Err(SYS_SENDER_INVALID));
    };
    match sender_fault(rules, message, id, &actor) {
        Some(exit) => Ok(Err(exit)),
        None => Ok(Ok((id, actor))),
    }
}

/// Why an actor may not send a message.
fn sender_fault(rules: &Rules, message: &Message, id: ActorId, actor: &Actor) -> Option<u32>
    requires { message.now.limit ≤ BLOCK_GAS_LIMIT }
    ensures { result ≡ sender_fault rules.now message.now (Some (id, actor.now)) }
{
    if id == burnt_funds() {
        return Some(SYS_SENDER_INVALID);
    }
    if actor.code != rules.codes.account {
        return Some(SYS_SENDER_INVALID);
    }
    if actor.sequence != message.nonce {
        return Some(SYS_SENDER_STATE_INVALID);
    }
    if actor.balance.number() < greatest_cost(message) {
        return Some(SYS_SENDER_STATE_INVALID);
    }
    None
}
