ghost use Rattle.std.specs.Prelude.{◌≡◌, ◌≢◌, ◌≤◌, ℕ, IfOk, Some, length};
ghost use Rattle.std.specs.FinMap.{get};
ghost use Rattle.fil_message.specs.Sound.{IsMessage};
ghost use Rattle.state_model.specs.State.{State};
ghost use Rattle.tipset_exec.specs.Balances.{burnt_funds_id, moved, reward_id};
ghost use Rattle.tipset_exec.specs.Calls.{call_of, called, transfer};
ghost use Rattle.tipset_exec.specs.Ends.{IsEnd};
ghost use Rattle.tipset_exec.specs.Funds.{IsWithin, held};
ghost use Rattle.tipset_exec.specs.Messages.{call_end, call_in, inclusion_gas};
ghost use Rattle.tipset_exec.specs.Stands.{Stands};

use crate::exit::SYS_OUT_OF_GAS;
use crate::ledger::Ledger;
use block_base::Base;
use fil_base::{
    ActorId, EXIT_OK, ExitCode, Mem, SYS_INSUFFICIENT_FUNDS, SYS_INVALID_RECEIVER, Token,
};
use fil_message::Message;
use gas_prices::{Meter, Price, Rules};
use state_tree::Actor;

/// Charges the gas for a message's inclusion and for a call, and calls the receiver. It gives the call's exit code; where
/// that is not 0, the state is as before.
pub(crate) fn run_call(
    base: &Base,
    rules: &Rules,
    ledger: &mut Ledger,
    meter: &mut Meter,
    from: ActorId,
    message: &Message,
    inclusion: u64,
) -> Mem<ExitCode>
    requires state { (s : State) × Stands ledger.old base.now s
        × ((to : ℕ) → message.now.value ≤ held s from → IsWithin (moved s from to message.now.value)) }
    requires limit { meter.old.left ≡ message.now.limit }
    requires inclusion { inclusion ≡ inclusion_gas rules.now message.now }
    ensures end { (s : State) → Stands ledger.old base.now s
        → IfOk result (λ exit. IsEnd exit ledger.new meter.new.left base.now (call_end rules.now s from message.now)) }
    ensures limit { meter.new.limit ≡ meter.old.limit }
{
    if meter.charge(inclusion).is_err() {
        return Ok(ExitCode::new(SYS_OUT_OF_GAS));
    }
    if meter.charge(rules.prices.of(Price::Call)).is_err() {
        return Ok(ExitCode::new(SYS_OUT_OF_GAS));
    }
    call(base, rules, ledger, meter, from, message)
}

/// Calls the receiver of a message. So far no code runs: the value moves.
fn call(
    base: &Base,
    rules: &Rules,
    ledger: &mut Ledger,
    meter: &mut Meter,
    from: ActorId,
    message: &Message,
) -> Mem<ExitCode>
    requires { (s : State) × Stands ledger.old base.now s
        × ((to : ℕ) → message.now.value ≤ held s from → IsWithin (moved s from to message.now.value)) }
    ensures end { (s : State) → Stands ledger.old base.now s
        → IfOk result (λ exit. IsEnd exit ledger.new meter.new.left base.now
        (called rules.now s meter.old.left (call_in from message.now))) }
    ensures limit { meter.new.limit ≡ meter.old.limit }
{
    let Some(receiver) = ledger.receiver(base, &message.to)? else {
        return Ok(ExitCode::new(SYS_INVALID_RECEIVER));
    };
    if message.value.number() == 0 {
        return Ok(ExitCode::new(EXIT_OK));
    }
    if meter.charge(rules.prices.of(Price::Transfer)).is_err() {
        return Ok(ExitCode::new(SYS_OUT_OF_GAS));
    }
    transfer(base, ledger, from, receiver, message.value)
}

/// Moves a value, if the sender has as much.
fn transfer(
    base: &Base,
    ledger: &mut Ledger,
    from: ActorId,
    to: (ActorId, Actor),
    value: Token,
) -> Mem<ExitCode>
    requires { (s : State) × Stands ledger.old base.now s × (get s.actors to.0 ≡ Some to.1)
        × (value ≤ held s from → IsWithin (moved s from to.0 value)) }
    ensures { (s : State) (gas : ℕ) → Stands ledger.old base.now s → get s.actors to.0 ≡ Some to.1
        → IfOk result (λ exit. IsEnd exit ledger.new gas base.now (transfer s gas from to.0 value)) }
{
    if ledger.balance(base, from)?.number() < value.number() {
        return Ok(ExitCode::new(SYS_INSUFFICIENT_FUNDS));
    }
    ledger.transfer_to(base, from, to, value.number())?;
    Ok(ExitCode::new(EXIT_OK))
}
