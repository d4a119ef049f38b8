ghost use Rattle.std.specs.Prelude.{◌≡◌, ◌+◌, ◌*◌, ◌≤◌, ℕ, IfOk, OnOk, Some, length, min};
ghost use Rattle.std.specs.FinMap.{get};
ghost use Rattle.fee_rules.specs.declared.fees.TheConstants.{BLOCK_GAS_LIMIT};
ghost use Rattle.fil_message.specs.Layout.{message_spelling};
ghost use Rattle.fil_message.specs.Sound.{IsMessage};
ghost use Rattle.fil_message.specs.Tipsets.{IsShortMessage};
ghost use Rattle.state_model.specs.State.{State};
ghost use Rattle.tipset_exec.specs.Balances.{burned, reward_id, with_more};
ghost use Rattle.tipset_exec.specs.Ends.{IsOutcome, IsSender};
ghost use Rattle.tipset_exec.specs.Funds.{IsFunded, IsWithin};
ghost use Rattle.tipset_exec.specs.Messages.{applied, call_end, ended, inclusion_gas, set_aside, settled};
ghost use Rattle.tipset_exec.specs.Stands.{Stands};

use crate::call::run_call;
use crate::cost::inclusion_gas;
use crate::exit::SYS_OUT_OF_GAS;
use crate::ledger::{Ledger, reward};
use crate::sender::judge_sender;
use block_base::Base;
use fee_rules::{Fees, outputs};
use fil_base::{ActorId, ExitCode, Gas, Mem};
use fil_message::{Message, Tipset};
use gas_prices::{Meter, Rules};
use state_tree::Actor;

/// What a message did, besides its changes of the state. It returned nothing.
#[derive(Clone, Copy, Debug)]
pub(crate) struct Outcome {
    /// How it ended.
    pub(crate) exit: ExitCode,

    /// The gas that it used.
    pub(crate) used: Gas,

    /// What the miner gets for it.
    pub(crate) tip: u128,

    /// What the miner owes for it.
    pub(crate) penalty: u128,
}

/// Runs a message, whose encoding is so many bytes long.
pub(crate) fn apply(
    base: &Base,
    rules: &Rules,
    tipset: &Tipset,
    ledger: &mut Ledger,
    message: &Message,
    size: usize,
) -> Mem<Outcome>
    requires funded { (s : State) × (due : ℕ) × (tips : ℕ) × Stands ledger.old base.now s
        × IsFunded rules.now.codes.account s 0 due tips }
    requires message { IsShortMessage message.now }
    requires size { size ≡ length (message_spelling message.now) }
    ensures { (s : State) → Stands ledger.old base.now s
        → IfOk result (λ outcome. IsOutcome outcome ledger.new base.now (applied rules.now tipset.now s message.now)) }
{
    let inclusion = inclusion_gas(&rules.prices, size);
    if message.limit.number() < inclusion {
        return Ok(not_run(tipset, message, inclusion, SYS_OUT_OF_GAS));
    }
    match judge_sender(base, rules, ledger, message)? {
        Err(exit) => Ok(not_run(tipset, message, inclusion, exit)),
        Ok(sender) => run(base, rules, tipset, ledger, sender, message, inclusion),
    }
}

/// What a message does that may not run: the miner owes the base fee for its inclusion.
fn not_run(tipset: &Tipset, message: &Message, inclusion: u64, exit: u32) -> Outcome
    requires { message.now.limit ≤ BLOCK_GAS_LIMIT }
    ensures { result ≡ record {
      exit = exit;
      used = 0;
      tip = 0;
      penalty = tipset.now.base_fee * min inclusion message.now.limit;
    } }
{
    let gas = inclusion.min(message.limit.number());
    Outcome {
        exit: ExitCode::new(exit),
        used: Gas::new(0),
        tip: 0,
        penalty: tipset.base_fee.number() * u128::from(gas),
    }
}

/// Runs a message that may run.
fn run(
    base: &Base,
    rules: &Rules,
    tipset: &Tipset,
    ledger: &mut Ledger,
    sender: (ActorId, Actor),
    message: &Message,
    inclusion: u64,
) -> Mem<Outcome>
    requires sender { (s : State) × (due : ℕ) × (tips : ℕ) × Stands ledger.old base.now s
        × IsSender rules.now s message.now sender.0 sender.1 × IsFunded rules.now.codes.account s 0 due tips }
    requires message { IsMessage message.now }
    requires inclusion { inclusion ≡ inclusion_gas rules.now message.now }
    ensures { (s : State) → Stands ledger.old base.now s → get s.actors sender.0 ≡ Some sender.1
        → IfOk result (λ outcome. IsOutcome outcome ledger.new base.now (ended tipset.now sender.0 message.now
        (call_end rules.now (set_aside s sender.0 message.now) sender.0 message.now))) }
{
    let (id, actor) = sender;
    let mut meter = Meter::new(message.limit);
    ledger.set_aside(base, id, actor, message)?;
    let exit = run_call(base, rules, ledger, &mut meter, id, message, inclusion)?;
    let used = meter.used();
    let fees = outputs(
        used,
        message.limit,
        tipset.base_fee,
        message.cap,
        message.premium,
    );
    settle(base, ledger, id, &fees)?;
    Ok(Outcome {
        exit,
        used,
        tip: fees.tip,
        penalty: fees.penalty,
    })
}

/// Pays the gas of a message: what is burned, the tip, and what the sender gets back.
fn settle(base: &Base, ledger: &mut Ledger, id: ActorId, fees: &Fees) -> Mem<()>
    requires { (s : State) × Stands ledger.old base.now s × IsWithin (burned s (fees.now.base_burn + fees.now.over_burn))
        × IsWithin (with_more (burned s (fees.now.base_burn + fees.now.over_burn)) reward_id fees.now.tip)
        × IsWithin (settled s id fees.now) }
    ensures { (s : State) → Stands ledger.old base.now s
        → OnOk result (Stands ledger.new base.now (settled s id fees.now)) }
{
    ledger.burn(base, fees.base_burn + fees.over_burn)?;
    ledger.give(base, reward(), fees.tip)?;
    ledger.give(base, id, fees.refund)
}
