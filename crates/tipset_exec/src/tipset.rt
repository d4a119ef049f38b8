ghost use Rattle.std.specs.Prelude.{◌≡◌, ◌+◌, ◌++◌, ◌∷◌, [], ◌<◌, ◌≤◌, ◌^◌, ℕ, All, IfOk, List, OnOk, length, min};
ghost use Rattle.cid_core.specs.BlockParts.{BlockParts};
ghost use Rattle.fil_base.specs.declared.token.TheConstants.{GREATEST_AMOUNT as greatest};
ghost use Rattle.fil_message.specs.Tipsets.{IsShortMessage, IsTipBlock, IsTipset, awards};
ghost use Rattle.state_model.specs.State.{State};
ghost use Rattle.fil_base.specs.CidParts.{CidParts};
ghost use Rattle.tipset_exec.specs.Funds.{IsFunded};
ghost use Rattle.tipset_exec.specs.Progress.{StandsFor};
ghost use Rattle.tipset_exec.specs.Stands.{Stands};
ghost use Rattle.tipset_exec.specs.Tipsets.{Run, awarded, begun, payee, tipset_run, with_block, with_message, with_messages};

use crate::ledger::{Ledger, burnt_funds, reward};
use crate::message::{Outcome, apply};
use block_base::Base;
use fil_base::{ActorId, Bytes, GREATEST_AMOUNT, Mem};
use fil_message::{Message, Receipt, ReceiptLine, TipBlock, Tipset, message_bytes};
use gas_prices::Rules;
use std::alloc::Global;
use std::collections::BTreeSet;

/// What the messages of a tipset did so far.
#[derive(Drop)]
pub(crate) struct Progress {
    alloc: Global,

    /// The state.
    pub(crate) ledger: Ledger,

    /// The receipts.
    pub(crate) lines: Vec<ReceiptLine>,

    /// The encodings of the messages that came.
    came: BTreeSet<Vec<u8>>,

    /// What the miner of the block at hand gets.
    tips: u128,

    /// What the miner of the block at hand owes.
    penalties: u128,
}

/// Where a message stands: its block in the tipset, and its place in the block, each from 0.
#[derive(Clone, Copy, Debug)]
struct Place {
    block: u32,
    message: u32,
}

impl Progress {
    /// Nothing ran yet.
    fn begin(alloc: Global, ledger: Ledger) -> Progress
        ensures { (blocks : List BlockParts) (s : State) → Stands ledger blocks s → StandsFor result blocks (begun s) }
    {
        Progress {
            alloc,
            ledger,
            lines: Vec::new(alloc),
            came: BTreeSet::new(alloc),
            tips: 0,
            penalties: 0,
        }
    }

    /// Adds the receipt of a message, and what its miner gets and owes.
    fn record(&mut self, place: Place, outcome: Outcome) -> Mem<()>
        requires { self.old.tips + outcome.tip < 2 ^ 128 }
        ensures ledger { self.new.ledger ≡ self.old.ledger }
        ensures came { self.new.came ≡ self.old.came }
        ensures lines { OnOk result (self.new.lines.items ≡ self.old.lines.items ++ record {
          block = place.block;
          message = place.message;
          receipt = record { exit = outcome.exit; returned = []; used = outcome.used };
        } ∷ []) }
        ensures tips { OnOk result (self.new.tips ≡ self.old.tips + outcome.tip) }
        ensures penalties { OnOk result (self.new.penalties ≡ min (self.old.penalties + outcome.penalty) greatest) }
    {
        self.lines.push(ReceiptLine {
            block: place.block,
            message: place.message,
            receipt: Receipt {
                exit: outcome.exit,
                returned: Bytes::of(Vec::new(self.alloc)),
                used: outcome.used,
            },
        })?;
        self.tips += outcome.tip;
        self.penalties = self
            .penalties
            .saturating_add(outcome.penalty)
            .min(GREATEST_AMOUNT);
        Ok(())
    }
}

/// Runs the blocks of a tipset over a state.
pub(crate) fn run_tipset(
    alloc: Global,
    base: &Base,
    rules: &Rules,
    tipset: &Tipset,
    ledger: Ledger,
) -> Mem<Progress>
    requires funded { (s : State) × Stands ledger base.now s
        × IsFunded rules.now.codes.account s 0 (awards tipset.now) 0 }
    requires tipset { IsTipset tipset.now }
    ensures { (s : State) → Stands ledger base.now s
        → IfOk result (λ progress. StandsFor progress base.now (tipset_run rules.now s tipset.now)) }
{
    let mut progress = Progress::begin(alloc, ledger);
    let blocks = tipset.blocks.as_slice();
    for (i, block) in blocks.iter().enumerate() {
        run_block(base, rules, tipset, &mut progress, i as u32, block)?;
    }
    Ok(progress)
}

/// Runs the messages of the block at a place, and pays its award.
fn run_block(
    base: &Base,
    rules: &Rules,
    tipset: &Tipset,
    progress: &mut Progress,
    place: u32,
    block: &TipBlock,
) -> Mem<()>
    requires funded { (run : Run) × (due : ℕ) × StandsFor progress.old base.now run
        × IsFunded rules.now.codes.account run.state 0 (block.now.award + due) 0 }
    requires block { IsTipBlock block.now }
    ensures { (run : Run) → StandsFor progress.old base.now run
        → OnOk result (StandsFor progress.new base.now (with_block rules.now tipset.now run place block.now)) }
{
    progress.tips = 0;
    progress.penalties = 0;
    run_messages(
        base,
        rules,
        tipset,
        progress,
        place,
        block.messages.as_slice(),
    )?;
    let tips = progress.tips;
    let penalties = progress.penalties;
    pay_award(base, &mut progress.ledger, block, tips, penalties)
}

/// Runs the messages of the block at a place.
fn run_messages(
    base: &Base,
    rules: &Rules,
    tipset: &Tipset,
    progress: &mut Progress,
    block: u32,
    messages: &[Message],
) -> Mem<()>
    requires funded { (run : Run) × (due : ℕ) × StandsFor progress.old base.now run
        × IsFunded rules.now.codes.account run.state 0 due run.tips }
    requires messages { All IsShortMessage messages.now }
    requires count { length messages.now ≤ 10000 }
    ensures { (run : Run) → StandsFor progress.old base.now run
        → OnOk result (StandsFor progress.new base.now (with_messages rules.now tipset.now block run 0 messages.now)) }
{
    for (i, message) in messages.iter().enumerate() {
        let place = Place {
            block,
            message: i as u32,
        };
        run_message(base, rules, tipset, progress, place, message)?;
    }
    Ok(())
}

/// Runs the message at a place, unless its encoding came before.
fn run_message(
    base: &Base,
    rules: &Rules,
    tipset: &Tipset,
    progress: &mut Progress,
    place: Place,
    message: &Message,
) -> Mem<()>
    requires funded { (run : Run) × (due : ℕ) × StandsFor progress.old base.now run
        × IsFunded rules.now.codes.account run.state 0 due run.tips }
    requires message { IsShortMessage message.now }
    ensures { (run : Run) → StandsFor progress.old base.now run → OnOk result (StandsFor progress.new base.now
        (with_message rules.now tipset.now place.block run place.message message.now)) }
{
    let encoding = message_bytes(progress.alloc, message)?;
    if progress.came.contains(encoding.as_slice()) {
        return Ok(());
    }
    let size = encoding.as_slice().len();
    let outcome = apply(base, rules, tipset, &mut progress.ledger, message, size)?;
    progress.came.insert(encoding.into_vec())?;
    progress.record(place, outcome)
}

/// Mints a block's award. Of it and the tips the penalties are burned, and the rest is the miner's, or burned where the
/// miner is no actor.
fn pay_award(
    base: &Base,
    ledger: &mut Ledger,
    block: &TipBlock,
    tips: u128,
    penalties: u128,
) -> Mem<()>
    requires { (account : CidParts) × (s : State) × (due : ℕ) × Stands ledger.old base.now s
        × IsFunded account s 0 (block.now.award + due) tips }
    ensures { (s : State) → Stands ledger.old base.now s
        → OnOk result (Stands ledger.new base.now (awarded s block.now tips penalties)) }
{
    let payee = payee(base, ledger, block.miner)?;
    ledger.mint(base, block.award.number())?;
    let earned = block.award.number() + tips;
    let owed = earned.min(penalties);
    ledger.transfer(base, reward(), burnt_funds(), owed)?;
    ledger.transfer(base, reward(), payee, earned - owed)
}

/// Who gets what a block earns: its miner, if that is an actor, else the burnt funds.
fn payee(base: &Base, ledger: &Ledger, miner: ActorId) -> Mem<ActorId>
    ensures { (s : State) → Stands ledger.now base.now s → IfOk result (λ id. id ≡ payee s miner) }
{
    match ledger.actor(base, miner)? {
        Some(_) => Ok(miner),
        None => Ok(burnt_funds()),
    }
}
