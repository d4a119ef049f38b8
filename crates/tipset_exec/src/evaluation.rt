ghost use Rattle.std.specs.Prelude.{◌≡◌, ◌≤◌, ◌*◌, ◌<◌, ◌^◌, IfOk, Ok, length, map, sum, true};
ghost use Rattle.cid_core.specs.BlockParts.{BlockParts};
ghost use Rattle.fil_base.specs.declared.token.TheConstants.{GREATEST_AMOUNT};
ghost use Rattle.state_model.specs.State.{State};
ghost use Rattle.state_model.specs.StateAt.{state_at};
ghost use Rattle.tipset_exec.specs.Alone.{IsEvaluable, alone, alone_blocks, blocks_made, is_built, report_on};
ghost use Rattle.tipset_exec.specs.Opens.{Opens};
ghost use Rattle.tipset_exec.specs.Progress.{AreCountable, StandsFor};
ghost use Rattle.tipset_exec.specs.Tipsets.{Run};

use crate::opening_state::OpeningState;
use crate::receipts::receipts_tree;
use crate::tipset::{Progress, run_tipset};
use block_base::Base;
use cid_core::Block;
use fil_base::{Cid, Mem, NoMemory, Row};
use fil_message::{ReceiptLine, Report, Tipset};
use gas_prices::Rules;
use state_model::put_all_new;
use std::alloc::Global;

/// The report on a tipset that a machine of one thread gives alone, and the blocks that it made: its messages run over
/// the state under its root, one after another, and each block's award is paid. The blocks are those of the receipts'
/// tree and of the state that the base does not hold, each once.
pub fn evaluate_alone(
    alloc: Global,
    base: &Base,
    rules: &Rules,
    tipset: &Tipset,
) -> Mem<(Report, Row<Block>)>
    requires { (s : State) × IsEvaluable base.now rules.now tipset.now s × (is_built s tipset.now ≡ true) }
    ensures report { (s : State) → state_at base.now tipset.now.root rules.now.codes ≡ Ok s
        → IfOk result (λ r. r.0 ≡ alone base.now rules.now s tipset.now) }
    ensures blocks { (s : State) → state_at base.now tipset.now.root rules.now.codes ≡ Ok s
        → IfOk result (λ r. r.1 ≡ alone_blocks base.now rules.now s tipset.now) }
{
    let opening = match OpeningState::load(alloc, base, &tipset.root, &rules.codes) {
        Ok(opening) => opening,
        Err(_) => return Err(NoMemory),
    };
    evaluate_from(alloc, base, rules, tipset, &opening)
}

/// The report on a tipset and the blocks that it made, as [`evaluate_alone`] gives them, from the state under its root,
/// which is loaded. That state stays as it is: the messages run over a copy.
pub fn evaluate_from(
    alloc: Global,
    base: &Base,
    rules: &Rules,
    tipset: &Tipset,
    opening: &OpeningState,
) -> Mem<(Report, Row<Block>)>
    requires { (s : State) × IsEvaluable base.now rules.now tipset.now s × (is_built s tipset.now ≡ true)
        × Opens opening.now base.now s }
    ensures report { (s : State) → Opens opening.now base.now s
        → IfOk result (λ r. r.0 ≡ alone base.now rules.now s tipset.now) }
    ensures blocks { (s : State) → Opens opening.now base.now s
        → IfOk result (λ r. r.1 ≡ alone_blocks base.now rules.now s tipset.now) }
{
    evaluate(alloc, base, rules, tipset, opening)
}

/// The report on a tipset, of any number of blocks, and the blocks that it made.
pub(crate) fn evaluate(
    alloc: Global,
    base: &Base,
    rules: &Rules,
    tipset: &Tipset,
    opening: &OpeningState,
) -> Mem<(Report, Row<Block>)>
    requires { (s : State) × IsEvaluable base.now rules.now tipset.now s × Opens opening.now base.now s }
    ensures report { (s : State) → Opens opening.now base.now s
        → IfOk result (λ r. r.0 ≡ alone base.now rules.now s tipset.now) }
    ensures blocks { (s : State) → Opens opening.now base.now s
        → IfOk result (λ r. r.1 ≡ alone_blocks base.now rules.now s tipset.now) }
{
    let ledger = opening.begin()?;
    let progress = run_tipset(alloc, base, rules, tipset, ledger)?;
    report_on(alloc, base, tipset.epoch, progress)
}

/// The report on what a tipset did, and the blocks that it made.
fn report_on(
    alloc: Global,
    base: &Base,
    epoch: u64,
    progress: Progress,
) -> Mem<(Report, Row<Block>)>
    requires { (run : Run) × StandsFor progress base.now run × AreCountable run.lines }
    ensures report { (run : Run) → StandsFor progress base.now run
        → IfOk result (λ r. r.0 ≡ report_on base.now epoch run) }
    ensures blocks { (run : Run) → StandsFor progress base.now run
        → IfOk result (λ r. r.1 ≡ blocks_made base.now run) }
{
    let Progress { ledger, lines, .. } = progress;
    let (receipts_root, blocks) = receipts_tree(alloc, base, &lines)?;
    let gas = gas_of(&lines);
    let minted = ledger.minted();
    let burned = ledger.burned();
    let (state_root, state_blocks) = ledger.flush(base)?;
    let mut blocks = blocks.into_vec();
    put_all_new(&mut blocks, state_blocks)?;
    let made = cids_of(alloc, &blocks)?;
    let report = Report {
        epoch,
        lines: Row::of(lines),
        receipts_root,
        state_root,
        gas,
        minted,
        burned,
        invocations: 0,
        made: Row::of(made),
    };
    Ok((report, Row::of(blocks)))
}

/// The gas that the messages used.
fn gas_of(lines: &[ReceiptLine]) -> u64
    requires { sum (map (λ l. l.receipt.used) lines.now) < 2 ^ 64 }
    ensures { result ≡ sum (map (λ l. l.receipt.used) lines.now) }
{
    lines.iter().map(|line| line.receipt.used.number()).sum()
}

/// The CIDs of blocks.
fn cids_of(alloc: Global, blocks: &[Block]) -> Mem<Vec<Cid>>
    ensures { IfOk result (λ cids. cids.items ≡ map (λ b. b.cid) blocks.now) }
{
    let mut cids = Vec::with_capacity(alloc, blocks.len())?;
    for block in blocks {
        cids.push(block.cid().copy(alloc)?)?;
    }
    Ok(cids)
}
