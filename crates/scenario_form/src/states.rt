ghost use Rattle.std.specs.Prelude.{◌≡◌, ◌+◌, ◌++◌, ◌<◌, ◌≤◌, ◌↔◌, All, IfErr, IfOk, IsTrue, List, None, OnOk, Some, length, slice_index_or, take};
ghost use Rattle.fil_base.specs.Failure.{IfFault};
ghost use Rattle.fil_message.specs.declared.tipset.Tipset.{Tipset};
ghost use Rattle.scenario_form.specs.Judging.{tipsets_judged};

use crate::fault::ScenarioFault;
use crate::open_state::OpenState;
use crate::room::first_over;
use block_base::Base;
use fil_base::{Cid, Failure};
use fil_message::Tipset;
use gas_prices::Codes;
use std::alloc::Global;

/// Judges tipset by tipset: its state loads, IDs are below its next one, and balances and awards are not too much. A state
/// that tipsets one after another share is loaded once.
pub(crate) fn judge_states(
    alloc: Global,
    base: &Base,
    codes: &Codes,
    tipsets: &[Tipset],
) -> Result<(), Failure<ScenarioFault>>
    requires few { length tipsets.now ≤ 1024 }
    requires blocks { All (λ t. length t.blocks ≤ 256) tipsets.now }
    ensures found { OnOk result (tipsets_judged base.now codes.now 0 tipsets.now ≡ None) }
    ensures fault { IfErr result (λ failure. IfFault failure (λ fault.
        tipsets_judged base.now codes.now 0 tipsets.now ≡ Some fault)) }
{
    let mut done = 0;
    while done < tipsets.len() {
        let (_, left) = tipsets.split_at(done);
        let (run, _) = left.split_at(run_len(left));
        judge_run(alloc, base, codes, done as u32, run)?;
        done += run.len();
    }
    Ok(())
}

/// How many of these tipsets, from the first on, are over the state of the first.
fn run_len(tipsets: &[Tipset]) -> usize
    requires { 0 < length tipsets.now }
    ensures some { 0 < result }
    ensures within { result ≤ length tipsets.now }
    ensures root { (d : Tipset) → All (λ t. t.root ≡ (slice_index_or tipsets.now 0 d).root) (take result tipsets.now) }
{
    let root = &tipsets[0].root;
    for i in 1..tipsets.len() {
        if !has_root(&tipsets[i], root) {
            return i;
        }
    }
    tipsets.len()
}

fn has_root(tipset: &Tipset, root: &Cid) -> bool
    ensures { IsTrue result ↔ (tipset.now.root ≡ root.now) }
{
    tipset.root == *root
}

/// Judges tipsets over one state, of which the first has this place.
fn judge_run(
    alloc: Global,
    base: &Base,
    codes: &Codes,
    first: u32,
    run: &[Tipset],
) -> Result<(), Failure<ScenarioFault>>
    requires some { 0 < length run.now }
    requires few { first + length run.now ≤ 1024 }
    requires blocks { All (λ t. length t.blocks ≤ 256) run.now }
    requires root { (d : Tipset) → All (λ t. t.root ≡ (slice_index_or run.now 0 d).root) run.now }
    ensures found { OnOk result ((rest : List Tipset) → tipsets_judged base.now codes.now first (run.now ++ rest)
        ≡ tipsets_judged base.now codes.now (first + length run.now) rest) }
    ensures fault { IfErr result (λ failure. IfFault failure (λ fault. (rest : List Tipset) →
        tipsets_judged base.now codes.now first (run.now ++ rest) ≡ Some fault)) }
{
    let state = match OpenState::load(alloc, base, &run[0].root, codes) {
        Ok(state) => state,
        Err(Failure::NoMemory) => return Err(Failure::NoMemory),
        Err(Failure::Fault(fault)) => {
            return Err(Failure::Fault(ScenarioFault::State(first, fault)));
        }
    };
    if !state.is_below_next(base)? {
        return Err(Failure::Fault(ScenarioFault::Next(first)));
    }
    match first_over(base, &state.tree, run)? {
        None => Ok(()),
        Some(at) => Err(Failure::Fault(ScenarioFault::Total(first + at as u32))),
    }
}
