ghost use Rattle.std.specs.Prelude.{◌≡◌, ◌≤◌, List, IfOk, IfErr, IfSome, length, true};
ghost use Rattle.fil_base.specs.CidParts.{CidParts};
ghost use Rattle.fil_message.specs.declared.tipset.Tipset.{Tipset as Tip};
ghost use Rattle.report_text.specs.Text.{HasRootTexts, reports_text};
ghost use Rattle.scenario_form.specs.Judged.{IsJudged, Spells, scenario_with};
ghost use Rattle.state_model.specs.State.{State};
ghost use Rattle.state_model.specs.StateAt.{state_at};
ghost use Rattle.tipset_exec.specs.Alone.{IsEvaluable, alone, is_built as is_built_over};
ghost use Rattle.fvm_run.specs.Cars.{AreBuilt, HaveStates, IsTextOf, IsUnbuiltRefusal, first_not_built as first_among, reports_on};
ghost use Rattle.fvm_run.specs.Kept.{IsKept};
ghost use Rattle.fvm_run.specs.Stops.{IfRefused};

use crate::kept_state::KeptState;
use crate::refusal::Refusal;
use crate::stop::Stop;
use block_base::Base;
use fil_base::{Bytes, Mem};
use fil_message::{Report, Tipset};
use gas_prices::Rules;
use report_text::put_report;
use scenario_form::SpelledScenario;
use std::alloc::Global;
use tipset_exec::{built_over_any_state, evaluate_from, is_built_from};

/// The text of the reports on the tipsets of a scenario, each alone over the loaded blocks. All of them are judged before
/// the first one is evaluated, and each is read again from its bytes when it is.
pub fn text_of_scenario(
    alloc: Global,
    base: &Base,
    scenario: &SpelledScenario<'_>,
) -> Result<Bytes, Stop>
    requires { (root : CidParts) × (tipsets : List Tip) × IsJudged base.now root scenario.now tipsets }
    ensures text { (root : CidParts) (tipsets : List Tip) → IsJudged base.now root scenario.now tipsets →
        IfOk result (IsTextOf base.now (scenario_with scenario.now tipsets)) }
    ensures refused { (root : CidParts) (tipsets : List Tip) → IsJudged base.now root scenario.now tipsets →
        IfErr result (IfRefused (IsUnbuiltRefusal base.now (scenario_with scenario.now tipsets))) }
{
    if let Some(place) = first_not_built(alloc, base, scenario)? {
        return Err(Stop::Refused(Refusal::NotBuilt(place)));
    }
    Ok(text_of_all(alloc, base, scenario)?)
}

/// The place of the first tipset that is not evaluated, if there is one.
fn first_not_built(alloc: Global, base: &Base, scenario: &SpelledScenario<'_>) -> Mem<Option<u32>>
    requires { (tipsets : List Tip) × Spells scenario.now tipsets × (length tipsets ≤ 1024) }
    ensures { (tipsets : List Tip) (pairs : List (Tip × State)) → Spells scenario.now tipsets →
        HaveStates base.now scenario.now.rules tipsets pairs → IfOk result (λ place. place ≡ first_among 0 pairs) }
{
    let mut kept = None;
    for place in 0..scenario.len() {
        let tipset = scenario.tipset(alloc, place)?;
        let (built, state) = judge(alloc, base, &scenario.rules, &tipset, kept)?;
        if !built {
            return Ok(Some(place as u32));
        }
        kept = state;
    }
    Ok(None)
}

/// Whether a tipset is evaluated, and the state that is kept then. A state is loaded only where names have to be looked
/// up in it.
fn judge(
    alloc: Global,
    base: &Base,
    rules: &Rules,
    tipset: &Tipset,
    kept: Option<KeptState>,
) -> Mem<(bool, Option<KeptState>)>
    requires { IfSome kept (IsKept base.now rules.now.codes) }
    ensures built { (s : State) → state_at base.now tipset.now.root rules.now.codes ≡ Ok s
        → IfOk result (λ r. r.0 ≡ is_built_over s tipset.now) }
    ensures kept { IfOk result (λ r. IfSome r.1 (IsKept base.now rules.now.codes)) }
{
    if let Some(built) = built_over_any_state(tipset) {
        return Ok((built, kept));
    }
    let state = KeptState::under(alloc, base, &rules.codes, &tipset.root, kept)?;
    let built = is_built_from(base, tipset, state.opening())?;
    Ok((built, Some(state)))
}

/// The text of the report on each tipset. A state that tipsets one after another share is loaded once, and a tipset and its
/// report are let go when its text is there.
fn text_of_all(alloc: Global, base: &Base, scenario: &SpelledScenario<'_>) -> Mem<Bytes>
    requires { (tipsets : List Tip) × Spells scenario.now tipsets × AreBuilt base.now scenario.now.rules tipsets }
    ensures { (tipsets : List Tip) (pairs : List (Tip × State)) → Spells scenario.now tipsets →
        HaveStates base.now scenario.now.rules tipsets pairs →
        IfOk result (λ text. text ≡ reports_text (reports_on base.now scenario.now.rules pairs)) }
{
    let mut text = Vec::new(alloc);
    let mut kept = None;
    for place in 0..scenario.len() {
        let tipset = scenario.tipset(alloc, place)?;
        let state = KeptState::under(alloc, base, &scenario.rules.codes, &tipset.root, kept)?;
        let report = evaluate(alloc, base, &scenario.rules, &tipset, &state)?;
        put_report(alloc, &mut text, place, &report)?;
        kept = Some(state);
    }
    Ok(Bytes::of(text))
}

/// The report on a tipset over the state that is kept, which is the one under its root. The blocks that it made are let
/// go.
fn evaluate(
    alloc: Global,
    base: &Base,
    rules: &Rules,
    tipset: &Tipset,
    state: &KeptState,
) -> Mem<Report>
    requires built { (s : State) × IsEvaluable base.now rules.now tipset.now s × (is_built_over s tipset.now ≡ true) }
    requires root { state.now.root ≡ tipset.now.root }
    requires kept { IsKept base.now rules.now.codes state.now }
    ensures report { (s : State) → state_at base.now tipset.now.root rules.now.codes ≡ Ok s
        → IfOk result (λ report. report ≡ alone base.now rules.now s tipset.now) }
    ensures texts { IfOk result HasRootTexts }
{
    let (report, blocks) = evaluate_from(alloc, base, rules, tipset, state.opening())?;
    drop(blocks);
    Ok(report)
}
