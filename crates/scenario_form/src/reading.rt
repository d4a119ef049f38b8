ghost use Rattle.std.specs.Prelude.{◌<◌, ◌≤◌, ◌^◌, ◌≡◌, All, IfErr, IfOk, IsTrue, List, OnOk, Some, false, length};
ghost use Rattle.cid_core.specs.BlockParts.{BlockParts, found};
ghost use Rattle.dag_cbor.specs.Faults.{IsFault};
ghost use Rattle.dag_cbor.specs.Plain.{IsPlain};
ghost use Rattle.dag_cbor.specs.Spelling.{spelled};
ghost use Rattle.fil_base.specs.Failure.{IfFault};
ghost use Rattle.fil_message.specs.Tipsets.{IsRules, IsTipset};
ghost use Rattle.fil_message.specs.declared.tipset.Tipset.{Tipset};
ghost use Rattle.scenario_form.specs.Answer.{HasParts, HasValue, IsScenario, IsScenarioFault};
ghost use Rattle.scenario_form.specs.Judged.{IsJudged, spelled_of};
ghost use Rattle.scenario_form.specs.Outlines.{IsOutline, raw_scenario};
ghost use Rattle.scenario_form.specs.Parts.{IsRaw};
ghost use Rattle.scenario_form.specs.Spelled.{IsPartText, the_value};
ghost use Rattle.dag_cbor.specs.declared.value.Value.{Value};
ghost use Rattle.scenario_form.specs.declared.fault.ScenarioFault.TheVariants.{Cbor as cbor_fault, Root as root_fault};

use crate::fault::ScenarioFault;
use crate::judging::judge_rules;
use crate::outline::Outline;
use crate::scenario::Scenario;
use crate::scenario_fields::outline_of;
use crate::spelled_scenario::SpelledScenario;
use crate::states::judge_states;
use block_base::Base;
use cid_core::BlockSource;
use dag_cbor::{CborFault, MAX_DEPTH, decode, split_item};
use fil_base::{Cid, Failure};
use gas_prices::{PriceList, Rules};
use std::alloc::Global;

/// The scenario under a root: `[1, [prices, [depth, pages], codes], tipsets]`, a tipset being
/// `[epoch, base fee, state root, blocks]` and a block `[miner, award, messages]`. Its states are loaded and judged.
pub fn read_scenario(
    alloc: Global,
    root: &Cid,
    base: &Base,
) -> Result<Scenario, Failure<ScenarioFault>>
    requires { (block : BlockParts) → found base.now root.now ≡ Some block → length block.bytes < 2 ^ 32 }
    ensures found { IfOk result (IsScenario base.now root.now) }
    ensures ranges { IfOk result (λ s. IsRules s.rules × All IsTipset s.tipsets) }
    ensures fault { IfErr result (λ failure. IfFault failure (IsScenarioFault base.now root.now)) }
{
    let text = judge_scenario(alloc, root, base)?;
    let tipsets = text.all_tipsets(alloc)?;
    Ok(Scenario {
        rules: text.rules,
        tipsets,
    })
}

/// The scenario under a root, judged as [`read_scenario`] does, whose tipsets stay in the bytes of its block. While it is
/// judged, one tipset at a time is there with its messages.
pub fn judge_scenario<'a>(
    alloc: Global,
    root: &Cid,
    base: &'a Base,
) -> Result<SpelledScenario<'a>, Failure<ScenarioFault>>
    requires { (block : BlockParts) → found base.now root.now ≡ Some block → length block.bytes < 2 ^ 32 }
    ensures found { IfOk result (λ text. (tipsets : List Tipset) × IsJudged base.now root.now text tipsets) }
    ensures fault { IfErr result (λ failure. IfFault failure (IsScenarioFault base.now root.now)) }
{
    let outline = outline_under(alloc, root, base)?;
    let prices = judge_rules(&outline)?;
    judge_states(
        alloc,
        base,
        &outline.rules.codes,
        outline.kept.tipsets.as_slice(),
    )?;
    Ok(spelled_of(outline, prices))
}

/// What stays of a scenario that was judged, with its prices.
fn spelled_of<'a>(outline: Outline<'a>, prices: PriceList) -> SpelledScenario<'a>
    requires prices { prices ≡ outline.rules.prices }
    requires depth { outline.rules.depth ≤ 64 }
    requires pages { outline.rules.pages ≤ 512 }
    ensures { result ≡ spelled_of outline.entry }
{
    let Outline { rules, texts, .. } = outline;
    SpelledScenario {
        rules: Rules {
            prices,
            depth: rules.depth as u32,
            pages: rules.pages as u32,
            codes: rules.codes,
        },
        tipsets: texts,
    }
}

/// The outline of the scenario under a root, of which each part is read by itself.
fn outline_under<'a>(
    alloc: Global,
    root: &Cid,
    base: &'a Base,
) -> Result<Outline<'a>, Failure<ScenarioFault>>
    requires { (block : BlockParts) → found base.now root.now ≡ Some block → length block.bytes < 2 ^ 32 }
    ensures found { IfOk result (λ outline. (tipsets : List Tipset) × IsOutline outline tipsets
        × IsRaw (raw_scenario outline tipsets) × HasParts base.now root.now (raw_scenario outline tipsets)) }
    ensures fault { IfErr result (λ failure. IfFault failure (IsScenarioFault base.now root.now)) }
{
    let bytes = bytes_under(alloc, root, base)?;
    match outline_of(alloc, bytes) {
        Ok(outline) => Ok(outline),
        Err(Failure::NoMemory) => Err(Failure::NoMemory),
        Err(Failure::Fault((place, fault))) => Err(Failure::Fault(ScenarioFault::Form(
            place, fault,
        ))),
    }
}

/// The bytes of the block under a root, which spell a value.
fn bytes_under<'a>(
    alloc: Global,
    root: &Cid,
    base: &'a Base,
) -> Result<&'a [u8], Failure<ScenarioFault>>
    requires { (block : BlockParts) → found base.now root.now ≡ Some block → length block.bytes < 2 ^ 32 }
    ensures found { IfOk result (λ bytes. HasValue base.now root.now (the_value bytes.now)) }
    ensures part { IfOk result (λ bytes. IsPartText bytes.now) }
    ensures fault { IfErr result (λ failure. IfFault failure (IsScenarioFault base.now root.now)) }
{
    let Some(block) = base.find(root) else {
        return Err(no_block(alloc, root));
    };
    judge_bytes(alloc, block.bytes())?;
    Ok(block.bytes())
}

/// Finds the fault of bytes that spell no value.
fn judge_bytes(alloc: Global, bytes: &[u8]) -> Result<(), Failure<ScenarioFault>>
    requires { length bytes.now < 2 ^ 32 }
    ensures spelled { OnOk result (IsPlain 128 (the_value bytes.now) × (bytes.now ≡ spelled (the_value bytes.now))) }
    ensures part { OnOk result (IsPartText bytes.now) }
    ensures fault { IfErr result (λ failure. IfFault failure (λ fault.
        (cbor : CborFault) × IsFault bytes.now cbor × (fault ≡ cbor_fault cbor))) }
{
    if is_value(bytes) {
        return Ok(());
    }
    match decode(alloc, bytes) {
        Ok(_) => unreachable!(),
        Err(Failure::NoMemory) => Err(Failure::NoMemory),
        Err(Failure::Fault(fault)) => Err(Failure::Fault(ScenarioFault::Cbor(fault))),
    }
}

/// Whether the bytes spell a value, which is not made.
fn is_value(bytes: &[u8]) -> bool
    ensures found { IsTrue result → (value : Value) × IsPlain 128 value × (bytes.now ≡ spelled value) }
    ensures only { result ≡ false → (value : Value) → IsPlain 128 value → bytes.now ≡ spelled value → ⊥ }
{
    match split_item(MAX_DEPTH, bytes) {
        Some((_, rest)) => rest.is_empty(),
        None => false,
    }
}

/// There is no block under the root.
fn no_block(alloc: Global, root: &Cid) -> Failure<ScenarioFault>
    ensures { IfFault result (λ fault. fault ≡ root_fault root.now) }
{
    match root.copy(alloc) {
        Ok(root) => Failure::Fault(ScenarioFault::Root(root)),
        Err(_) => Failure::NoMemory,
    }
}
