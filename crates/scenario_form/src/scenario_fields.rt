ghost use Rattle.std.specs.Prelude.{◌≡◌, All, Err, IfErr, IfOk, List, Ok, map};
ghost use Rattle.fil_base.specs.Failure.{IfFault};
ghost use Rattle.fil_message.specs.declared.tipset.Tipset.{Tipset};
ghost use Rattle.scenario_form.specs.Outlines.{IsOutline, raw_scenario};
ghost use Rattle.scenario_form.specs.Parts.{IsPart};
ghost use Rattle.scenario_form.specs.Reading.{scenario_fields, scenario_front, scenario_read};
ghost use Rattle.scenario_form.specs.Spelled.{ArePartTexts, IsPartText, the_value, the_values};

use crate::fault::FormFault;
use crate::outline::{Outline, outlines_of};
use crate::place::{Place, failed_at};
use crate::raw::RawRules;
use crate::rule_fields::rules_at;
use crate::spelled::{items_at, list_of, values_of};
use cbor_fields::FieldFault;
use dag_cbor::Value;
use fil_base::Failure;
use fil_message::just_at;
use std::alloc::Global;

/// The rules of a scenario, and its tipsets as the bytes that spell them.
#[derive(Drop)]
struct ScenarioFields<'a> {
    rules: RawRules,
    tipsets: Vec<&'a [u8]>,
}

/// The outline of the scenario that these bytes spell: `[1, rules, tipsets]`. Of its values only those that are read at the
/// time are made.
pub(crate) fn outline_of(alloc: Global, bytes: &[u8]) -> Result<Outline<'_>, Failure<FormFault>>
    requires { IsPartText bytes.now }
    ensures found { IfOk result (λ outline. (tipsets : List Tipset) × IsOutline outline tipsets
        × (scenario_read (the_value bytes.now) ≡ Ok (raw_scenario outline tipsets))) }
    ensures fault { IfErr result (λ failure. IfFault failure (λ fault. scenario_read (the_value bytes.now) ≡ Err fault)) }
{
    let fields = match scenario_fields(alloc, bytes) {
        Ok(fields) => fields,
        Err(failure) => return Err(failed_at(Place::scenario(), failure)),
    };
    let kept = outlines_of(alloc, fields.tipsets.as_slice())?;
    Ok(Outline {
        rules: fields.rules,
        texts: fields.tipsets,
        kept,
    })
}

fn scenario_fields(alloc: Global, bytes: &[u8]) -> Result<ScenarioFields<'_>, Failure<FieldFault>>
    requires { IsPartText bytes.now }
    ensures found { IfOk result (λ f. scenario_fields (the_value bytes.now)
        ≡ Ok (record { rules = f.rules; tipsets = the_values (map (λ s. s.now) f.tipsets.items) })) }
    ensures parts { IfOk result (λ f. ArePartTexts (map (λ s. s.now) f.tipsets.items)) }
    ensures fault { IfErr result (λ failure. IfFault failure (λ fault. scenario_fields (the_value bytes.now) ≡ Err fault)) }
{
    let items = list_of(alloc, bytes, 3)?;
    let front = values_of(alloc, &items[..2])?;
    let rules = scenario_front(alloc, front.as_slice())?;
    let tipsets = items_at(alloc, items.as_slice(), 2)?;
    Ok(ScenarioFields { rules, tipsets })
}

/// The rules, behind the number of this form, 1.
fn scenario_front(alloc: Global, items: &[Value]) -> Result<RawRules, Failure<FieldFault>>
    requires { All IsPart items.now }
    ensures found { IfOk result (λ rules. scenario_front items.now ≡ Ok rules) }
    ensures fault { IfErr result (λ failure. IfFault failure (λ fault. scenario_front items.now ≡ Err fault)) }
{
    match just_at(items, 0, 1) {
        Ok(_form) => rules_at(alloc, items, 1),
        Err(fault) => Err(Failure::Fault(fault)),
    }
}
