ghost use Rattle.std.specs.Prelude.{◌≡◌, ◌<◌, ◌^◌, IfErr, IfOk, List, length};
ghost use Rattle.cid_core.specs.BlockParts.{BlockParts};
ghost use Rattle.fil_base.specs.CidParts.{CidParts};
ghost use Rattle.fil_message.specs.Tipsets.{has_equal_codes};
ghost use Rattle.fil_message.specs.declared.tipset.Tipset.{Tipset};
ghost use Rattle.scenario_form.specs.Answer.{HasCodes, HasParts, IsScenarioFault};
ghost use Rattle.scenario_form.specs.Outlines.{AreOutlines, raw_scenario};

use crate::fault::ScenarioFault;
use crate::limits::exceeded_limit;
use crate::outline::Outline;
use gas_prices::{Codes, PriceList};

/// The prices of a scenario, where they, the limits and the codes are in order.
pub(crate) fn judge_rules(outline: &Outline<'_>) -> Result<PriceList, ScenarioFault>
    requires { length outline.now.rules.prices < 2 ^ 32 }
    ensures prices { IfOk result (λ prices. prices ≡ outline.now.rules.prices) }
    ensures found { (blocks : List BlockParts) (root : CidParts) (tipsets : List Tipset) →
        AreOutlines outline.now.kept tipsets → HasParts blocks root (raw_scenario outline.now tipsets) →
        IfOk result (λ _. HasCodes blocks root (raw_scenario outline.now tipsets)) }
    ensures fault { (blocks : List BlockParts) (root : CidParts) (tipsets : List Tipset) →
        AreOutlines outline.now.kept tipsets → HasParts blocks root (raw_scenario outline.now tipsets) →
        IfErr result (IsScenarioFault blocks root) }
{
    let prices = PriceList::from_list(outline.rules.prices.as_slice())?;
    if let Some(limit) = exceeded_limit(outline) {
        return Err(ScenarioFault::Limit(limit));
    }
    if have_equal(&outline.rules.codes) {
        return Err(ScenarioFault::Codes);
    }
    Ok(prices)
}

/// Whether two of the codes are the same.
fn have_equal(codes: &Codes) -> bool
    ensures { result ≡ has_equal_codes codes.now }
{
    codes.system == codes.init
        || codes.system == codes.account
        || codes.system == codes.reward
        || codes.init == codes.account
        || codes.init == codes.reward
        || codes.account == codes.reward
}
