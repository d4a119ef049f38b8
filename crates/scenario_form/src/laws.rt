ghost use Rattle.std.specs.Prelude.{◌≡◌, ◌<◌, ◌≤◌, ◌-◌, ◌^◌, All, List, ℕ, Ok, length};
ghost use Rattle.fil_base.specs.CidParts.{CidParts};
ghost use Rattle.cid_core.specs.BlockParts.{BlockParts};
ghost use Rattle.scenario_form.specs.Answer.{IsScenario, IsScenarioFault};
ghost use Rattle.scenario_form.specs.declared.fault.ScenarioFault.{ScenarioFault};
ghost use Rattle.scenario_form.specs.declared.scenario.Scenario.{Scenario};

/// A law, with no code: blocks and a root have one scenario or one fault, and not both.
pub fn one_scenario()
    ensures one { (blocks : List BlockParts) (root : CidParts) (a b : Scenario)
        → IsScenario blocks root a → IsScenario blocks root b → a ≡ b }
    ensures accepted { (blocks : List BlockParts) (root : CidParts) (s : Scenario) (fault : ScenarioFault)
        → IsScenario blocks root s → IsScenarioFault blocks root fault → ⊥ }
    ensures one_fault { (blocks : List BlockParts) (root : CidParts) (a b : ScenarioFault)
        → IsScenarioFault blocks root a → IsScenarioFault blocks root b → a ≡ b }
{}
