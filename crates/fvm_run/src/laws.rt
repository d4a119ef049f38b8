ghost use Rattle.std.specs.Prelude.{◌≡◌, ℕ, List, Result};
ghost use Rattle.fvm_run.specs.declared.command.Command.{Command};
ghost use Rattle.fvm_run.specs.declared.refusal.Refusal.{Refusal};
ghost use Rattle.fvm_run.specs.Answers.{IsAnswer};

use scenario_form::one_scenario;
use wasm_check::one_verdict;
use wasm_decode::{one_module, reading_is_the_grammar};

/// A law, with no code: an input has one answer at most.
pub fn one_answer()
    ensures { (command : Command) (input : List ℕ) (a b : Result (List ℕ) Refusal) →
        IsAnswer command input a → IsAnswer command input b → a ≡ b }
{
    one_scenario();
    one_module();
    reading_is_the_grammar();
    one_verdict();
}
