ghost use Rattle.std.specs.Prelude.{◌≤◌, ◌↔◌, IfOk, IfErr, OnOk, IsTrue, vec_len};
ghost use Rattle.std.specs.Io.KnownBytes.{IsAtEnd};
ghost use Rattle.fvm_run.specs.declared.command.Command.TheVariants.{Run};
ghost use Rattle.fvm_run.specs.Answers.{Answers, IsRunAnswer, BeginsAsList};
ghost use Rattle.fvm_run.specs.Stops.{HasCauseOfStop, IfRefused};

use crate::account_list::text_of_list;
use crate::car_text::text_of_car;
use crate::input::{INPUT_LIMIT, read_to_end};
use crate::stop::Stop;
use fil_base::Bytes;
use outside_io::Source;
use std::alloc::Global;

/// The text that `run` gives for what the source has left.
pub fn run_text<S: Source>(alloc: Global, source: &mut S) -> Result<Bytes, Stop>
    ensures text { IfOk result (λ text. Answers Run (S.left source.old) (Ok text)) }
    ensures at_end { OnOk result (IsAtEnd (S.left source.new)) }
    ensures stop { IfErr result (HasCauseOfStop Run (S.left source.old) (S.left source.new)
        (S.faults source.old) (S.faults source.new)) }
    ensures later { S.faults source.old ≤ S.faults source.new }
{
    let input = read_to_end(alloc, source)?;
    text_of_input(alloc, input)
}

/// The text of the report of the account list that the input spells, or that of the reports on the scenario of the CAR
/// file that it is.
fn text_of_input(alloc: Global, input: Vec<u8>) -> Result<Bytes, Stop>
    requires { vec_len input ≤ INPUT_LIMIT }
    ensures text { IfOk result (λ text. IsRunAnswer input.items (Ok text)) }
    ensures refused { IfErr result (IfRefused (λ refusal. IsRunAnswer input.items (Err refusal))) }
{
    if begins_as_list(&input) {
        text_of_list(alloc, input)
    } else {
        text_of_car(alloc, input)
    }
}

fn begins_as_list(input: &[u8]) -> bool
    ensures { IsTrue result ↔ BeginsAsList input.now }
{
    input.starts_with(&[0x84, 0])
}
