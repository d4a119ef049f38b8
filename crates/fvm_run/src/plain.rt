ghost use Rattle.std.specs.Prelude.{◌≡◌, ◌⊎◌, ◌≤◌, ℕ, [], List, Some, length};
ghost use Rattle.std.specs.Io.KnownBytes.{Appends};
ghost use Rattle.outside_io.specs.Causes.{Rose};
ghost use Rattle.fvm_run.specs.Commands.{IsPlain};
ghost use Rattle.fvm_run.specs.Headline.{AnswersText, IsCauseOfRefusal, IsStatusOf, WritesNothing};
ghost use Rattle.fvm_run.specs.Lines.{cid_in_line};
ghost use Rattle.fvm_run.specs.Writing.{TakesPrefix};

use crate::answering::finish;
use crate::command::Command;
use crate::ending::Ending;
use crate::status::Status;
use crate::wasm_module::check_text;
use outside_io::{Sink, Source};
use std::alloc::Global;

/// What a command does that never waits: it reads the source and writes the output. It always returns.
pub fn run_plain<S: Source, K: Sink>(
    alloc: Global,
    command: &Command,
    source: &mut S,
    out: &mut K,
) -> Status
    requires { IsPlain command.now }
    // The clauses are those of the whole program, for this command.
    ensures done { result ≡ Status.Done →
        AnswersText (Some command.now) (S.left source.old) (S.left source.new)
        (λ text. Appends (K.taken out.old) (K.taken out.new) text) }
    ensures refused { IsCauseOfRefusal (Some command.now) (S.left source.old) (S.left source.new) result }
    ensures silent { WritesNothing result → out.new ≡ out.old }
    ensures read_fault { result ≡ Status.ReadFault → Rose (S.faults source.old) (S.faults source.new) }
    ensures write_fault { result ≡ Status.WriteFault → Rose (K.faults out.old) (K.faults out.new) }
    ensures written { result ≡ Status.WriteFault →
        AnswersText (Some command.now) (S.left source.old) (S.left source.new)
        (TakesPrefix (K.taken out.old) (K.taken out.new)) }
    ensures complete { (Rose (S.faults source.old) (S.faults source.new) → ⊥) →
        (Rose (K.faults out.old) (K.faults out.new) → ⊥) →
        (result ≡ Status.NoMemory) ⊎ IsStatusOf (Some command.now) (S.left source.old) result }
    ensures calm { ((text : List ℕ) →
        AnswersText (Some command.now) (S.left source.old) (S.left source.new) (λ t. t ≡ text) →
        length text ≤ K.sure out.old) →
        K.faults out.new ≡ K.faults out.old }

    // No refusal of such a command names a CID.
    ensures no_cid { cid_in_line result ≡ [] }
{
    match command {
        Command::Run => unreachable!(),
        Command::Check => {
            let Ending { status, cid } = finish(alloc, check_text(alloc, source), out);
            drop(cid);
            status
        }
    }
}
