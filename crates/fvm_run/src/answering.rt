ghost use Rattle.std.specs.Prelude.{◌≡◌, ◌⊎◌, ◌≤◌, ℕ, List, length, Ok, Err, None, Some, IfOk, IfErr, IsTrue, OnOk, OnErr, IsOkAnd, ◌↔◌};
ghost use Rattle.std.specs.Io.KnownBytes.{Appends};
ghost use Rattle.outside_io.specs.Causes.{Rose};
ghost use Rattle.fvm_run.specs.Commands.{named};
ghost use Rattle.fvm_run.specs.Lines.{cid_in_line, line};
ghost use Rattle.fvm_run.specs.Stops.{status_of_stop};
ghost use Rattle.fvm_run.specs.Writing.{TakesPrefix};
ghost use Rattle.fvm_run.specs.Headline.{AnswersText, IsCauseOfRefusal, WritesNothing, IsStatusOf, Says};

use crate::command::{Command, command_of};
use crate::ending::{Ending, no_cid, refused};
use crate::line::say;
use crate::output::write_whole;
use crate::plain::run_plain;
use crate::running::run_text;
use crate::status::{Status, UsageFault};
use crate::stop::Stop;
use fil_base::Bytes;
use outside_io::{Gate, Sink, Source};
use std::alloc::Global;
use std::sync::Wait;
use std::thread::Threads;

/// All that the program does: it takes the words of the command line, the source that is read, the sink for the
/// output, the sink for the line that says why there is none, and an observer of the evaluations, and answers how
/// it ended. It takes the runtime for the threads of evaluations to come, and starts none today; no evaluation is
/// observed yet.
pub fn fvm_main<R: Threads + Wait + Sync, S: Source, K: Sink, E: Sink, G: Gate>(
    _rt: &R,
    alloc: Global,
    words: &[String],
    source: &mut S,
    out: &mut K,
    faults: &mut E,
    _gate: &G,
) -> Status
    // Where it is done, the output is the text that the command gives for the whole input.
    ensures done { result ≡ Status.Done →
        AnswersText (named words.now) (S.left source.old) (S.left source.new)
        (λ text. Appends (K.taken out.old) (K.taken out.new) text) }

    // Words that name no command are answered as such, and no others; nothing is read.
    ensures words { named words.now ≡ None →
        (result ≡ Status.Usage UsageFault.Words) × (source.new ≡ source.old) }

    // A refusal is the command's answer to the whole input, which was read to its end or past the limit.
    ensures refused { IsCauseOfRefusal (named words.now) (S.left source.old) (S.left source.new) result }

    // Nothing is written where the command line is faulty, the input refused, the source failed or memory short.
    ensures silent { WritesNothing result → out.new ≡ out.old }

    // A read fault comes only where the source failed, a write fault only where the sink for the output did.
    ensures read_fault { result ≡ Status.ReadFault → Rose (S.faults source.old) (S.faults source.new) }
    ensures write_fault { result ≡ Status.WriteFault → Rose (K.faults out.old) (K.faults out.new) }

    // What was written before a write fault is a front of the text.
    ensures written { result ≡ Status.WriteFault →
        AnswersText (named words.now) (S.left source.old) (S.left source.new)
        (TakesPrefix (K.taken out.old) (K.taken out.new)) }

    // The line of the status is written on the sink for faults, and nothing where all is done.
    ensures line { Says (E.taken faults.old) (E.taken faults.new)
        (E.faults faults.old) (E.faults faults.new) (line result) }
    ensures quiet { result ≡ Status.Done → faults.new ≡ faults.old }

    // Where nothing failed, the status is that of the words and the answer, or there was no memory.
    ensures complete { (Rose (S.faults source.old) (S.faults source.new) → ⊥) →
        (Rose (K.faults out.old) (K.faults out.new) → ⊥) →
        (result ≡ Status.NoMemory) ⊎ IsStatusOf (named words.now) (S.left source.old) result }

    // A sink that surely takes the text does not fail.
    ensures calm { ((text : List ℕ) →
        AnswersText (named words.now) (S.left source.old) (S.left source.new) (λ t. t ≡ text) →
        length text ≤ K.sure out.old) →
        K.faults out.new ≡ K.faults out.old }
{
    let Ending { status, cid } = answer(alloc, words, source, out);
    if !is_done(&status) {
        say(faults, &status, cid.as_slice());
    }
    status
}

/// The same but for the line on faults. It never waits, and always returns.
fn answer<S: Source, K: Sink>(
    alloc: Global,
    words: &[String],
    source: &mut S,
    out: &mut K,
) -> Ending
    ensures done { result.status ≡ Status.Done →
        AnswersText (named words.now) (S.left source.old) (S.left source.new)
        (λ text. Appends (K.taken out.old) (K.taken out.new) text) }
    ensures words { named words.now ≡ None →
        (result.status ≡ Status.Usage UsageFault.Words) × (source.new ≡ source.old) }
    ensures refused { IsCauseOfRefusal (named words.now) (S.left source.old) (S.left source.new) result.status }
    ensures silent { WritesNothing result.status → out.new ≡ out.old }
    ensures read_fault { result.status ≡ Status.ReadFault → Rose (S.faults source.old) (S.faults source.new) }
    ensures write_fault { result.status ≡ Status.WriteFault → Rose (K.faults out.old) (K.faults out.new) }
    ensures written { result.status ≡ Status.WriteFault →
        AnswersText (named words.now) (S.left source.old) (S.left source.new)
        (TakesPrefix (K.taken out.old) (K.taken out.new)) }
    ensures complete { (Rose (S.faults source.old) (S.faults source.new) → ⊥) →
        (Rose (K.faults out.old) (K.faults out.new) → ⊥) →
        (result.status ≡ Status.NoMemory) ⊎ IsStatusOf (named words.now) (S.left source.old) result.status }
    ensures calm { ((text : List ℕ) →
        AnswersText (named words.now) (S.left source.old) (S.left source.new) (λ t. t ≡ text) →
        length text ≤ K.sure out.old) →
        K.faults out.new ≡ K.faults out.old }
    ensures cid { result.cid ≡ cid_in_line result.status }
{
    match command_of(words) {
        None => no_cid(alloc, Status::Usage(UsageFault::Words)),
        Some(Command::Run) => finish(alloc, run_text(alloc, source), out),
        Some(Command::Check) => { no_cid(alloc, run_plain(alloc, &Command::Check, source, out)) }
    }
}

/// Whether the whole output was written.
fn is_done(status: &Status) -> bool
    ensures { IsTrue result ↔ (status.now ≡ Status.Done) }
{
    match status {
        Status::Done => true,
        Status::Usage(_) => false,
        Status::Refused(_) => false,
        Status::ReadFault => false,
        Status::WriteFault => false,
        Status::NoMemory => false,
    }
}

/// Writes the text, or says why there is none.
pub fn finish<K: Sink>(alloc: Global, text: Result<Bytes, Stop>, out: &mut K) -> Ending
    ensures done { result.status ≡ Status.Done →
        IsOkAnd text (λ t. Appends (K.taken out.old) (K.taken out.new) t) }
    ensures written { result.status ≡ Status.WriteFault →
        IsOkAnd text (TakesPrefix (K.taken out.old) (K.taken out.new)) }
    ensures write_fault { result.status ≡ Status.WriteFault → Rose (K.faults out.old) (K.faults out.new) }
    ensures ok { OnOk text ((result.status ≡ Status.Done) ⊎ (result.status ≡ Status.WriteFault)) }
    ensures err { IfErr text (λ stop. (result.status ≡ status_of_stop stop) ⊎ (result.status ≡ Status.NoMemory)) }
    ensures silent { WritesNothing result.status → out.new ≡ out.old }
    ensures calm { IfOk text (λ t. length t ≤ K.sure out.old → K.faults out.new ≡ K.faults out.old) }
    ensures calm_stop { OnErr text (K.faults out.new ≡ K.faults out.old) }
    ensures cid { result.cid ≡ cid_in_line result.status }
{
    match text {
        Ok(text) => match write_whole(out, text.as_slice()) {
            Ok(()) => no_cid(alloc, Status::Done),
            Err(_) => no_cid(alloc, Status::WriteFault),
        },
        Err(Stop::ReadFailed) => no_cid(alloc, Status::ReadFault),
        Err(Stop::NoMemory) => no_cid(alloc, Status::NoMemory),
        Err(Stop::Refused(refusal)) => refused(alloc, refusal),
    }
}
