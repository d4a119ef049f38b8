ghost use Rattle.std.specs.Prelude.{◌≡◌, ◌++◌, ◌≤◌, ℕ, IfErr, IfOk, List, OnOk};
ghost use Rattle.std.specs.Io.KnownBytes.{IsAtEnd};
ghost use Rattle.fvm_run.specs.declared.command.Command.TheVariants.{Check};
ghost use Rattle.fvm_run.specs.Answers.{Answers, IsCheckAnswer};
ghost use Rattle.fvm_run.specs.Modules.{counts_line, counts_of as counts_in, pages_of as pages_in};
ghost use Rattle.fvm_run.specs.Stops.{HasCauseOfStop, IfRefused};
ghost use Rattle.fvm_run.specs.declared.refusal.Refusal.TheVariants.{Check as Refused};
ghost use Rattle.wasm_check.specs.Validity.{IsFirstFault, IsValid};
ghost use Rattle.wasm_check.specs.declared.fault.CheckFault.{CheckFault};
ghost use Rattle.wasm_decode.specs.Modules.{SpellsModule};

use crate::input::read_to_end;
use crate::stop::Stop;
use fil_base::{Bytes, Mem};
use itoa::{Buffer, Integer};
use outside_io::Source;
use std::alloc::Global;
use wasm_check::check;
use wasm_decode::decode;
use wasm_types::{Limits, RawModule};

/// How much there is of a module.
#[derive(Clone, Copy, Debug, PartialEq, Eq)]
pub struct Counts {
    pub types: usize,
    pub imports: usize,

    /// Imported ones are not counted.
    pub functions: usize,

    /// The first size of the memory.
    pub pages: u32,
}

/// The text that `check` gives for what the source has left.
pub fn check_text<S: Source>(alloc: Global, source: &mut S) -> Result<Bytes, Stop>
    ensures text { IfOk result (λ text. Answers Check (S.left source.old) (Ok text)) }
    ensures at_end { OnOk result (IsAtEnd (S.left source.new)) }
    ensures stop { IfErr result (HasCauseOfStop Check (S.left source.old) (S.left source.new)
        (S.faults source.old) (S.faults source.new)) }
    ensures later { S.faults source.old ≤ S.faults source.new }
{
    let input = read_to_end(alloc, source)?;
    text_of_module(alloc, input)
}

/// The line on the module that the input spells. The input is let go before the module is judged.
fn text_of_module(alloc: Global, input: Vec<u8>) -> Result<Bytes, Stop>
    ensures text { IfOk result (λ text. IsCheckAnswer input.items (Ok text)) }
    ensures refused { IfErr result (IfRefused (λ refusal. IsCheckAnswer input.items (Err refusal))) }
{
    let raw = decode(alloc, &input)?;
    drop(input);
    let counts = judge(alloc, raw)?;
    Ok(text_of_counts(alloc, counts)?)
}

/// How much there is of a module, if it is valid.
fn judge(alloc: Global, raw: RawModule) -> Result<Counts, Stop>
    requires { (bytes : List ℕ) × SpellsModule bytes raw }
    ensures valid { IfOk result (λ counts. IsValid raw × (counts ≡ counts_in raw)) }
    ensures refused { IfErr result (IfRefused (λ refusal. (fault : CheckFault) × (refusal ≡ Refused fault) × IsFirstFault raw fault)) }
{
    let counts = counts_of(&raw);
    let module = check(alloc, raw)?;
    drop(module);
    Ok(counts)
}

fn counts_of(raw: &RawModule) -> Counts
    ensures { result ≡ counts_in raw.now }
{
    Counts {
        types: raw.types.as_slice().len(),
        imports: raw.imports.as_slice().len(),
        functions: raw.functions.as_slice().len(),
        pages: pages_of(raw.memories.as_slice()),
    }
}

fn pages_of(memories: &[Limits]) -> u32
    ensures { result ≡ pages_in memories.now }
{
    match memories {
        [] => 0,
        [memory, ..] => memory.least,
    }
}

fn text_of_counts(alloc: Global, counts: Counts) -> Mem<Bytes>
    ensures { IfOk result (λ text. text ≡ counts_line counts) }
{
    let mut text = Vec::new(alloc);
    put_count(&mut text, b"ok types ", counts.types)?;
    put_count(&mut text, b" imports ", counts.imports)?;
    put_count(&mut text, b" functions ", counts.functions)?;
    put_count(&mut text, b" pages ", counts.pages)?;
    text.push(b'\n')?;
    Ok(Bytes::of(text))
}

/// Puts a name behind a text, and a number behind that, in decimal.
fn put_count<N: Integer>(text: &mut Vec<u8>, name: &[u8], number: N) -> Mem<()>
    ensures { OnOk result (text.new.items ≡ text.old.items ++ (name.now ++ N.text number)) }
{
    text.extend_from_slice(name)?;
    text.extend_from_slice(Buffer::new().format(number).as_bytes())?;
    Ok(())
}
