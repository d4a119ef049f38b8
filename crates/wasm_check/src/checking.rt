ghost use Rattle.std.specs.Prelude.{◌≡◌, ◌<◌, ◌^◌, IfErr, IfOk, List, ℕ, None, Err, length};
ghost use Rattle.std.specs.List.{AllZip};
ghost use Rattle.fil_base.specs.Failure.{IfFault};
ghost use Rattle.wasm_decode.specs.Modules.{SpellsModule};
ghost use Rattle.wasm_check.specs.Code.{Code, IsNestedAs};
ghost use Rattle.wasm_check.specs.Modules.{module_fault};
ghost use Rattle.wasm_check.specs.Placing.{failure_in};
ghost use Rattle.wasm_check.specs.Readable.{IsReadable};
ghost use Rattle.wasm_check.specs.Validity.{IsBodyFault, IsFirstFault, IsJudged, IsValid, IsValidBody};

use crate::bodies::read_body;
use crate::fault::{BodyFault, CheckFault};
use crate::module::Module;
use crate::parts::first_module_fault;
use crate::place::Place;
use fil_base::Failure;
use std::alloc::Global;
use wasm_types::{Body, RawModule};

/// The module, if it is valid (WebAssembly 1.0, section 3.4, with the limits of [`MOST_HEIGHT`](crate::MOST_HEIGHT) and
/// [`MOST_NESTING`](crate::MOST_NESTING) and the two exports by which a machine enters).
///
/// A fault outside the bodies goes first, in the order of [`CheckKind`](crate::CheckKind); then the bodies are judged in
/// their order, and their instructions in theirs.
pub fn check(alloc: Global, raw: RawModule) -> Result<Module, Failure<CheckFault>>
    requires spelled { (bytes : List ℕ) × SpellsModule bytes raw }
    // It is the one that was given, and it is valid.
    ensures found { IfOk result (λ checked. (checked ≡ raw) × IsValid checked) }
    // A fault is the first one.
    ensures fault { IfErr result (λ failure. IfFault failure (λ fault. IsFirstFault raw fault)) }
    // A valid module has none.
    ensures only { IfErr result (λ failure. IfFault failure (λ fault. IsValid raw → ⊥)) }
{
    judge_module(alloc, &raw)?;
    Ok(Module::of(raw))
}

// The first fault of the module.
fn judge_module(alloc: Global, raw: &RawModule) -> Result<(), Failure<CheckFault>>
    requires readable { IsReadable raw.now }
    ensures found { IfOk result (λ _. IsValid raw.now) }
    ensures fault { IfErr result (λ failure. IfFault failure (λ fault. IsFirstFault raw.now fault)) }
{
    if let Some(kind) = first_module_fault(alloc, raw)? {
        return Err(Failure::Fault(CheckFault {
            function: 0,
            position: 0,
            kind,
        }));
    }
    judge_bodies(alloc, raw)
}

// The first fault of the bodies.
fn judge_bodies(alloc: Global, raw: &RawModule) -> Result<(), Failure<CheckFault>>
    requires readable { IsReadable raw.now }
    requires parts { module_fault raw.now ≡ None }
    ensures found { IfOk result (λ _. AllZip (IsValidBody raw.now) raw.now.functions raw.now.bodies) }
    ensures fault { IfErr result (λ failure. IfFault failure (λ fault. IsBodyFault raw.now fault)) }
{
    let functions = raw.functions.as_slice();
    let bodies = raw.bodies.as_slice();
    for function in 0..bodies.len() {
        match judge_body(alloc, raw, functions[function], &bodies[function]) {
            Ok(()) => {}
            Err(failure) => return Err(placed(failure, function as u32)),
        }
    }
    Ok(())
}

// The first fault of a body, whose function has the type of this index.
fn judge_body(
    alloc: Global,
    raw: &RawModule,
    type_index: u32,
    body: &Body,
) -> Result<(), Failure<BodyFault>>
    requires typed { type_index < length raw.now.types }
    requires nested { (c : Code) × IsNestedAs body.now.code c }
    requires small { length body.now.code < 2 ^ 32 }
    ensures found { IfOk result (λ _. IsValidBody raw.now type_index body.now) }
    ensures fault { IfErr result (λ failure. IfFault failure (λ fault.
        IsJudged raw.now type_index body.now (Err (record { position = fault.position; kind = fault.kind })))) }
{
    let func_type = &raw.types.as_slice()[type_index as usize];
    let place = Place {
        raw,
        func_type,
        body,
    };
    read_body(alloc, &place, body.code.as_slice())
}

// The failure in this body.
fn placed(failure: Failure<BodyFault>, function: u32) -> Failure<CheckFault>
    ensures { result ≡ failure_in function failure }
{
    match failure {
        Failure::NoMemory => Failure::NoMemory,
        Failure::Fault(fault) => Failure::Fault(CheckFault {
            function,
            position: fault.position,
            kind: fault.kind,
        }),
    }
}
