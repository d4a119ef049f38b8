ghost use Rattle.std.specs.Prelude.{◌≡◌, ◌≤◌, ◌<◌, ◌^◌, length};
ghost use Rattle.wasm_check.specs.Effects.{Context};
ghost use Rattle.wasm_check.specs.Machine.{IsFoundFlat, read_flat};
ghost use Rattle.wasm_check.specs.Placing.{failure_at};

use crate::fault::{BodyFault, CheckKind};
use crate::levels::Levels;
use crate::place::Place;
use crate::steps::step;
use fil_base::Failure;
use std::alloc::Global;
use wasm_types::Op;

/// The first fault of code, whose last instruction is the `end` of its outermost block.
pub fn read_body(alloc: Global, place: &Place<'_>, code: &[Op]) -> Result<(), Failure<BodyFault>>
    requires ended { 0 < length code.now }
    requires small { length code.now < 2 ^ 32 }
    ensures { IsFoundFlat result (read_flat place.now code.now) }
{
    let last = code.len() - 1;
    let mut levels = Levels::new(alloc, place.func_type.result);
    for position in 0..last {
        match step(alloc, place, &mut levels, &code[position]) {
            Ok(()) => {}
            Err(failure) => return Err(placed(failure, position as u32)),
        }
    }
    match levels.end() {
        Ok(()) => Ok(()),
        Err(failure) => Err(placed(failure, last as u32)),
    }
}

// The failure at this instruction.
fn placed(failure: Failure<CheckKind>, position: u32) -> Failure<BodyFault>
    ensures { result ≡ failure_at position failure }
{
    match failure {
        Failure::NoMemory => Failure::NoMemory,
        Failure::Fault(kind) => Failure::Fault(BodyFault { position, kind }),
    }
}
