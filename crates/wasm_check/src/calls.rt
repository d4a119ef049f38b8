ghost use Rattle.std.specs.Prelude.{◌≡◌};
ghost use Rattle.wasm_types.specs.declared.op.Op.TheVariants as op;
ghost use Rattle.wasm_check.specs.Machine.{LeavesOrNoMemory, effected};

use crate::fault::CheckKind;
use crate::functions::function_type;
use crate::levels::Levels;
use crate::place::Place;
use fil_base::Failure;
use wasm_types::ValType;

/// `call`.
pub fn call(place: &Place<'_>, levels: &mut Levels, function: u32) -> Result<(), Failure<CheckKind>>
    ensures { LeavesOrNoMemory result levels.new (effected place.now (op.Call function) levels.old) }
{
    match function_type(place.raw, function) {
        None => Err(Failure::Fault(CheckKind::Function)),
        Some(called) => levels.convert(called.params.as_slice(), &[], called.result),
    }
}

/// `call_indirect`.
pub fn call_indirect(
    place: &Place<'_>,
    levels: &mut Levels,
    type_index: u32,
) -> Result<(), Failure<CheckKind>>
    ensures { LeavesOrNoMemory result levels.new (effected place.now (op.CallIndirect type_index) levels.old) }
{
    match place.raw.types.as_slice().get(type_index as usize) {
        None => Err(Failure::Fault(CheckKind::TypeIndex)),
        Some(called) => {
            if place.raw.tables.as_slice().is_empty() {
                return Err(Failure::Fault(CheckKind::NoTable));
            }
            levels.convert(called.params.as_slice(), &[ValType::I32], called.result)
        }
    }
}
