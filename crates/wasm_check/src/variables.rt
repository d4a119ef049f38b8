ghost use Rattle.std.specs.Prelude.{◌≡◌, ◌∷◌, []};
ghost use Rattle.wasm_types.specs.declared.op.Op.TheVariants as op;
ghost use Rattle.wasm_check.specs.Machine.{LeavesOrNoMemory, effected};

use crate::fault::CheckKind;
use crate::levels::Levels;
use crate::place::Place;
use crate::results::list_of;
use fil_base::Failure;

/// `local.get`.
pub fn get_local(
    place: &Place<'_>,
    levels: &mut Levels,
    index: u32,
) -> Result<(), Failure<CheckKind>>
    ensures { LeavesOrNoMemory result levels.new (effected place.now (op.LocalGet index) levels.old) }
{
    let kind = place.local(index)?;
    levels.convert(&[], &[], Some(kind))
}

/// `local.set`.
pub fn set_local(
    place: &Place<'_>,
    levels: &mut Levels,
    index: u32,
) -> Result<(), Failure<CheckKind>>
    ensures { LeavesOrNoMemory result levels.new (effected place.now (op.LocalSet index) levels.old) }
{
    let kind = place.local(index)?;
    levels.convert(list_of(Some(kind)), &[], None)
}

/// `local.tee`.
pub fn tee_local(
    place: &Place<'_>,
    levels: &mut Levels,
    index: u32,
) -> Result<(), Failure<CheckKind>>
    ensures { LeavesOrNoMemory result levels.new (effected place.now (op.LocalTee index) levels.old) }
{
    let kind = place.local(index)?;
    levels.convert(list_of(Some(kind)), &[], Some(kind))
}

/// `global.get`.
pub fn get_global(
    place: &Place<'_>,
    levels: &mut Levels,
    index: u32,
) -> Result<(), Failure<CheckKind>>
    ensures { LeavesOrNoMemory result levels.new (effected place.now (op.GlobalGet index) levels.old) }
{
    match place.raw.globals.as_slice().get(index as usize) {
        None => Err(Failure::Fault(CheckKind::Global)),
        Some(global) => levels.convert(&[], &[], Some(global.kind)),
    }
}

/// `global.set`.
pub fn set_global(
    place: &Place<'_>,
    levels: &mut Levels,
    index: u32,
) -> Result<(), Failure<CheckKind>>
    ensures { LeavesOrNoMemory result levels.new (effected place.now (op.GlobalSet index) levels.old) }
{
    match place.raw.globals.as_slice().get(index as usize) {
        None => Err(Failure::Fault(CheckKind::Global)),
        Some(global) => {
            if !global.mutable {
                return Err(Failure::Fault(CheckKind::Immutable));
            }
            levels.convert(list_of(Some(global.kind)), &[], None)
        }
    }
}
