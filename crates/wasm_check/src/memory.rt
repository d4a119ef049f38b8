ghost use Rattle.std.specs.Prelude.{◌≡◌, ◌≤◌, ◌^◌, nat_le, nat_lt, length};
ghost use Rattle.wasm_types.specs.declared.op.Op.TheVariants as op;
ghost use Rattle.wasm_check.specs.Machine.{acted_with_memory, LeavesOrNoMemory, effected};

use crate::fault::CheckKind;
use crate::levels::Levels;
use crate::place::Place;
use crate::table::by_table;
use fil_base::Failure;
use wasm_types::{LoadOp, MemArg, Op, RawModule, StoreOp};

/// A load, which must not promise more than its natural alignment.
pub fn load(
    place: &Place<'_>,
    levels: &mut Levels,
    width: LoadOp,
    arg: MemArg,
) -> Result<(), Failure<CheckKind>>
    ensures { LeavesOrNoMemory result levels.new (effected place.now (op.Load width arg) levels.old) }
{
    if !has_memory(place.raw) {
        return Err(Failure::Fault(CheckKind::NoMemory0));
    }
    if !is_aligned(arg.align, width.width()) {
        return Err(Failure::Fault(CheckKind::Align));
    }
    by_table(levels, &Op::Load(width, arg))
}

/// A store, likewise.
pub fn store(
    place: &Place<'_>,
    levels: &mut Levels,
    width: StoreOp,
    arg: MemArg,
) -> Result<(), Failure<CheckKind>>
    ensures { LeavesOrNoMemory result levels.new (effected place.now (op.Store width arg) levels.old) }
{
    if !has_memory(place.raw) {
        return Err(Failure::Fault(CheckKind::NoMemory0));
    }
    if !is_aligned(arg.align, width.width()) {
        return Err(Failure::Fault(CheckKind::Align));
    }
    by_table(levels, &Op::Store(width, arg))
}

/// An instruction on the whole memory.
pub fn use_memory(place: &Place<'_>, levels: &mut Levels, op: &Op) -> Result<(), Failure<CheckKind>>
    ensures { LeavesOrNoMemory result levels.new (acted_with_memory place.now op.now levels.old) }
{
    if !has_memory(place.raw) {
        return Err(Failure::Fault(CheckKind::NoMemory0));
    }
    by_table(levels, op)
}

// Whether a memory is declared.
fn has_memory(raw: &RawModule) -> bool
    ensures { result ≡ nat_lt 0 (length raw.now.memories) }
{
    !raw.memories.as_slice().is_empty()
}

// Whether an alignment, as an exponent of 2, is no greater than so many bytes.
fn is_aligned(align: u32, width: u8) -> bool
    requires { width ≤ 8 }
    ensures { result ≡ nat_le (2 ^ align) width }
{
    match align {
        0 => width >= 1,
        1 => width >= 2,
        2 => width >= 4,
        3 => width >= 8,
        _ => false,
    }
}
