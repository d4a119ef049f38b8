ghost use Rattle.std.specs.Prelude.{◌≡◌};
ghost use Rattle.wasm_check.specs.Machine.{LeavesOrNoMemory, step as step_of};

use crate::branches::{branch, branch_among, branch_if, leave, leave_function};
use crate::calls::{call, call_indirect};
use crate::fault::CheckKind;
use crate::levels::{LevelKind, Levels};
use crate::memory::{load, store, use_memory};
use crate::place::Place;
use crate::table::by_table;
use crate::variables::{get_global, get_local, set_global, set_local, tee_local};
use fil_base::Failure;
use std::alloc::Global;
use wasm_types::Op;

/// What an instruction does to the blocks that are open.
pub fn step(
    alloc: Global,
    place: &Place<'_>,
    levels: &mut Levels,
    op: &Op,
) -> Result<(), Failure<CheckKind>>
    ensures { LeavesOrNoMemory result levels.new (step_of place.now op.now levels.old) }
{
    match op {
        Op::Block(result_type) => levels.open(alloc, LevelKind::Block, *result_type),
        Op::Loop(result_type) => levels.open(alloc, LevelKind::Loop, *result_type),
        Op::If(result_type) => levels.open_if(alloc, *result_type),
        Op::Else => levels.begin_else(),
        Op::End => levels.close(),
        Op::Unreachable => leave(place, levels),
        Op::Br(label) => branch(place, levels, *label),
        Op::BrIf(label) => branch_if(place, levels, *label),
        Op::BrTable { default, labels } => {
            branch_among(place, levels, *default, labels.as_slice())
        }
        Op::Return => leave_function(place, levels),
        Op::Call(function) => call(place, levels, *function),
        Op::CallIndirect(type_index) => call_indirect(place, levels, *type_index),
        Op::Drop => levels.drop_one(),
        Op::Select => levels.select(),
        Op::LocalGet(index) => get_local(place, levels, *index),
        Op::LocalSet(index) => set_local(place, levels, *index),
        Op::LocalTee(index) => tee_local(place, levels, *index),
        Op::GlobalGet(index) => get_global(place, levels, *index),
        Op::GlobalSet(index) => set_global(place, levels, *index),
        Op::Load(width, arg) => load(place, levels, *width, *arg),
        Op::Store(width, arg) => store(place, levels, *width, *arg),
        Op::MemorySize => use_memory(place, levels, op),
        Op::MemoryGrow => use_memory(place, levels, op),
        Op::MemoryCopy => use_memory(place, levels, op),
        Op::MemoryFill => use_memory(place, levels, op),
        Op::Nop => by_table(levels, op),
        Op::I32Const(_) => by_table(levels, op),
        Op::I64Const(_) => by_table(levels, op),
        Op::Unary(_) => by_table(levels, op),
        Op::Binary(_) => by_table(levels, op),
    }
}
