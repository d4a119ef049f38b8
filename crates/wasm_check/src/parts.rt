ghost use Rattle.std.specs.Prelude.{◌≡◌, IfOk};
ghost use Rattle.wasm_check.specs.Modules.{are_below, elements_are_functions, functions_have_types, has_constant_elements, has_constant_globals, has_constant_segments, has_constants, is_constant, is_needed_and_absent, is_place, module_fault};

use crate::exports::{has_entries, has_good_exports};
use crate::fault::CheckKind;
use crate::functions::function_count;
use fil_base::Mem;
use std::alloc::Global;
use wasm_types::{Op, RawModule, ValType};

/// The first fault of a module but for its bodies, in the order of the kinds.
#[tactic(auto, unfolding(crate::specs::Modules::module_fault))]
pub(crate) fn first_module_fault(alloc: Global, raw: &RawModule) -> Mem<Option<CheckKind>>
    ensures { IfOk result (λ fault. fault ≡ module_fault raw.now) }
{
    if !elements_are_functions(raw) {
        return Ok(Some(CheckKind::Function));
    }
    if !functions_have_types(raw) {
        return Ok(Some(CheckKind::TypeIndex));
    }
    if is_needed_and_absent(raw.segments.as_slice(), raw.memories.as_slice()) {
        return Ok(Some(CheckKind::NoMemory0));
    }
    if is_needed_and_absent(raw.elements.as_slice(), raw.tables.as_slice()) {
        return Ok(Some(CheckKind::NoTable));
    }
    if !has_constants(raw) {
        return Ok(Some(CheckKind::Init));
    }
    if !has_good_exports(alloc, raw)? {
        return Ok(Some(CheckKind::Export));
    }
    if !has_entries(raw) {
        return Ok(Some(CheckKind::Entry));
    }
    Ok(None)
}

// Whether the functions that element segments name are there.
fn elements_are_functions(raw: &RawModule) -> bool
    ensures { result ≡ elements_are_functions raw.now }
{
    let count = function_count(raw);
    raw.elements
        .as_slice()
        .iter()
        .all(|element| are_below(element.functions.as_slice(), count))
}

// Whether the types of the module's own functions are there.
fn functions_have_types(raw: &RawModule) -> bool
    ensures { result ≡ functions_have_types raw.now }
{
    are_below(raw.functions.as_slice(), raw.types.as_slice().len())
}

// Whether indexes are all below a count.
fn are_below(indexes: &[u32], count: usize) -> bool
    ensures { result ≡ are_below count indexes.now }
{
    indexes.iter().all(|index| (*index as usize) < count)
}

// Whether there are users and nothing for them to use.
fn is_needed_and_absent<A, B>(users: &[A], used: &[B]) -> bool
    ensures { result ≡ is_needed_and_absent users.now used.now }
{
    !users.is_empty() && used.is_empty()
}

// Whether the first values of globals and the places of segments are constants.
fn has_constants(raw: &RawModule) -> bool
    ensures { result ≡ has_constants raw.now }
{
    has_constant_globals(raw) && has_constant_elements(raw) && has_constant_segments(raw)
}

fn has_constant_globals(raw: &RawModule) -> bool
    ensures { result ≡ has_constant_globals raw.now }
{
    raw.globals
        .as_slice()
        .iter()
        .all(|global| is_constant(global.kind, global.init.as_slice()))
}

fn has_constant_elements(raw: &RawModule) -> bool
    ensures { result ≡ has_constant_elements raw.now }
{
    raw.elements
        .as_slice()
        .iter()
        .all(|element| is_place(element.offset.as_slice()))
}

fn has_constant_segments(raw: &RawModule) -> bool
    ensures { result ≡ has_constant_segments raw.now }
{
    raw.segments
        .as_slice()
        .iter()
        .all(|segment| is_place(segment.offset.as_slice()))
}

// Whether an expression is the place of a segment.
fn is_place(ops: &[Op]) -> bool
    ensures { result ≡ is_place ops.now }
{
    is_constant(ValType::I32, ops)
}

// Whether an expression is a constant of this type.
fn is_constant(kind: ValType, ops: &[Op]) -> bool
    ensures { result ≡ is_constant kind ops.now }
{
    match ops {
        [Op::I32Const(_), Op::End] => kind == ValType::I32,
        [Op::I64Const(_), Op::End] => kind == ValType::I64,
        _ => false,
    }
}
