ghost use Rattle.std.specs.Prelude.{◌≡◌, IfOk};
ghost use Rattle.std.specs.Option.{option_copied};
ghost use Rattle.wasm_check.specs.Modules.{are_distinct, count_of, exports_are_there, has_entries, has_entry, has_good_exports, has_memory, is_entry_type, is_function, is_memory, is_own, lends_entry, lends_memory};

use crate::functions::{function_count, function_type};
use fil_base::Mem;
use std::alloc::Global;
use std::collections::BTreeSet;
use wasm_types::{Export, ExportKind, FuncType, RawModule, Signature, ValType};

/// The name of the memory that a machine writes to.
const MEMORY_NAME: &[u8] = b"memory";

/// The name of the function that a machine calls.
const ENTRY_NAME: &[u8] = b"invoke";

/// The type of that function.
const ENTRY_TYPE: Signature = Signature {
    takes: &[ValType::I32],
    gives: Some(ValType::I32),
};

/// Whether exports are of things that are there, and their names differ.
pub(crate) fn has_good_exports(alloc: Global, raw: &RawModule) -> Mem<bool>
    ensures { IfOk result (λ good. good ≡ has_good_exports raw.now) }
{
    if !exports_are_there(raw) {
        return Ok(false);
    }
    are_distinct(alloc, raw.exports.as_slice())
}

// Whether exports are of things that are there.
fn exports_are_there(raw: &RawModule) -> bool
    ensures { result ≡ exports_are_there raw.now }
{
    raw.exports.as_slice().iter().all(|export| (export.index as usize) < count_of(raw, export.kind))
}

// How many things of a kind there are.
fn count_of(raw: &RawModule, kind: ExportKind) -> usize
    ensures { result ≡ count_of raw.now kind }
{
    match kind {
        ExportKind::Function => function_count(raw),
        ExportKind::Table => raw.tables.as_slice().len(),
        ExportKind::Memory => raw.memories.as_slice().len(),
        ExportKind::Global => raw.globals.as_slice().len(),
    }
}

// Whether names differ.
fn are_distinct(alloc: Global, exports: &[Export]) -> Mem<bool>
    ensures { IfOk result (λ distinct. distinct ≡ are_distinct exports.now) }
{
    let mut names = BTreeSet::new(alloc);
    for export in exports {
        let is_new = names.insert(export.name.as_slice())?;
        if !is_new {
            return Ok(false);
        }
    }
    Ok(true)
}

/// Whether a machine can enter the module.
pub(crate) fn has_entries(raw: &RawModule) -> bool
    ensures { result ≡ has_entries raw.now }
{
    has_memory(raw) && has_entry(raw)
}

// Whether the memory that a machine writes to is exported.
fn has_memory(raw: &RawModule) -> bool
    ensures { result ≡ has_memory raw.now }
{
    raw.exports.as_slice().iter().any(lends_memory)
}

// Whether the function that a machine calls is exported.
fn has_entry(raw: &RawModule) -> bool
    ensures { result ≡ has_entry raw.now }
{
    raw.exports
        .as_slice()
        .iter()
        .any(|export| lends_entry(raw, export))
}

// Whether an export is that memory.
fn lends_memory(export: &Export) -> bool
    ensures { result ≡ lends_memory export.now }
{
    export.name.as_slice() == MEMORY_NAME && is_memory(export.kind)
}

fn is_memory(kind: ExportKind) -> bool
    ensures { result ≡ is_memory kind }
{
    matches!(kind, ExportKind::Memory)
}

// Whether an export is that function: one of the module's own, of that type.
fn lends_entry(raw: &RawModule, export: &Export) -> bool
    ensures { result ≡ lends_entry raw.now export.now }
{
    export.name.as_slice() == ENTRY_NAME
        && is_function(export.kind)
        && is_own(raw, export.index)
        && is_entry_type(function_type(raw, export.index))
}

fn is_function(kind: ExportKind) -> bool
    ensures { result ≡ is_function kind }
{
    matches!(kind, ExportKind::Function)
}

// Whether a function is not an imported one.
fn is_own(raw: &RawModule, index: u32) -> bool
    ensures { result ≡ is_own raw.now index }
{
    raw.imports.as_slice().len() <= index as usize
}

fn is_entry_type(func_type: Option<&FuncType>) -> bool
    ensures { result ≡ is_entry_type (option_copied func_type.entry) }
{
    match func_type {
        Some(func_type) => ENTRY_TYPE.is_type(func_type),
        None => false,
    }
}
