ghost use Rattle.std.specs.Prelude.{◌≡◌, ◌-◌, ◌^◌, [], slice_get};
ghost use Rattle.wasm_types.specs.Syscalls.{IsSyscall, Syscall, syscalls};
ghost use Rattle.wasm_decode.specs.ImportFronts.{front_seen};
ghost use Rattle.wasm_decode.specs.ReadingModule.{section_at};
ghost use Rattle.wasm_decode.specs.ReadingSections.{ImportFront as FrontRead, blamed, has_type_of as has_type_read, import_at, import_front_at, kind_behind, name_behind, type_behind};
ghost use Rattle.wasm_decode.specs.ReadingValues.{items_at, vector_at};
ghost use Rattle.wasm_decode.specs.Stops.{Found, Gives, GivesOrNoMemory};

use crate::fault::{Stop, WasmKind};
use crate::number::{byte_of, u32_of};
use crate::part::close;
use crate::section::{Opening, opening_of};
use crate::value::{bytes_of, count_of, is_text};
use fil_base::{Failure, Row};
use std::alloc::Global;
use wasm_types::{FuncType, Import, syscall_number, syscall_signature};

/// The imports of the import section of a module with these types, of which there are none if it is absent, and the rest.
pub fn import_section_of<'b>(
    alloc: Global,
    types: &[FuncType],
    bytes: &'b [u8],
) -> Result<(Row<Import>, &'b [u8]), Failure<Stop>>
    ensures { GivesOrNoMemory (λ x. (x.0, x.1.now)) result (section_at 2 [] (vector_at (2 ^ 32 - 1) (import_at types.now)) bytes.now) }
{
    let opening = opening_of(2, bytes)?;
    match opening {
        Opening::Absent(rest) => Ok((Row::of(Vec::new(alloc)), rest)),
        Opening::Begun(part) => close(part, imports_of(alloc, types, part.content)),
    }
}

// A vector of imports, and the rest.
#[tactic(auto, unfolding(crate::specs::ReadingValues::vector_at))]
fn imports_of<'b>(
    alloc: Global,
    types: &[FuncType],
    bytes: &'b [u8],
) -> Result<(Row<Import>, &'b [u8]), Failure<Stop>>
    ensures { GivesOrNoMemory (λ x. (x.0, x.1.now)) result (vector_at (2 ^ 32 - 1) (import_at types.now) bytes.now) }
{
    let (count, rest) = count_of(u32::MAX, bytes)?;
    all_imports_of(alloc, types, count, rest)
}

// So many imports, and the rest.
fn all_imports_of<'b>(
    alloc: Global,
    types: &[FuncType],
    count: u32,
    bytes: &'b [u8],
) -> Result<(Row<Import>, &'b [u8]), Failure<Stop>>
    ensures { GivesOrNoMemory (λ x. (x.0, x.1.now)) result (items_at (import_at types.now) [] count bytes.now) }
{
    let mut done = Vec::new(alloc);
    let mut rest = bytes;
    let mut left = count;
    while left > 0 {
        let (item, behind) = import_of(types, rest)?;
        done.push(item)?;
        rest = behind;
        left -= 1;
    }
    Ok((Row::of(done), rest))
}

// An import, and the rest.
#[tactic(auto, unfolding(crate::specs::ReadingSections::import_at))]
fn import_of<'b>(types: &[FuncType], bytes: &'b [u8]) -> Result<(Import, &'b [u8]), Failure<Stop>>
    ensures { GivesOrNoMemory (λ x. (x.0, x.1.now)) result (import_at types.now bytes.now) }
{
    let (front, rest) = import_front_of(bytes)?;
    if front.kind != 0 {
        return Err(Failure::Fault(Stop::Flaw(WasmKind::Unsupported, bytes.len())));
    }
    match syscall_number(front.module_name, front.name) {
        None => Err(Failure::Fault(Stop::Flaw(WasmKind::UnknownImport, bytes.len()))),
        Some(number) => Ok(type_behind_of(types, bytes, number, rest)?),
    }
}

// The type of the import at `place` of the system call of this number, and the rest.
fn type_behind_of<'b>(
    types: &[FuncType],
    place: &'b [u8],
    number: u32,
    bytes: &'b [u8],
) -> Result<(Import, &'b [u8]), Stop>
    requires known { (call : Syscall) × IsSyscall number call }
    ensures { Gives (λ x. (x.0, x.1.now)) result (type_behind types.now place.now number bytes.now) }
{
    let (index, rest) = u32_of(bytes)?;
    if !has_type(types, index, number) {
        return Err(Stop::Flaw(WasmKind::UnknownImport, place.len()));
    }
    Ok((
        Import {
            syscall: number,
            type_index: index,
        },
        rest,
    ))
}

// Whether the type of this index is that of the system call of this number.
fn has_type(types: &[FuncType], index: u32, number: u32) -> bool
    requires known { (call : Syscall) × IsSyscall number call }
    ensures { has_type_read (slice_get syscalls number) (slice_get types.now index) ≡ result }
{
    match types.get(index as usize) {
        None => false,
        Some(func_type) => syscall_signature(number).is_type(func_type),
    }
}

/// The names of an import, whether texts or not, and the byte of its kind.
#[derive(Clone, Copy)]
pub struct ImportFront<'b> {
    pub module_name: &'b [u8],
    pub name: &'b [u8],
    pub kind: u8,
}

// The names and the kind of an import, and the rest.
#[tactic(auto, unfolding(crate::specs::ReadingSections::import_front_at))]
fn import_front_of(bytes: &[u8]) -> Result<(ImportFront<'_>, &[u8]), Stop>
    ensures { Gives (λ x. (front_seen x.0, x.1.now)) result (import_front_at bytes.now) }
{
    let (module_name, behind) = bytes_of(bytes)?;
    blame(bytes, module_name, name_behind_of(module_name, behind))
}

// The second name and the kind behind the first name, and the rest.
fn name_behind_of<'b>(
    module_name: &'b [u8],
    bytes: &'b [u8],
) -> Result<(ImportFront<'b>, &'b [u8]), Stop>
    ensures { Gives (λ x. (front_seen x.0, x.1.now)) result (name_behind module_name.now bytes.now) }
{
    let (name, behind) = bytes_of(bytes)?;
    blame(bytes, name, kind_behind_of(module_name, name, behind))
}

// The kind behind two names, and the rest.
fn kind_behind_of<'b>(
    module_name: &'b [u8],
    name: &'b [u8],
    bytes: &'b [u8],
) -> Result<(ImportFront<'b>, &'b [u8]), Stop>
    ensures { Gives (λ x. (front_seen x.0, x.1.now)) result (kind_behind module_name.now name.now bytes.now) }
{
    let (kind, rest) = byte_of(bytes)?;
    Ok((
        ImportFront {
            module_name,
            name,
            kind,
        },
        rest,
    ))
}

// What is read behind a name at `place`. Where that stops, a name that is no UTF-8 is at fault before it.
fn blame<'b>(
    place: &'b [u8],
    name: &'b [u8],
    read: Result<(ImportFront<'b>, &'b [u8]), Stop>,
) -> Result<(ImportFront<'b>, &'b [u8]), Stop>
    ensures { (found : Found FrontRead) → Gives (λ x. (front_seen x.0, x.1.now)) read.entry found
        → Gives (λ x. (front_seen x.0, x.1.now)) result (blamed place.now name.now found) }
{
    match read {
        Ok(front) => Ok(front),
        Err(stop) => {
            if is_text(name) {
                return Err(stop);
            }
            Err(Stop::Flaw(WasmKind::Form, place.len()))
        }
    }
}
