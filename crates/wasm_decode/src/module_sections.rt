ghost use Rattle.std.specs.Prelude.{◌≡◌};
ghost use Rattle.wasm_decode.specs.ModuleTails.{behind_count_at, behind_header_at, behind_memories_at, end_at};
ghost use Rattle.wasm_decode.specs.ReadingModule.{code_at, data_at, module_at};
ghost use Rattle.wasm_decode.specs.ReadingValues.{just_at};
ghost use Rattle.wasm_decode.specs.Stops.{Gives, GivesOrNoMemory};

use crate::custom::customs_of;
use crate::fault::{Stop, WasmKind};
use crate::import::import_section_of;
use crate::number::byte_of;
use crate::section::{missing_at, rows_of, wanted_rows_of};
use crate::single_section::{data_count_of, memory_section_of, table_section_of};
use fil_base::{Failure, Row};
use std::alloc::Global;
use wasm_types::{
    Body, ElementPart, Export, FuncType, GlobalPart, Import, Limits, MOST_EXPORTS, MOST_FUNCTIONS,
    MOST_GLOBALS, MOST_SEGMENTS, MOST_TYPES, RawModule, SegmentPart,
};

/// A module, all of the bytes.
pub fn module_of(alloc: Global, bytes: &[u8]) -> Result<RawModule, Failure<Stop>>
    ensures { GivesOrNoMemory (λ raw. raw) result (module_at bytes.now) }
{
    let behind_magic = just_of(bytes, b"\0asm", bytes)?;
    let behind_version = just_of(behind_magic, b"\x01\0\0\0", behind_magic)?;
    behind_header_of(alloc, behind_version)
}

// Just these bytes, which are judged as one at `place`: the rest.
fn just_of<'b>(place: &'b [u8], wanted: &[u8], bytes: &'b [u8]) -> Result<&'b [u8], Stop>
    ensures { Gives (λ rest. rest.now) result (just_at place.now wanted.now bytes.now) }
{
    let mut rest = bytes;
    let mut left = wanted;
    while let Some((byte, more)) = left.split_first() {
        let (first, behind) = byte_of(rest)?;
        if first != *byte {
            return Err(Stop::Flaw(WasmKind::Form, place.len()));
        }
        rest = behind;
        left = more;
    }
    Ok(rest)
}

/// The sections of a module up to its memories.
#[derive(Drop)]
pub struct Front {
    pub types: Row<FuncType>,
    pub imports: Row<Import>,
    pub functions: Row<u32>,
    pub tables: Row<Limits>,
    pub memories: Row<Limits>,
}

// A module from its types on.
fn behind_header_of(alloc: Global, bytes: &[u8]) -> Result<RawModule, Failure<Stop>>
    ensures { GivesOrNoMemory (λ raw. raw) result (behind_header_at bytes.now) }
{
    let (types, behind_types) = rows_of::<FuncType>(alloc, 1, MOST_TYPES, bytes)?;
    let (imports, behind_imports) = import_section_of(alloc, types.as_slice(), behind_types)?;
    let (functions, behind_functions) = rows_of::<u32>(alloc, 3, MOST_FUNCTIONS, behind_imports)?;
    let (tables, behind_tables) = table_section_of(alloc, behind_functions)?;
    let (memories, rest) = memory_section_of(alloc, behind_tables)?;
    let front = Front {
        types,
        imports,
        functions,
        tables,
        memories,
    };
    behind_memories_of(alloc, front, rest)
}

/// The sections of a module between its memories and the data count.
#[derive(Drop)]
pub struct Middle {
    pub globals: Row<GlobalPart>,
    pub exports: Row<Export>,
    pub elements: Row<ElementPart>,
}

// A module from its globals on.
fn behind_memories_of(alloc: Global, front: Front, bytes: &[u8]) -> Result<RawModule, Failure<Stop>>
    ensures { GivesOrNoMemory (λ raw. raw) result (behind_memories_at front bytes.now) }
{
    let (globals, behind_globals) = rows_of::<GlobalPart>(alloc, 6, MOST_GLOBALS, bytes)?;
    let (exports, behind_exports) = rows_of::<Export>(alloc, 7, MOST_EXPORTS, behind_globals)?;
    let (elements, behind_elements) = rows_of::<ElementPart>(
        alloc,
        9,
        MOST_SEGMENTS,
        behind_exports,
    )?;
    let (count, rest) = data_count_of(behind_elements)?;
    let middle = Middle {
        globals,
        exports,
        elements,
    };
    behind_count_of(alloc, front, middle, count, rest)
}

// A module from its bodies on, where the data segments may be counted.
fn behind_count_of(
    alloc: Global,
    front: Front,
    middle: Middle,
    count: Option<usize>,
    bytes: &[u8],
) -> Result<RawModule, Failure<Stop>>
    ensures { GivesOrNoMemory (λ raw. raw) result (behind_count_at front middle count bytes.now) }
{
    let functions = front.functions.as_slice().len();
    let (bodies, behind_bodies) = bodies_of(alloc, functions, bytes)?;
    let (segments, rest) = segments_of(alloc, count, behind_bodies)?;
    let _end = end_of(rest)?;
    Ok(RawModule {
        types: front.types,
        imports: front.imports,
        functions: front.functions,
        tables: front.tables,
        memories: front.memories,
        globals: middle.globals,
        exports: middle.exports,
        elements: middle.elements,
        segments,
        bodies,
    })
}

// The bodies of so many functions, and the rest.
#[tactic(auto, unfolding(crate::specs::ReadingModule::code_at))]
fn bodies_of(
    alloc: Global,
    functions: usize,
    bytes: &[u8],
) -> Result<(Row<Body>, &[u8]), Failure<Stop>>
    ensures { GivesOrNoMemory (λ x. (x.0, x.1.now)) result (code_at functions bytes.now) }
{
    wanted_rows_of::<Body>(alloc, 10, Some(functions), MOST_FUNCTIONS, bytes)
}

// The data segments, as many as were counted, and the rest.
#[tactic(auto, unfolding(crate::specs::ReadingModule::data_at))]
fn segments_of(
    alloc: Global,
    count: Option<usize>,
    bytes: &[u8],
) -> Result<(Row<SegmentPart>, &[u8]), Failure<Stop>>
    ensures { GivesOrNoMemory (λ x. (x.0, x.1.now)) result (data_at count bytes.now) }
{
    wanted_rows_of::<SegmentPart>(alloc, 11, count, MOST_SEGMENTS, bytes)
}

// Nothing but custom sections.
fn end_of(bytes: &[u8]) -> Result<&[u8], Stop>
    ensures { Gives (λ rest. rest.now) result (end_at bytes.now) }
{
    let rest = customs_of(bytes)?;
    if rest.is_empty() {
        return Ok(rest);
    }
    Err(missing_at(rest))
}
