ghost use Rattle.std.specs.Prelude.{◌≡◌};
ghost use Rattle.wasm_decode.specs.ReadingSections.{element_at, export_at, export_kind_at, flag_at, global_at, segment_at};
ghost use Rattle.wasm_decode.specs.Stops.{Gives, GivesOrNoMemory};

use crate::expression::expression_of;
use crate::fault::{Stop, WasmKind};
use crate::number::{byte_of, u32_of};
use crate::types::{switch_of, value_type_of};
use crate::value::{bytes_of, name_of};
use crate::vector::{Entry, vector_of};
use fil_base::{Bytes, Failure};
use std::alloc::Global;
use wasm_types::{ElementPart, Export, ExportKind, GlobalPart, SegmentPart};

impl Entry for GlobalPart {
    ghost reading = { global_at };

    fn read(alloc: Global, bytes: &[u8]) -> Result<(GlobalPart, &[u8]), Failure<Stop>> {
        global_of(alloc, bytes)
    }
}

impl Entry for Export {
    ghost reading = { export_at };

    fn read(alloc: Global, bytes: &[u8]) -> Result<(Export, &[u8]), Failure<Stop>> {
        export_of(alloc, bytes)
    }
}

impl Entry for ElementPart {
    ghost reading = { element_at };

    fn read(alloc: Global, bytes: &[u8]) -> Result<(ElementPart, &[u8]), Failure<Stop>> {
        element_of(alloc, bytes)
    }
}

impl Entry for SegmentPart {
    ghost reading = { segment_at };

    fn read(alloc: Global, bytes: &[u8]) -> Result<(SegmentPart, &[u8]), Failure<Stop>> {
        segment_of(alloc, bytes)
    }
}

// A global, and the rest.
#[tactic(auto, unfolding(crate::specs::ReadingSections::global_at))]
fn global_of(alloc: Global, bytes: &[u8]) -> Result<(GlobalPart, &[u8]), Failure<Stop>>
    ensures { GivesOrNoMemory (λ x. (x.0, x.1.now)) result (global_at bytes.now) }
{
    let (kind, behind_kind) = value_type_of(bytes)?;
    let (mutable, behind_switch) = switch_of(behind_kind)?;
    let (init, rest) = expression_of(alloc, behind_switch)?;
    Ok((
        GlobalPart {
            kind,
            mutable,
            init,
        },
        rest,
    ))
}

// An export, and the rest.
#[tactic(auto, unfolding(crate::specs::ReadingSections::export_at))]
fn export_of(alloc: Global, bytes: &[u8]) -> Result<(Export, &[u8]), Failure<Stop>>
    ensures { GivesOrNoMemory (λ x. (x.0, x.1.now)) result (export_at bytes.now) }
{
    let (name, behind_name) = name_of(bytes)?;
    let (kind, behind_kind) = export_kind_of(behind_name)?;
    let (index, rest) = u32_of(behind_kind)?;
    let name = Bytes::copy_of(alloc, name)?;
    Ok((Export { name, kind, index }, rest))
}

// What an export's index counts, and the rest.
#[tactic(auto, unfolding(crate::specs::ReadingSections::export_kind_at))]
fn export_kind_of(bytes: &[u8]) -> Result<(ExportKind, &[u8]), Stop>
    ensures { Gives (λ x. (x.0, x.1.now)) result (export_kind_at bytes.now) }
{
    let (byte, rest) = byte_of(bytes)?;
    if byte == 0 {
        return Ok((ExportKind::Function, rest));
    }
    if byte == 1 {
        return Ok((ExportKind::Table, rest));
    }
    if byte == 2 {
        return Ok((ExportKind::Memory, rest));
    }
    if byte == 3 {
        return Ok((ExportKind::Global, rest));
    }
    Err(Stop::Flaw(WasmKind::Form, bytes.len()))
}

// The flag of a segment, which is 0: the rest.
#[tactic(auto, unfolding(crate::specs::ReadingSections::flag_at))]
fn flag_of(bytes: &[u8]) -> Result<&[u8], Stop>
    ensures { Gives (λ rest. rest.now) result (flag_at bytes.now) }
{
    let (flag, rest) = u32_of(bytes)?;
    if flag != 0 {
        return Err(Stop::Flaw(WasmKind::Unsupported, bytes.len()));
    }
    Ok(rest)
}

// An element segment, and the rest.
#[tactic(auto, unfolding(crate::specs::ReadingSections::element_at))]
fn element_of(alloc: Global, bytes: &[u8]) -> Result<(ElementPart, &[u8]), Failure<Stop>>
    ensures { GivesOrNoMemory (λ x. (x.0, x.1.now)) result (element_at bytes.now) }
{
    let behind_flag = flag_of(bytes)?;
    let (offset, behind_offset) = expression_of(alloc, behind_flag)?;
    let (functions, rest) = vector_of::<u32>(alloc, u32::MAX, behind_offset)?;
    Ok((ElementPart { offset, functions }, rest))
}

// A data segment, and the rest.
#[tactic(auto, unfolding(crate::specs::ReadingSections::segment_at))]
fn segment_of(alloc: Global, bytes: &[u8]) -> Result<(SegmentPart, &[u8]), Failure<Stop>>
    ensures { GivesOrNoMemory (λ x. (x.0, x.1.now)) result (segment_at bytes.now) }
{
    let behind_flag = flag_of(bytes)?;
    let (offset, behind_offset) = expression_of(alloc, behind_flag)?;
    let (held, rest) = bytes_of(behind_offset)?;
    let bytes = Bytes::copy_of(alloc, held)?;
    Ok((SegmentPart { offset, bytes }, rest))
}
