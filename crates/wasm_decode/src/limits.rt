ghost use Rattle.std.specs.Prelude.{◌≡◌, ◌≤◌, IfOk};
ghost use Rattle.wasm_decode.specs.ReadingSections.{memory_at, single_at, table_at};
ghost use Rattle.wasm_decode.specs.ReadingTypes.{greatest_at, limits_at};
ghost use Rattle.wasm_decode.specs.Singles.{single_count_at};
ghost use Rattle.wasm_decode.specs.Stops.{Gives, GivesOrNoMemory};

use crate::fault::{Stop, WasmKind};
use crate::number::{byte_of, u32_of};
use crate::types::{no_type_kind, switch_of};
use crate::value::count_of;
use fil_base::{Failure, Row};
use std::alloc::Global;
use wasm_types::{Limits, MOST_FIRST_PAGES, MOST_PAGES, MOST_TABLE_ELEMENTS};

/// The tables of a module, of which there is one at most, and the rest.
pub fn tables_of(alloc: Global, bytes: &[u8]) -> Result<(Row<Limits>, &[u8]), Failure<Stop>>
    ensures { GivesOrNoMemory (λ x. (x.0, x.1.now)) result (single_at table_at bytes.now) }
{
    let (count, behind) = single_count_of(bytes)?;
    let mut tables = Vec::new(alloc);
    if count == 0 {
        return Ok((Row::of(tables), behind));
    }
    let (table, rest) = table_of(behind)?;
    tables.push(table)?;
    Ok((Row::of(tables), rest))
}

/// The memories of a module, of which there is one at most, and the rest.
pub fn memories_of(alloc: Global, bytes: &[u8]) -> Result<(Row<Limits>, &[u8]), Failure<Stop>>
    ensures { GivesOrNoMemory (λ x. (x.0, x.1.now)) result (single_at memory_at bytes.now) }
{
    let (count, behind) = single_count_of(bytes)?;
    let mut memories = Vec::new(alloc);
    if count == 0 {
        return Ok((Row::of(memories), behind));
    }
    let (memory, rest) = memory_of(behind)?;
    memories.push(memory)?;
    Ok((Row::of(memories), rest))
}

// A number of items that is at most 1, and the rest.
fn single_count_of(bytes: &[u8]) -> Result<(u32, &[u8]), Stop>
    ensures found { Gives (λ x. (x.0, x.1.now)) result (single_count_at bytes.now) }
    ensures within { IfOk result (λ x. x.0 ≤ 1) }
{
    let (count, rest) = u32_of(bytes)?;
    if count > 1 {
        return Err(Stop::Flaw(WasmKind::Unsupported, bytes.len()));
    }
    Ok((count, rest))
}

// A table, and the rest.
#[tactic(auto, unfolding(crate::specs::ReadingSections::table_at))]
fn table_of(bytes: &[u8]) -> Result<(Limits, &[u8]), Stop>
    ensures { Gives (λ x. (x.0, x.1.now)) result (table_at bytes.now) }
{
    let (kind, rest) = byte_of(bytes)?;
    if kind != 0x70 {
        return Err(Stop::Flaw(no_type_kind(kind), bytes.len()));
    }
    limits_of(MOST_TABLE_ELEMENTS, u32::MAX, rest)
}

// A memory, and the rest.
#[tactic(auto, unfolding(crate::specs::ReadingSections::memory_at))]
fn memory_of(bytes: &[u8]) -> Result<(Limits, &[u8]), Stop>
    ensures { Gives (λ x. (x.0, x.1.now)) result (memory_at bytes.now) }
{
    limits_of(MOST_FIRST_PAGES, MOST_PAGES, bytes)
}

// The limits of a size that is at most `most_first` at first, and at most `most` at all, and the rest.
#[tactic(auto, unfolding(crate::specs::ReadingTypes::limits_at))]
fn limits_of(most_first: u32, most: u32, bytes: &[u8]) -> Result<(Limits, &[u8]), Stop>
    ensures { Gives (λ x. (x.0, x.1.now)) result (limits_at most_first most bytes.now) }
{
    let (has_greatest, behind) = switch_of(bytes)?;
    let (least, rest) = count_of(most_first, behind)?;
    if has_greatest {
        return greatest_of(most, least, rest);
    }
    Ok((
        Limits {
            least,
            greatest: None,
        },
        rest,
    ))
}

// The greatest size, which is not below the least one and at most `most`, and the rest.
fn greatest_of(most: u32, least: u32, bytes: &[u8]) -> Result<(Limits, &[u8]), Stop>
    ensures { Gives (λ x. (x.0, x.1.now)) result (greatest_at most least bytes.now) }
{
    let (greatest, rest) = u32_of(bytes)?;
    if greatest < least || greatest > most {
        return Err(Stop::Flaw(WasmKind::Form, bytes.len()));
    }
    Ok((
        Limits {
            least,
            greatest: Some(greatest),
        },
        rest,
    ))
}
