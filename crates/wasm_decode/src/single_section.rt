ghost use Rattle.std.specs.Prelude.{◌≡◌, [], None};
ghost use Rattle.wasm_types.specs.declared.limits.TheConstants.{MOST_SEGMENTS};
ghost use Rattle.wasm_decode.specs.ReadingModule.{present, section_at};
ghost use Rattle.wasm_decode.specs.ReadingSections.{memory_at, single_at, table_at};
ghost use Rattle.wasm_decode.specs.ReadingValues.{count_at};
ghost use Rattle.wasm_decode.specs.Stops.{GivesOrNoMemory};

use crate::fault::Stop;
use crate::limits::{memories_of, tables_of};
use crate::part::close;
use crate::section::{Opening, opening_of};
use crate::value::count_of;
use fil_base::{Failure, Row};
use std::alloc::Global;
use wasm_types::{Limits, MOST_SEGMENTS};

/// The tables of the table section, of which there are none if it is absent, and the rest.
pub fn table_section_of(alloc: Global, bytes: &[u8]) -> Result<(Row<Limits>, &[u8]), Failure<Stop>>
    ensures { GivesOrNoMemory (λ x. (x.0, x.1.now)) result (section_at 4 [] (single_at table_at) bytes.now) }
{
    let opening = opening_of(4, bytes)?;
    match opening {
        Opening::Absent(rest) => Ok((Row::of(Vec::new(alloc)), rest)),
        Opening::Begun(part) => close(part, tables_of(alloc, part.content)),
    }
}

/// The memories of the memory section, of which there are none if it is absent, and the rest.
pub fn memory_section_of(alloc: Global, bytes: &[u8]) -> Result<(Row<Limits>, &[u8]), Failure<Stop>>
    ensures { GivesOrNoMemory (λ x. (x.0, x.1.now)) result (section_at 5 [] (single_at memory_at) bytes.now) }
{
    let opening = opening_of(5, bytes)?;
    match opening {
        Opening::Absent(rest) => Ok((Row::of(Vec::new(alloc)), rest)),
        Opening::Begun(part) => close(part, memories_of(alloc, part.content)),
    }
}

/// The data count, unless its section is absent, and the rest.
pub fn data_count_of(bytes: &[u8]) -> Result<(Option<usize>, &[u8]), Failure<Stop>>
    ensures { GivesOrNoMemory (λ x. (x.0, x.1.now)) result (section_at 12 None (present (count_at MOST_SEGMENTS)) bytes.now) }
{
    let opening = opening_of(12, bytes)?;
    match opening {
        Opening::Absent(rest) => Ok((None, rest)),
        Opening::Begun(part) => close(part, present_count_of(part.content)),
    }
}

// The data count, and the rest.
fn present_count_of(bytes: &[u8]) -> Result<(Option<usize>, &[u8]), Failure<Stop>>
    ensures { GivesOrNoMemory (λ x. (x.0, x.1.now)) result (present (count_at MOST_SEGMENTS) bytes.now) }
{
    let (count, rest) = count_of(MOST_SEGMENTS, bytes)?;
    Ok((Some(count as usize), rest))
}
