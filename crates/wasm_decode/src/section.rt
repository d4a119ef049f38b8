ghost use Rattle.std.specs.Prelude.{◌≡◌, [], None};
ghost use Rattle.wasm_decode.specs.ModuleTails.{wanted_section_at};
ghost use Rattle.wasm_decode.specs.Openings.{missing, opening_at, opening_seen};
ghost use Rattle.wasm_decode.specs.ReadingModule.{present, section_at, wanted_by, wanted_rows};
ghost use Rattle.wasm_decode.specs.ReadingSections.{counted_at};
ghost use Rattle.wasm_decode.specs.ReadingValues.{vector_at};
ghost use Rattle.wasm_decode.specs.Stops.{Gives, GivesOrNoMemory};

use crate::custom::customs_of;
use crate::fault::{Stop, WasmKind};
use crate::part::{Part, close, part_of};
use crate::vector::{Entry, counted_of, vector_of};
use fil_base::{Failure, Row};
use std::alloc::Global;

/// How a section stands behind custom ones.
#[derive(Clone, Copy)]
pub enum Opening<'b> {
    /// There is none: these bytes stand there.
    Absent(&'b [u8]),

    /// It is this part.
    Begun(Part<'b>),
}

/// How the section of this number stands at the front.
#[tactic(auto, unfolding(crate::specs::Openings::opening_at))]
pub fn opening_of(number: u8, bytes: &[u8]) -> Result<Opening<'_>, Stop>
    ensures { Gives opening_seen result (opening_at number bytes.now) }
{
    let front = customs_of(bytes)?;
    match front.split_first() {
        None => Ok(Opening::Absent(front)),
        Some((first, rest)) => {
            if *first != number {
                return Ok(Opening::Absent(front));
            }
            let part = part_of(rest)?;
            Ok(Opening::Begun(part))
        }
    }
}

/// The rows of a section with at most so many, of which there are none if it is absent, and the rest.
pub fn rows_of<T: Entry>(
    alloc: Global,
    number: u8,
    most: u32,
    bytes: &[u8],
) -> Result<(Row<T>, &[u8]), Failure<Stop>>
    ensures { GivesOrNoMemory (λ x. (x.0, x.1.now)) result (section_at number [] (vector_at most T.reading) bytes.now) }
{
    let opening = opening_of(number, bytes)?;
    match opening {
        Opening::Absent(rest) => Ok((Row::of(Vec::new(alloc)), rest)),
        Opening::Begun(part) => close(part, vector_of(alloc, most, part.content)),
    }
}

/// The rows of a section with as many as are wanted, or with at most so many, and the rest. It may be absent where none
/// are wanted.
pub fn wanted_rows_of<T: Entry>(
    alloc: Global,
    number: u8,
    wanted: Option<usize>,
    most: u32,
    bytes: &[u8],
) -> Result<(Row<T>, &[u8]), Failure<Stop>>
    ensures { GivesOrNoMemory (λ x. (x.0, x.1.now)) result (wanted_section_at number wanted most T.reading bytes.now) }
{
    let (found, behind) = optional_rows_of::<T>(alloc, number, wanted, most, bytes)?;
    match found {
        Some(rows) => Ok((rows, behind)),
        None => absent_rows_of(alloc, wanted, behind),
    }
}

// The rows of a section that may be absent, and the rest.
fn optional_rows_of<T: Entry>(
    alloc: Global,
    number: u8,
    wanted: Option<usize>,
    most: u32,
    bytes: &[u8],
) -> Result<(Option<Row<T>>, &[u8]), Failure<Stop>>
    ensures { GivesOrNoMemory (λ x. (x.0, x.1.now)) result (section_at number None (present (counted_at wanted most T.reading)) bytes.now) }
{
    let opening = opening_of(number, bytes)?;
    match opening {
        Opening::Absent(rest) => Ok((None, rest)),
        Opening::Begun(part) => close(part, present_rows_of(alloc, wanted, most, part.content)),
    }
}

// The rows of a section that is not absent, and the rest.
fn present_rows_of<T: Entry>(
    alloc: Global,
    wanted: Option<usize>,
    most: u32,
    bytes: &[u8],
) -> Result<(Option<Row<T>>, &[u8]), Failure<Stop>>
    ensures { GivesOrNoMemory (λ x. (x.0, x.1.now)) result (present (counted_at wanted most T.reading) bytes.now) }
{
    let (rows, rest) = counted_of::<T>(alloc, wanted, most, bytes)?;
    Ok((Some(rows), rest))
}

// The rows of a section that is absent, and the rest. One is missing where some are wanted.
fn absent_rows_of<T: Entry>(
    alloc: Global,
    wanted: Option<usize>,
    bytes: &[u8],
) -> Result<(Row<T>, &[u8]), Failure<Stop>>
    ensures { GivesOrNoMemory (λ x. (x.0, x.1.now)) result (wanted_rows (wanted_by wanted) (None, bytes.now)) }
{
    if count_wanted(wanted) == 0 {
        return Ok((Row::of(Vec::new(alloc)), bytes));
    }
    let rest = customs_of(bytes)?;
    Err(Failure::Fault(missing_at(rest)))
}

// How many rows are wanted at least.
fn count_wanted(wanted: Option<usize>) -> usize
    ensures { result ≡ wanted_by wanted }
{
    match wanted {
        None => 0,
        Some(count) => count,
    }
}

/// Why reading stops where no section can stand, or one is missing.
pub fn missing_at(bytes: &[u8]) -> Stop
    ensures { result ≡ missing bytes.now }
{
    match bytes.split_first() {
        None => Stop::Short,
        Some((first, _rest)) => {
            if *first == 8 {
                return Stop::Flaw(WasmKind::Start, bytes.len());
            }
            Stop::Flaw(WasmKind::Form, bytes.len())
        }
    }
}
