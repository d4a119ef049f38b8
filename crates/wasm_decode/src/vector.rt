ghost use Rattle.std.specs.Prelude.{◌≡◌, [], Option};
ghost use Rattle.wasm_decode.specs.ReadingSections.{counted_at, wanted_count_at};
ghost use Rattle.wasm_decode.specs.ReadingValues.{items_at, u32_at, vector_at};
ghost use Rattle.wasm_decode.specs.Stops.{Found, Gives, GivesOrNoMemory};

use crate::fault::Stop;
use crate::number::u32_of;
use crate::value::{count_of, same_count_of};
use fil_base::{Failure, Row};
use std::alloc::Global;

/// What a vector can have as its items.
pub trait Entry: Drop {
    ghost use Rattle.std.specs.Prelude.{List, ℕ};

    /// How one is read.
    ghost reading: { List ℕ → Found Self };

    /// The one at the front, and the rest.
    fn read(alloc: Global, bytes: &[u8]) -> Result<(Self, &[u8]), Failure<Stop>>
        ensures { GivesOrNoMemory (λ x. (x.0, x.1.now)) result (reading bytes.now) };
}

impl Entry for u32 {
    ghost reading = { u32_at };

    fn read(_alloc: Global, bytes: &[u8]) -> Result<(u32, &[u8]), Failure<Stop>> {
        Ok(u32_of(bytes)?)
    }
}

/// A vector of at most so many items, and the rest.
#[tactic(auto, unfolding(crate::specs::ReadingValues::vector_at))]
pub fn vector_of<T: Entry>(
    alloc: Global,
    most: u32,
    bytes: &[u8],
) -> Result<(Row<T>, &[u8]), Failure<Stop>>
    ensures { GivesOrNoMemory (λ x. (x.0, x.1.now)) result (vector_at most T.reading bytes.now) }
{
    let (count, rest) = count_of(most, bytes)?;
    items_of(alloc, count, rest)
}

/// A vector of at most so many items, whose number is given elsewhere if it is `wanted`, and the rest.
#[tactic(auto, unfolding(crate::specs::ReadingSections::counted_at))]
pub fn counted_of<T: Entry>(
    alloc: Global,
    wanted: Option<usize>,
    most: u32,
    bytes: &[u8],
) -> Result<(Row<T>, &[u8]), Failure<Stop>>
    ensures { GivesOrNoMemory (λ x. (x.0, x.1.now)) result (counted_at wanted most T.reading bytes.now) }
{
    let (count, rest) = wanted_count_of(wanted, most, bytes)?;
    items_of(alloc, count, rest)
}

// A number of items that is at most `most`, and is `wanted` if that is given, and the rest.
fn wanted_count_of(wanted: Option<usize>, most: u32, bytes: &[u8]) -> Result<(u32, &[u8]), Stop>
    ensures { Gives (λ x. (x.0, x.1.now)) result (wanted_count_at wanted most bytes.now) }
{
    match wanted {
        None => count_of(most, bytes),
        Some(wanted) => same_count_of(wanted, most, bytes),
    }
}

// So many items, and the rest.
fn items_of<T: Entry>(
    alloc: Global,
    count: u32,
    bytes: &[u8],
) -> Result<(Row<T>, &[u8]), Failure<Stop>>
    ensures { GivesOrNoMemory (λ x. (x.0, x.1.now)) result (items_at T.reading [] count bytes.now) }
{
    let mut done = Vec::new(alloc);
    let mut rest = bytes;
    let mut left = count;
    while left > 0 {
        let (item, behind) = T::read(alloc, rest)?;
        done.push(item)?;
        rest = behind;
        left -= 1;
    }
    Ok((Row::of(done), rest))
}
