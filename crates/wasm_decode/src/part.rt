ghost use Rattle.std.specs.Prelude.{◌≡◌};
ghost use Rattle.wasm_decode.specs.ReadingValues.{part_at};
ghost use Rattle.wasm_decode.specs.Parts.{part_of as part_seen, stop_around as stop_seen};
ghost use Rattle.wasm_decode.specs.Stops.{Found, Gives, GivesOrNoMemory, closed};

use crate::fault::{Stop, WasmKind};
use crate::number::u32_of;
use fil_base::Failure;

/// A part of the bytes that is to be read whole.
#[derive(Clone, Copy)]
pub struct Part<'b> {
    /// Those of its bytes that are there.
    pub content: &'b [u8],

    /// The bytes behind it.
    pub behind: &'b [u8],

    /// Whether some of its bytes are missing.
    pub is_cut: bool,

    /// How many bytes are left at its size.
    pub left: usize,
}

/// The part whose size stands at the front.
#[tactic(auto, unfolding(crate::specs::ReadingValues::part_at))]
pub fn part_of(bytes: &[u8]) -> Result<Part<'_>, Stop>
    ensures { Gives part_seen result (part_at bytes.now) }
{
    let (size, rest) = u32_of(bytes)?;
    let is_cut = (rest.len() as u64) < u64::from(size);
    let (content, behind) = if is_cut {
        rest.split_at(rest.len())
    } else {
        rest.split_at(size as usize)
    };
    Ok(Part {
        content,
        behind,
        is_cut,
        left: bytes.len(),
    })
}

/// What was read of a part, and the rest behind it.
pub fn close<'b, T: Drop>(
    part: Part<'b>,
    read: Result<(T, &'b [u8]), Failure<Stop>>,
) -> Result<(T, &'b [u8]), Failure<Stop>>
    ensures { (found : Found T) → GivesOrNoMemory (λ x. (x.0, x.1.now)) read.entry found
        → GivesOrNoMemory (λ x. (x.0, x.1.now)) result (closed (part_seen part.entry) found) }
{
    match read {
        Ok((value, rest)) => {
            if part.is_cut || !rest.is_empty() {
                return Err(Failure::Fault(Stop::Flaw(WasmKind::Form, part.left)));
            }
            Ok((value, part.behind))
        }
        Err(Failure::NoMemory) => Err(Failure::NoMemory),
        Err(Failure::Fault(stop)) => Err(Failure::Fault(stop_around(part, stop))),
    }
}

/// Why reading stops around a part, where it stops so in it.
pub fn stop_around(part: Part<'_>, stop: Stop) -> Stop
    ensures { stop_seen (part_seen part.entry) stop ≡ result }
{
    match stop {
        Stop::Flaw(kind, left) => Stop::Flaw(kind, left.saturating_add(part.behind.len())),
        Stop::Short => {
            if part.is_cut {
                Stop::Short
            } else {
                Stop::Flaw(WasmKind::Form, part.left)
            }
        }
    }
}
