ghost use Rattle.std.specs.Prelude.{◌≡◌};
ghost use Rattle.wasm_decode.specs.ReadingTypes.{block_type_at, no_type, switch_at, value_type_at};
ghost use Rattle.wasm_decode.specs.Stops.{Gives};

use crate::fault::{Stop, WasmKind};
use crate::number::byte_of;
use wasm_types::ValType;

/// A type of values, and the rest.
#[inline(always)]
#[tactic(auto, unfolding(crate::specs::ReadingTypes::value_type_at))]
pub fn value_type_of(bytes: &[u8]) -> Result<(ValType, &[u8]), Stop>
    ensures { Gives (λ x. (x.0, x.1.now)) result (value_type_at bytes.now) }
{
    let (byte, rest) = byte_of(bytes)?;
    if byte == 0x7f {
        return Ok((ValType::I32, rest));
    }
    if byte == 0x7e {
        return Ok((ValType::I64, rest));
    }
    Err(Stop::Flaw(no_type_kind(byte), bytes.len()))
}

/// The type of a block, which is its result, and the rest.
#[inline(always)]
#[tactic(auto, unfolding(crate::specs::ReadingTypes::block_type_at))]
pub fn block_type_of(bytes: &[u8]) -> Result<(Option<ValType>, &[u8]), Stop>
    ensures { Gives (λ x. (x.0, x.1.now)) result (block_type_at bytes.now) }
{
    let (byte, rest) = byte_of(bytes)?;
    if byte == 0x40 {
        return Ok((None, rest));
    }
    if byte == 0x7f {
        return Ok((Some(ValType::I32), rest));
    }
    if byte == 0x7e {
        return Ok((Some(ValType::I64), rest));
    }
    Err(Stop::Flaw(no_type_kind(byte), bytes.len()))
}

/// A byte that is 0 or 1, and the rest.
#[inline(always)]
#[tactic(auto, unfolding(crate::specs::ReadingTypes::switch_at))]
pub fn switch_of(bytes: &[u8]) -> Result<(bool, &[u8]), Stop>
    ensures { Gives (λ x. (x.0, x.1.now)) result (switch_at bytes.now) }
{
    let (byte, rest) = byte_of(bytes)?;
    if byte > 1 {
        return Err(Stop::Flaw(WasmKind::Form, bytes.len()));
    }
    Ok((byte == 1, rest))
}

/// What is wrong with a byte that is no type here.
pub fn no_type_kind(byte: u8) -> WasmKind
    ensures { result ≡ no_type byte }
{
    if byte == 0x7d || byte == 0x7c {
        WasmKind::Float
    } else {
        WasmKind::Unsupported
    }
}
