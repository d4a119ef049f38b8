ghost use Rattle.std.specs.Prelude.{◌≡◌};
ghost use Rattle.wasm_decode.specs.ReadingTypes.{func_type_at, params_at, results_at, value_type_at};
ghost use Rattle.wasm_decode.specs.Stops.{Gives, GivesOrNoMemory};

use crate::fault::{Stop, WasmKind};
use crate::number::{byte_of, u32_of};
use crate::types::value_type_of;
use crate::vector::{Entry, vector_of};
use fil_base::Failure;
use std::alloc::Global;
use wasm_types::{FuncType, MOST_PARAMS, ValType};

impl Entry for ValType {
    ghost reading = { value_type_at };

    fn read(_alloc: Global, bytes: &[u8]) -> Result<(ValType, &[u8]), Failure<Stop>> {
        Ok(value_type_of(bytes)?)
    }
}

impl Entry for FuncType {
    ghost reading = { func_type_at };

    fn read(alloc: Global, bytes: &[u8]) -> Result<(FuncType, &[u8]), Failure<Stop>> {
        func_type_of(alloc, bytes)
    }
}

// A type of functions, and the rest.
#[tactic(auto, unfolding(crate::specs::ReadingTypes::func_type_at))]
fn func_type_of(alloc: Global, bytes: &[u8]) -> Result<(FuncType, &[u8]), Failure<Stop>>
    ensures { GivesOrNoMemory (λ x. (x.0, x.1.now)) result (func_type_at bytes.now) }
{
    let (form, rest) = byte_of(bytes)?;
    if form != 0x60 {
        return Err(Failure::Fault(Stop::Flaw(WasmKind::Form, bytes.len())));
    }
    params_of(alloc, rest)
}

// The parameters and the results of a type, and the rest.
fn params_of(alloc: Global, bytes: &[u8]) -> Result<(FuncType, &[u8]), Failure<Stop>>
    ensures { GivesOrNoMemory (λ x. (x.0, x.1.now)) result (params_at bytes.now) }
{
    let (params, behind) = vector_of::<ValType>(alloc, MOST_PARAMS, bytes)?;
    let (result_type, rest) = results_of(behind)?;
    Ok((
        FuncType {
            params,
            result: result_type,
        },
        rest,
    ))
}

// The results of a type, of which there is one at most, and the rest.
#[tactic(auto, unfolding(crate::specs::ReadingTypes::results_at))]
fn results_of(bytes: &[u8]) -> Result<(Option<ValType>, &[u8]), Stop>
    ensures { Gives (λ x. (x.0, x.1.now)) result (results_at bytes.now) }
{
    let (count, behind) = u32_of(bytes)?;
    if count > 1 {
        return Err(Stop::Flaw(WasmKind::Unsupported, bytes.len()));
    }
    if count == 0 {
        return Ok((None, behind));
    }
    let (result_type, rest) = value_type_of(behind)?;
    Ok((Some(result_type), rest))
}
