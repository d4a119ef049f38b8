ghost use Rattle.std.specs.Prelude.{◌≡◌, ◌≤◌, Err, IfErr, IfOk, length};
ghost use Rattle.fil_base.specs.Failure.{IfFault};
ghost use Rattle.wasm_types.specs.declared.limits.TheConstants.{MOST_MODULE_BYTES};
ghost use Rattle.wasm_types.specs.declared.raw_module.RawModule.{RawModule};
ghost use Rattle.wasm_decode.specs.Modules.{SpellsModule};
ghost use Rattle.wasm_decode.specs.ReadingModule.{Answers, decoded, placed};

use crate::fault::{Stop, WasmFault, WasmKind};
use crate::module_sections::module_of;
use fil_base::Failure;
use std::alloc::Global;
use wasm_types::{MOST_MODULE_BYTES, RawModule};

/// The module that the bytes spell, all of them.
pub fn decode(alloc: Global, bytes: &[u8]) -> Result<RawModule, Failure<WasmFault>>
    // What is read is spelled so.
    ensures found { IfOk result (SpellsModule bytes.now) }
    // A fault comes only where no module is spelled so.
    ensures only { IfErr result (λ failure. IfFault failure (λ fault.
        (raw : RawModule) → SpellsModule bytes.now raw → ⊥)) }
    // It is the first one.
    ensures exact { Answers result (decoded bytes.now) }
{
    module_or_fault(alloc, bytes)
}

// The module that the bytes spell, or their first fault.
#[tactic(auto, unfolding(crate::specs::ReadingModule::decoded))]
fn module_or_fault(alloc: Global, bytes: &[u8]) -> Result<RawModule, Failure<WasmFault>>
    ensures { Answers result (decoded bytes.now) }
{
    if bytes.len() > MOST_MODULE_BYTES {
        return Err(Failure::Fault(WasmFault {
            kind: WasmKind::Limit,
            at: 0,
        }));
    }
    match module_of(alloc, bytes) {
        Ok(raw) => Ok(raw),
        Err(Failure::NoMemory) => Err(Failure::NoMemory),
        Err(Failure::Fault(stop)) => Err(Failure::Fault(fault_of(bytes, stop))),
    }
}

// The fault where reading these bytes stops so.
fn fault_of(bytes: &[u8], stop: Stop) -> WasmFault
    requires small { length bytes.now ≤ MOST_MODULE_BYTES }
    ensures { placed (length bytes.now) (Err stop) ≡ Err result }
{
    match stop {
        Stop::Short => WasmFault {
            kind: WasmKind::Form,
            at: bytes.len() as u32,
        },
        Stop::Flaw(kind, left) => WasmFault {
            kind,
            at: bytes.len().saturating_sub(left) as u32,
        },
    }
}
