ghost use Rattle.std.specs.Prelude.{◌≡◌};
ghost use Rattle.fvm_run.specs.declared.stop.Stop.TheVariants.{ReadFailed, NoMemory as OutOfMemory};
ghost use Rattle.fvm_run.specs.Stops.{car_stop, cbor_stop, check_stop, form_stop, scenario_stop, wasm_stop};

use crate::refusal::Refusal;
use car_file::CarFault;
use dag_cbor::CborFault;
use fil_base::{Failure, NoMemory};
use fil_message::FormFault;
use outside_io::Failed;
use scenario_form::ScenarioFault;
use std::alloc::AllocError;
use wasm_check::CheckFault;
use wasm_decode::WasmFault;

/// Why a command has no text.
#[derive(Debug, Drop)]
pub enum Stop {
    /// The source failed.
    ReadFailed,

    /// There was no memory.
    NoMemory,

    /// The input is refused.
    Refused(Refusal),
}

impl From<Failed> for Stop {
    ghost from_gives = { λ _ stop. stop ≡ ReadFailed };

    fn from(_: Failed) -> Stop {
        Stop::ReadFailed
    }
}

impl From<NoMemory> for Stop {
    ghost from_gives = { λ _ stop. stop ≡ OutOfMemory };

    fn from(_: NoMemory) -> Stop {
        Stop::NoMemory
    }
}

impl From<AllocError> for Stop {
    ghost from_gives = { λ _ stop. stop ≡ OutOfMemory };

    fn from(_: AllocError) -> Stop {
        Stop::NoMemory
    }
}

impl From<Failure<CarFault>> for Stop {
    ghost from_gives = { λ failure stop. stop ≡ car_stop failure };

    fn from(failure: Failure<CarFault>) -> Stop {
        match failure {
            Failure::NoMemory => Stop::NoMemory,
            Failure::Fault(fault) => Stop::Refused(Refusal::Car(fault)),
        }
    }
}

impl From<Failure<CborFault>> for Stop {
    ghost from_gives = { λ failure stop. stop ≡ cbor_stop failure };

    fn from(failure: Failure<CborFault>) -> Stop {
        match failure {
            Failure::NoMemory => Stop::NoMemory,
            Failure::Fault(fault) => Stop::Refused(Refusal::Cbor(fault)),
        }
    }
}

impl From<Failure<FormFault>> for Stop {
    ghost from_gives = { λ failure stop. stop ≡ form_stop failure };

    fn from(failure: Failure<FormFault>) -> Stop {
        match failure {
            Failure::NoMemory => Stop::NoMemory,
            Failure::Fault(fault) => Stop::Refused(Refusal::Form(fault)),
        }
    }
}

impl From<Failure<ScenarioFault>> for Stop {
    ghost from_gives = { λ failure stop. stop ≡ scenario_stop failure };

    fn from(failure: Failure<ScenarioFault>) -> Stop {
        match failure {
            Failure::NoMemory => Stop::NoMemory,
            Failure::Fault(fault) => Stop::Refused(Refusal::Scenario(fault)),
        }
    }
}

impl From<Failure<WasmFault>> for Stop {
    ghost from_gives = { λ failure stop. stop ≡ wasm_stop failure };

    fn from(failure: Failure<WasmFault>) -> Stop {
        match failure {
            Failure::NoMemory => Stop::NoMemory,
            Failure::Fault(fault) => Stop::Refused(Refusal::Wasm(fault)),
        }
    }
}

impl From<Failure<CheckFault>> for Stop {
    ghost from_gives = { λ failure stop. stop ≡ check_stop failure };

    fn from(failure: Failure<CheckFault>) -> Stop {
        match failure {
            Failure::NoMemory => Stop::NoMemory,
            Failure::Fault(fault) => Stop::Refused(Refusal::Check(fault)),
        }
    }
}
