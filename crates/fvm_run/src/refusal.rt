use car_file::CarFault;
use dag_cbor::CborFault;
use fil_message::FormFault;
use scenario_form::ScenarioFault;
use wasm_check::CheckFault;
use wasm_decode::WasmFault;

/// Why an input is refused, in the order in which it is judged. For `run` one that begins with the bytes `84 00` is an
/// account list, and every other a CAR file (the CARv1 specification).
#[derive(Debug, Drop)]
pub enum Refusal {
    /// More than 268,435,456 bytes came.
    TooLong,

    /// The bytes are no CAR file.
    Car(CarFault),

    /// The account list is not DAG-CBOR.
    Cbor(CborFault),

    /// The account list is DAG-CBOR of another form.
    Form(FormFault),

    /// There is no scenario under the root of the CAR file.
    Scenario(ScenarioFault),

    /// The tipset at this place, from 0, is the first that this version does not evaluate: it has more than one block,
    /// or a message that does more than move a value, or moves it to a receiver for which an account would have to be
    /// made.
    NotBuilt(u32),

    /// The bytes are no Wasm module.
    Wasm(WasmFault),

    /// The Wasm module is not valid.
    Check(CheckFault),
}
