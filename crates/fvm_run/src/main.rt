//! The program `fvm`. Its command `run` reads an account list, or a CAR file with a scenario of tipsets, from standard
//! input, runs its messages, and prints the report. Its command `check` reads a Wasm module, and prints how much there is
//! of it if it is valid.
//!
//! ```text
//! fvm run < transfers.cbor
//! fvm run < scenario.car
//! fvm check < module.wasm
//! ```
//!
//! Everything that matters stands in [`fvm_main`], whose contract says what the program answers. `main` makes
//! the sources and sinks over the standard streams, collects the words, and ends with the number of the status.
#![tactic(auto)]

mod account_list;
mod answering;
mod car_text;
mod command;
mod ending;
mod input;
mod kept_state;
mod kind_name;
mod laws;
mod line;
mod output;
mod pieces;
mod plain;
mod refusal;
mod running;
mod scenario_line;
mod status;
mod stop;
#[cfg(test)]
mod tests;
mod tipsets;
mod wasm_module;

pub use answering::fvm_main;
pub use command::{Command, command_of};
pub use laws::one_answer;
use outside_io::{NoGate, ReadSource, WriteSink};
pub use plain::run_plain;
pub use refusal::Refusal;
pub use status::{Status, UsageFault, status_number};
use std::alloc::AllocError;
use std::env;
use std::io::ErrorKind;
use std::process::ExitCode;
use std::rt::Env;

fn main(rt: HostRuntime) -> ExitCode {
    let mut source = ReadSource::new(rt.stdin());
    let mut out = WriteSink::new(rt.stdout());
    let mut faults = WriteSink::new(rt.stderr());
    let status = match words_of(&rt) {
        Ok(words) => fvm_main(
            &rt,
            rt.alloc(),
            words.as_slice(),
            &mut source,
            &mut out,
            &mut faults,
            &NoGate,
        ),
        Err(_) => Status::NoMemory,
    };
    ExitCode::from(status_number(&status))
}

/// The words behind the program's name. Where one of them is no UTF-8 text, one empty word stands for all.
fn words_of<R: Env + AllocGlobal>(rt: &R) -> Result<Vec<String>, AllocError> {
    let mut words = Vec::new(rt.alloc());
    match env::args(rt) {
        Ok(args) => {
            for word in args.skip(1) {
                words.push(word)?;
            }
        }
        Err(error) if error.kind() == ErrorKind::OutOfMemory => return Err(AllocError),
        Err(_) => words.push(String::new(rt.alloc()))?,
    }
    Ok(words)
}
