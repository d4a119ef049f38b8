ghost use Rattle.std.specs.Prelude.{◌≤◌, IfOk, IfErr, OnOk, vec_len};
ghost use Rattle.std.specs.Io.KnownBytes.{IsAtEnd};
ghost use Rattle.fvm_run.specs.declared.command.Command.{Command};
ghost use Rattle.fvm_run.specs.Answers.{Had};
ghost use Rattle.fvm_run.specs.Stops.{HasCauseOfStop};

use crate::refusal::Refusal;
use crate::stop::Stop;
use outside_io::Source;
use std::alloc::Global;

/// The greatest length of an input, in bytes.
pub const INPUT_LIMIT: usize = 268_435_456;

const PIECE: usize = 65_536;

/// Reads the source to its end, or until more than [`INPUT_LIMIT`] bytes came.
pub fn read_to_end<S: Source>(alloc: Global, source: &mut S) -> Result<Vec<u8>, Stop>
    ensures whole { IfOk result (λ bytes. Had (S.left source.old) bytes.items) }
    ensures at_end { OnOk result (IsAtEnd (S.left source.new)) }
    ensures limit { IfOk result (λ bytes. vec_len bytes ≤ INPUT_LIMIT) }
    ensures stop { (command : Command) → IfErr result (HasCauseOfStop command (S.left source.old) (S.left source.new)
        (S.faults source.old) (S.faults source.new)) }
    ensures later { S.faults source.old ≤ S.faults source.new }
{
    let mut bytes = Vec::new(alloc);
    let mut piece = [0u8; PIECE];
    while bytes.len() <= INPUT_LIMIT {
        let count = source.read(&mut piece)?;
        if count == 0 {
            return Ok(bytes);
        }
        bytes.extend_from_slice(&piece[..count])?;
    }
    Err(Stop::Refused(Refusal::TooLong))
}
