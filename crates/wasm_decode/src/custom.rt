ghost use Rattle.std.specs.Prelude.{◌≡◌};
ghost use Rattle.wasm_decode.specs.ReadingModule.{custom_at, customs_at};
ghost use Rattle.wasm_decode.specs.Stops.{Gives};

use crate::fault::Stop;
use crate::part::{part_of, stop_around};
use crate::value::name_of;

/// All custom sections at the front: the rest.
pub fn customs_of(bytes: &[u8]) -> Result<&[u8], Stop>
    ensures { Gives (λ rest. rest.now) result (customs_at bytes.now) }
{
    let mut rest = bytes;
    for _read in 0..bytes.len() {
        match rest.split_first() {
            None => return Ok(rest),
            Some((first, behind)) => {
                if *first != 0 {
                    return Ok(rest);
                }
                rest = custom_of(behind)?;
            }
        }
    }
    Ok(rest)
}

// A custom section behind its number: the rest.
#[tactic(auto, unfolding(crate::specs::ReadingModule::custom_at))]
fn custom_of(bytes: &[u8]) -> Result<&[u8], Stop>
    ensures { Gives (λ rest. rest.now) result (custom_at bytes.now) }
{
    let part = part_of(bytes)?;
    match name_of(part.content) {
        Ok(_) => {
            if part.is_cut {
                return Err(Stop::Short);
            }
            Ok(part.behind)
        }
        Err(stop) => Err(stop_around(part, stop)),
    }
}
