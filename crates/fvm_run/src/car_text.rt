ghost use Rattle.std.specs.Prelude.{◌≡◌, ◌≤◌, ◌<◌, ◌^◌, IfOk, IfErr, vec_len};
ghost use Rattle.car_file.specs.Car.{IsCar, car as spelled_car};
ghost use Rattle.car_file.specs.CarFault.{IsCarFault};
ghost use Rattle.fil_base.specs.Failure.{IfFault};
ghost use Rattle.fvm_run.specs.Answers.{IsRunAnswer, BeginsAsList};
ghost use Rattle.fvm_run.specs.Cars.{IsLoaded};
ghost use Rattle.fvm_run.specs.Stops.{IfRefused};

use crate::input::INPUT_LIMIT;
use crate::stop::Stop;
use crate::tipsets::text_of_scenario;
use block_base::Base;
use car_file::{Car, CarFault, CarReader};
use fil_base::{Bytes, Cid, Failure};
use scenario_form::judge_scenario;
use std::alloc::Global;

/// The text of the reports on the scenario of the CAR file that the input is. The input is let go before the scenario is
/// read.
pub fn text_of_car(alloc: Global, input: Vec<u8>) -> Result<Bytes, Stop>
    requires limit { vec_len input ≤ INPUT_LIMIT }
    requires other { BeginsAsList input.items → ⊥ }
    ensures text { IfOk result (λ text. IsRunAnswer input.items (Ok text)) }
    ensures refused { IfErr result (IfRefused (λ refusal. IsRunAnswer input.items (Err refusal))) }
{
    let (root, base) = loaded(alloc, input)?;
    let scenario = judge_scenario(alloc, &root, &base)?;
    text_of_scenario(alloc, &base, &scenario)
}

/// The root of the CAR file, and its blocks as they are found by their CID.
fn loaded(alloc: Global, input: Vec<u8>) -> Result<(Cid, Base), Failure<CarFault>>
    ensures found { IfOk result (λ found. IsLoaded input.items found.0 found.1) }
    ensures fault { IfErr result (λ failure. IfFault failure (IsCarFault input.items)) }
{
    let Car { root, blocks } = car_of(alloc, input)?;
    let base = Base::of(alloc, blocks)?;
    Ok((root, base))
}

/// The CAR file that the input is.
fn car_of(alloc: Global, input: Vec<u8>) -> Result<Car, Failure<CarFault>>
    ensures found { IfOk result (λ car.
        IsCar car.root car.blocks × (input.items ≡ spelled_car car.root car.blocks)) }
    ensures fault { IfErr result (λ failure. IfFault failure (IsCarFault input.items)) }
{
    let mut reader = CarReader::new(alloc);
    reader.feed(&input)?;
    drop(input);
    reader.finish()
}
