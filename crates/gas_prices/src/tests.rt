ghost use Rattle.std.specs.Prelude.{◌<◌, ◌^◌, length};

use crate::{Meter, OutOfGas, Price, PriceFault, PriceList};
use fil_base::Gas;

// The price of a call in the list of these numbers.
fn price_of_call(numbers: &[u64]) -> Result<u64, PriceFault>
    requires { length numbers.now < 2 ^ 32 }
{
    PriceList::from_list(numbers).map(|list| list.of(Price::Call))
}

// Ones, with this number at the place.
fn ones_but(at: usize, number: u64) -> [u64; 23]
    requires { at < 23 }
{
    let mut numbers = [1; 23];
    numbers[at] = number;
    numbers
}

#[test]
fn there_is_a_number_for_each_price(rt: HostRuntime) {
    assert_eq!(rt; price_of_call(&[1; 23]), Ok(1));
    assert_eq!(rt; price_of_call(&[1; 22]), Err(PriceFault::Count(22)));
    assert_eq!(rt; price_of_call(&[1; 24]), Err(PriceFault::Count(24)));
}

#[test]
fn some_prices_are_at_least_1(rt: HostRuntime) {
    assert_eq!(rt; price_of_call(&ones_but(3, 0)), Err(PriceFault::Zero(3)));
    assert_eq!(rt; price_of_call(&ones_but(4, 0)), Ok(1));
}

#[test]
fn prices_are_at_most_10_to_the_9(rt: HostRuntime) {
    assert_eq!(rt;
        price_of_call(&ones_but(3, 1_000_000_000)),
        Ok(1_000_000_000)
    );
    assert_eq!(rt;
        price_of_call(&ones_but(22, 1_000_000_001)),
        Err(PriceFault::TooHigh(22))
    );
}

#[test]
fn the_first_fault_is_answered(rt: HostRuntime) {
    let mut numbers = ones_but(9, 0);
    numbers[2] = 1_000_000_001;
    assert_eq!(rt; price_of_call(&numbers), Err(PriceFault::TooHigh(2)));
}

#[test]
fn prices_stand_by_their_numbers(rt: HostRuntime) {
    assert_eq!(rt; Price::Include.number(), 0);
    assert_eq!(rt; Price::Plain.number(), 9);
    assert_eq!(rt; Price::Syscall.number(), 17);
    assert_eq!(rt; Price::Native.number(), 22);
}

#[test]
fn a_meter_runs_out(rt: HostRuntime) {
    let mut meter = Meter::new(Gas::new(10));
    assert_eq!(rt; meter.charge(4), Ok(()));
    assert_eq!(rt; meter.used().number(), 4);
    assert_eq!(rt; meter.charge(6), Ok(()));
    assert_eq!(rt; meter.left().number(), 0);
    assert_eq!(rt; meter.charge(1), Err(OutOfGas));
    assert_eq!(rt; meter.used().number(), 10);
}
