ghost use Rattle.std.specs.Prelude.{◌≡◌, ◌<◌, ◌≤◌, ◌^◌, IfOk, IfErr, OnOk, length, slice_index};
ghost use Rattle.gas_prices.specs.declared.price.TheConstants.{GREATEST_PRICE};
ghost use Rattle.gas_prices.specs.Prices.{number_of, least_of, IsPriceList, IsPriceFault};

use crate::price::{GREATEST_PRICE, PRICE_COUNT, Price, row_at};
use crate::price_fault::PriceFault;
use std::marker::Model;

/// A number for each price, all in range.
#[derive(Clone, Copy, Debug, PartialEq, Eq)]
pub struct PriceList {
    prices: [u64; PRICE_COUNT],
}

impl Model for PriceList {
    ghost use Rattle.std.specs.Prelude.{ℕ, List};
    ghost use Rattle.gas_prices.specs.Prices.{IsPriceList};

    ghost Value = { List ℕ };

    ghost view = { λ list. list.prices };

    ghost invariant = { λ list. IsPriceList list.prices };

    ghost inverse = { λ prices. record { prices = prices } };
}

impl PriceList {
    /// The list of these prices, by their numbers. It takes no memory.
    pub fn from_list(prices: &[u64]) -> Result<PriceList, PriceFault>
        requires { length prices.now < 2 ^ 32 }
        ensures found { IfOk result (λ list. (list ≡ prices.now) × IsPriceList prices.now) }
        ensures fault { IfErr result (IsPriceFault prices.now) }
    {
        judge(prices)?;
        let mut copied = [0; PRICE_COUNT];
        copied.copy_from_slice(prices);
        Ok(PriceList { prices: copied })
    }

    pub fn of(&self, price: Price) -> u64
        ensures value { result ≡ slice_index self.now (number_of price) }
        ensures least { least_of price ≤ result }
        ensures greatest { result ≤ GREATEST_PRICE }
    {
        self.prices[price.number()]
    }
}

// Judges that there is a number for each price, and then each in turn.
fn judge(prices: &[u64]) -> Result<(), PriceFault>
    requires { length prices.now < 2 ^ 32 }
    ensures found { OnOk result (IsPriceList prices.now) }
    ensures fault { IfErr result (IsPriceFault prices.now) }
{
    if prices.len() != PRICE_COUNT {
        return Err(PriceFault::Count(prices.len() as u32));
    }
    for (i, price) in prices.iter().enumerate() {
        let (_, least) = row_at(i);
        if *price < least {
            return Err(PriceFault::Zero(i as u32));
        }
        if *price > GREATEST_PRICE {
            return Err(PriceFault::TooHigh(i as u32));
        }
    }
    Ok(())
}
