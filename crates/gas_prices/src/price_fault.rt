ghost use Rattle.std.specs.Prelude.{◌≡◌, ℕ, List};
ghost use Rattle.gas_prices.specs.Prices.{IsPriceList, IsPriceFault};
ghost use Rattle.gas_prices.specs.declared.price_fault.PriceFault.{PriceFault};

/// Why numbers are no list of prices, in the order in which it is judged.
#[derive(Clone, Copy, Debug, PartialEq, Eq)]
pub enum PriceFault {
    /// There are so many numbers, and not one for each price.
    Count(u32),

    /// The first number out of range stands at this place, and is 0 where the price is at least 1.
    Zero(u32),

    /// The first number out of range stands at this place, and is above 10^9.
    TooHigh(u32),
}

/// A law, with no code: numbers have one fault at most, and a list of prices has none.
pub fn one_price_fault()
    ensures one { (prices : List ℕ) (f g : PriceFault) → IsPriceFault prices f → IsPriceFault prices g → f ≡ g }
    ensures none { (prices : List ℕ) (fault : PriceFault) → IsPriceFault prices fault → IsPriceList prices → ⊥ }
{}
