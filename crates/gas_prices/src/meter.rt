ghost use Rattle.std.specs.Prelude.{◌≡◌, ◌-◌, ◌<◌, ◌≤◌, ◌↔◌, IsErr, OnOk, OnErr};

use fil_base::Gas;
use std::marker::Model;

/// The gas of a message ran out.
#[derive(Clone, Copy, Debug, PartialEq, Eq)]
pub struct OutOfGas;

/// The gas of a message, from which its work is paid.
#[derive(Debug, Drop)]
pub struct Meter {
    limit: Gas,
    left: Gas,
}

impl Model for Meter {
    ghost use Rattle.std.specs.Prelude.{◌≤◌};
    ghost use Rattle.gas_prices.specs.MeterState.{MeterState};

    ghost Value = { MeterState };

    ghost view = { λ meter. record { limit = meter.limit; left = meter.left } };

    ghost invariant = { λ meter. meter.left ≤ meter.limit };
}

impl Meter {
    /// A meter of which nothing is used.
    pub fn new(limit: Gas) -> Meter
        ensures limit { result.limit ≡ limit }
        ensures left { result.left ≡ limit }
    {
        Meter { limit, left: limit }
    }

    /// Takes the amount from what is left, or all that is left where that is less.
    pub fn charge(&mut self, amount: u64) -> Result<(), OutOfGas>
        ensures refused { IsErr result ↔ (self.old.left < amount) }
        ensures charged { OnOk result (self.new ≡ record self.old { left = self.old.left - amount }) }
        ensures emptied { OnErr result (self.new ≡ record self.old { left = 0 }) }
    {
        let left = self.left.number();
        if left < amount {
            self.left = Gas::new(0);
            return Err(OutOfGas);
        }
        self.left = Gas::new(left - amount);
        Ok(())
    }

    pub fn left(&self) -> Gas
        ensures left { result ≡ self.now.left }
        ensures within { self.now.left ≤ self.now.limit }
    {
        self.left
    }

    pub fn used(&self) -> Gas
        ensures used { result ≡ self.now.limit - self.now.left }
        ensures within { self.now.left ≤ self.now.limit }
    {
        Gas::new(self.limit.number() - self.left.number())
    }
}
