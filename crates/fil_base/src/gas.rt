ghost use Rattle.std.specs.Prelude.{◌≡◌};

use std::marker::Model;

/// An amount of gas, in which work is paid for (Filecoin specification, "Gas").
#[derive(Clone, Copy, Debug, PartialEq, Eq, PartialOrd, Ord)]
pub struct Gas(u64);

impl Model for Gas {
    ghost use Rattle.std.specs.Prelude.{ℕ};

    ghost Value = { ℕ };

    ghost view = { λ gas. gas.0 };

    ghost inverse = { λ n. record { 0 = n } };
}

impl Gas {
    pub fn new(n: u64) -> Gas
        ensures { result ≡ n }
    {
        Gas(n)
    }

    pub fn number(&self) -> u64
        ensures { result ≡ self.now }
    {
        self.0
    }
}
