ghost use Rattle.std.specs.Prelude.{◌≡◌, ◌≤◌};
ghost use Rattle.std.specs.Option.{SomeIff};

use std::marker::Model;

/// The greatest amount, 2*10^27 attoFIL: the 2 billion FIL that can ever be there.
pub const GREATEST_AMOUNT: u128 = 2_000_000_000_000_000_000_000_000_000;

/// An amount of tokens in attoFIL, at most [`GREATEST_AMOUNT`].
#[derive(Clone, Copy, Debug, PartialEq, Eq, PartialOrd, Ord)]
pub struct Token(u128);

impl Model for Token {
    ghost use Rattle.std.specs.Prelude.{ℕ, ◌≤◌};
    ghost use Rattle.fil_base.specs.declared.token.TheConstants.{GREATEST_AMOUNT};

    ghost Value = { ℕ };

    ghost view = { λ amount. amount.0 };

    ghost invariant = { λ amount. amount.0 ≤ GREATEST_AMOUNT };

    ghost inverse = { λ n. record { 0 = n } };
}

impl Token {
    /// This many attoFIL, if they are at most [`GREATEST_AMOUNT`].
    pub fn new(n: u128) -> Option<Token>
        ensures { SomeIff result (n ≤ GREATEST_AMOUNT) n }
    {
        if n <= GREATEST_AMOUNT {
            Some(Token(n))
        } else {
            None
        }
    }

    /// No tokens.
    pub fn zero() -> Token
        ensures { result ≡ 0 }
    {
        Token(0)
    }

    /// The number of attoFIL.
    pub fn number(&self) -> u128
        ensures value { result ≡ self.now }
        ensures range { self.now ≤ GREATEST_AMOUNT }
    {
        self.0
    }
}

#[cfg(test)]
mod tests {
    use super::*;

    #[test]
    fn amounts_are_at_most_2_billion_fil(rt: HostRuntime) {
        let greatest = 2_000_000_000 * 1_000_000_000_000_000_000;
        assert_eq!(rt;
            Token::new(greatest).map(|amount| amount.number()),
            Some(greatest)
        );
        assert_eq!(rt; Token::new(greatest + 1), None);
    }
}
