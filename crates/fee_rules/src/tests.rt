ghost use Rattle.std.specs.Prelude.{◌≤◌};

use crate::{Fees, outputs};
use fil_base::{Gas, Token};

fn token(amount: u128) -> Token {
    Token::new(amount).unwrap_or(Token::zero())
}

// What a message pays at a limit of 1,000, a fee cap of 20 and a gas premium of 5.
fn paid(used: u64, base: u128) -> Fees
    requires { used ≤ 1000 }
{
    outputs(
        Gas::new(used),
        Gas::new(1000),
        token(base),
        token(20),
        token(5),
    )
}

#[test]
fn half_of_the_limit_is_used(rt: HostRuntime) {
    assert_eq!(rt;
        paid(500, 10),
        Fees {
            base_burn: 5000,
            over_burn: 4500,
            tip: 5000,
            refund: 5500,
            penalty: 0,
            burned_gas: 450
        }
    );
}

#[test]
fn all_of_the_limit_is_used(rt: HostRuntime) {
    assert_eq!(rt;
        paid(1000, 10),
        Fees {
            base_burn: 10000,
            over_burn: 0,
            tip: 5000,
            refund: 5000,
            penalty: 0,
            burned_gas: 0
        }
    );
}

#[test]
fn nothing_is_used(rt: HostRuntime) {
    assert_eq!(rt;
        paid(0, 10),
        Fees {
            base_burn: 0,
            over_burn: 10000,
            tip: 5000,
            refund: 5000,
            penalty: 0,
            burned_gas: 1000
        }
    );
}

#[test]
fn a_little_less_than_the_limit_is_used(rt: HostRuntime) {
    assert_eq!(rt;
        paid(850, 10),
        Fees {
            base_burn: 8500,
            over_burn: 110,
            tip: 5000,
            refund: 6390,
            penalty: 0,
            burned_gas: 11
        }
    );
}

#[test]
fn the_base_fee_is_above_the_fee_cap(rt: HostRuntime) {
    assert_eq!(rt;
        paid(500, 30),
        Fees {
            base_burn: 10000,
            over_burn: 9000,
            tip: 0,
            refund: 1000,
            penalty: 9500,
            burned_gas: 450
        }
    );
}
