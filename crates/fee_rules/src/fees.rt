ghost use Rattle.std.specs.Prelude.{◌≡◌, ◌+◌, ◌*◌, ◌≤◌};
ghost use Rattle.fee_rules.specs.GasOutputs.{gas_outputs, burned_gas};
ghost use Rattle.fee_rules.specs.declared.fees.TheConstants.{BLOCK_GAS_LIMIT};

use fil_base::{Gas, Token};

/// The gas limit of a block, above which no message's is.
pub const BLOCK_GAS_LIMIT: u64 = 10_000_000_000;

/// What a message pays. The first four are what the sender can pay at most, divided up.
#[derive(Clone, Copy, Debug, PartialEq, Eq)]
pub struct Fees {
    /// Burned for the gas used.
    pub base_burn: u128,

    /// Burned for the gas limit that was set too high.
    pub over_burn: u128,

    /// Paid to the miner.
    pub tip: u128,

    /// Paid back to the sender.
    pub refund: u128,

    /// Owed by the miner, where the base fee is above the fee cap.
    pub penalty: u128,

    /// The gas that is burned besides the gas used.
    pub burned_gas: u64,
}

/// What a message pays that used so much gas of its limit, at a base fee, a fee cap and a gas premium, each for one
/// unit of gas.
pub fn outputs(used: Gas, limit: Gas, base: Token, cap: Token, premium: Token) -> Fees
    requires within_limit { used ≤ limit }
    requires within_block { limit ≤ BLOCK_GAS_LIMIT }
    ensures fees { result ≡ gas_outputs used limit base cap premium }
    // Nothing is lost and nothing is made.
    ensures whole { result.base_burn + result.over_burn + result.tip + result.refund ≡ cap * limit }
    ensures gas { used + result.burned_gas ≤ limit }
{
    let burned_gas = burned_gas(used.number(), limit.number());
    let used = u128::from(used.number());
    let limit = u128::from(limit.number());
    let burned = u128::from(burned_gas);
    let base = base.number();
    let cap = cap.number();
    let pay = base.min(cap);
    let base_burn = pay * used;
    let over_burn = pay * burned;
    let tip = premium.number().min(cap - pay) * limit;
    Fees {
        base_burn,
        over_burn,
        tip,
        refund: cap * limit - base_burn - over_burn - tip,
        penalty: (base - pay) * (used + burned),
        burned_gas,
    }
}

// The gas that is burned besides the gas used.
fn burned_gas(used: u64, limit: u64) -> u64
    requires within_limit { used ≤ limit }
    requires within_block { limit ≤ BLOCK_GAS_LIMIT }
    ensures gas { result ≡ burned_gas used limit }
    ensures within { used + result ≤ limit }
{
    if used == 0 {
        return limit;
    }
    let over = limit.saturating_sub(11 * used / 10);
    let burned = u128::from(limit - used) * u128::from(over.min(used)) / u128::from(used);
    burned as u64
}
