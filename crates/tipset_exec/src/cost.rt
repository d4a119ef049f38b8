ghost use Rattle.std.specs.Prelude.{◌≡◌, ◌+◌, ◌*◌, ◌≤◌, slice_index};
ghost use Rattle.fee_rules.specs.declared.fees.TheConstants.{BLOCK_GAS_LIMIT};
ghost use Rattle.gas_prices.specs.Prices.{number_of};
ghost use Rattle.gas_prices.specs.declared.price.Price.TheVariants.{Include, IncludeByte};
ghost use Rattle.tipset_exec.specs.Messages.{greatest_cost};

use fil_message::Message;
use gas_prices::{Price, PriceList};

/// The gas for the inclusion of a message whose encoding is so many bytes long.
pub(crate) fn inclusion_gas(prices: &PriceList, size: usize) -> u64
    requires { size ≤ 1048576 }
    ensures { result ≡ slice_index prices.now (number_of Include) + slice_index prices.now (number_of IncludeByte) * size }
{
    prices.of(Price::Include) + prices.of(Price::IncludeByte) * size as u64
}

/// The most that the gas of a message can cost.
pub(crate) fn greatest_cost(message: &Message) -> u128
    requires { message.now.limit ≤ BLOCK_GAS_LIMIT }
    ensures { result ≡ greatest_cost message.now }
{
    message.cap.number() * u128::from(message.limit.number())
}
