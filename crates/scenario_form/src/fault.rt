ghost use Rattle.std.specs.Prelude.{◌≡◌};
ghost use Rattle.fil_base.specs.declared.failure.Failure.TheVariants.{Fault as fault_of};
ghost use Rattle.scenario_form.specs.declared.fault.ScenarioFault.TheVariants.{Price as price_fault};

use crate::place::Place;
use cbor_fields::FieldFault;
use dag_cbor::CborFault;
use fil_base::{Cid, Failure};
use gas_prices::PriceFault;
use hamt_map::StateFault;

/// Why there is no scenario under a root: the first cause, in this order. All fields are judged first; then the prices, the
/// limits, the codes; then one tipset after another, each whole.
#[derive(Debug, Drop)]
pub enum ScenarioFault {
    /// There is no block under the root.
    Root(Cid),

    /// Its bytes are no DAG-CBOR.
    Cbor(CborFault),

    /// The field at this place is none.
    Form(Place, FieldFault),

    /// The prices are none.
    Price(PriceFault),

    /// The limit of this number is exceeded: 0 the depth of calls, 1 to 64; 1 the pages, 1 to 512; 2 at most 1,024
    /// tipsets; 3 at most 256 blocks of each; 4 at most 10,000 messages of each block; 5 at most 1,048,576 bytes of each
    /// message. Of several it is the least.
    Limit(u32),

    /// Two of the codes are the same.
    Codes,

    /// The state of this tipset does not load.
    State(u32, StateFault),

    /// An actor of this tipset's state, or an ID that is named there, is not below the next ID.
    Next(u32),

    /// The balances of this tipset's state and its awards are more than 2 * 10^27 together.
    Total(u32),
}

impl From<ScenarioFault> for Failure<ScenarioFault> {
    ghost from_gives = { λ fault failure. failure ≡ fault_of fault };

    fn from(fault: ScenarioFault) -> Failure<ScenarioFault> {
        Failure::Fault(fault)
    }
}

impl From<PriceFault> for ScenarioFault {
    ghost from_gives = { λ price fault. fault ≡ price_fault price };

    fn from(price: PriceFault) -> ScenarioFault {
        ScenarioFault::Price(price)
    }
}

/// A field that is none, with its place.
pub(crate) type FormFault = (Place, FieldFault);
