ghost use Rattle.std.specs.Prelude.{◌≡◌};
ghost use Rattle.scenario_form.specs.Reading.{block_at, failed_at, message_at, nowhere, tipset_at};

use crate::fault::FormFault;
use cbor_fields::FieldFault;
use fil_base::Failure;

/// Where in a scenario a field stands: in the scenario itself, in a tipset, in a block of it, or in a message of that.
#[derive(Clone, Copy, Debug, PartialEq, Eq)]
pub struct Place {
    /// The tipset's place, from 0.
    pub tipset: Option<u32>,

    /// The block's place in the tipset, from 0.
    pub block: Option<u32>,

    /// The message's place in the block, from 0.
    pub message: Option<u32>,
}

impl Place {
    /// The scenario itself.
    pub(crate) fn scenario() -> Place
        ensures { result ≡ nowhere }
    {
        Place {
            tipset: None,
            block: None,
            message: None,
        }
    }

    /// A tipset.
    pub(crate) fn tipset(tipset: u32) -> Place
        ensures { result ≡ tipset_at tipset }
    {
        Place {
            tipset: Some(tipset),
            block: None,
            message: None,
        }
    }

    /// A block of a tipset.
    pub(crate) fn block(tipset: u32, block: u32) -> Place
        ensures { result ≡ block_at tipset block }
    {
        Place {
            tipset: Some(tipset),
            block: Some(block),
            message: None,
        }
    }

    /// A message of a block.
    pub(crate) fn message(tipset: u32, block: u32, message: u32) -> Place
        ensures { result ≡ message_at tipset block message }
    {
        Place {
            tipset: Some(tipset),
            block: Some(block),
            message: Some(message),
        }
    }
}

/// A failure of a field, which stands at this place.
pub(crate) fn failed_at(place: Place, failure: Failure<FieldFault>) -> Failure<FormFault>
    ensures { result ≡ failed_at place failure }
{
    match failure {
        Failure::NoMemory => Failure::NoMemory,
        Failure::Fault(fault) => Failure::Fault((place, fault)),
    }
}
