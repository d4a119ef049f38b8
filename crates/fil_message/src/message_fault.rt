ghost use Rattle.std.specs.Prelude.{◌≡◌};
ghost use Rattle.fil_base.specs.declared.failure.Failure.TheVariants.{Fault as fault_of};

use cbor_fields::FieldFault;
use fil_base::Failure;

/// Why a value is no message.
#[derive(Clone, Copy, Debug, PartialEq, Eq)]
pub enum MessageFault {
    /// A field is none: the first one, in their order.
    Field(FieldFault),
}

impl From<MessageFault> for Failure<MessageFault> {
    ghost from_gives = { λ fault failure. failure ≡ fault_of fault };

    fn from(fault: MessageFault) -> Failure<MessageFault> {
        Failure::Fault(fault)
    }
}
