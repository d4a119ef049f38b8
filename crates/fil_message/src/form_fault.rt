ghost use Rattle.std.specs.Prelude.{◌≡◌};
ghost use Rattle.fil_message.specs.declared.form_fault.FormFault.TheVariants.{Field as field_fault};
ghost use Rattle.fil_base.specs.declared.failure.Failure.TheVariants.{Fault as fault_of};

use cbor_fields::FieldFault;
use fil_base::Failure;

/// Why a value is no account list. All fields are judged first, then the order of the IDs, then the total.
#[derive(Clone, Copy, Debug, PartialEq, Eq)]
pub enum FormFault {
    /// A field is none.
    Field(FieldFault),

    /// The ID of the actor at this place is not above the one before it. A place beyond 2^32 - 1 is given as that number.
    Order(u32),

    /// The balances add up to more than 2 * 10^27.
    Total,
}

impl From<FormFault> for Failure<FormFault> {
    ghost from_gives = { λ fault failure. failure ≡ fault_of fault };

    fn from(fault: FormFault) -> Failure<FormFault> {
        Failure::Fault(fault)
    }
}

impl From<FieldFault> for FormFault {
    ghost from_gives = { λ field fault. fault ≡ field_fault field };

    fn from(field: FieldFault) -> FormFault {
        FormFault::Field(field)
    }
}
