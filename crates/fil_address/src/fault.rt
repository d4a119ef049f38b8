ghost use Rattle.std.specs.Prelude.{◌≡◌};
ghost use Rattle.fil_base.specs.declared.failure.Failure.TheVariants.{Fault};

use fil_base::Failure;

/// Why bytes or a text are no address. The order in which it is judged stands at [`from_bytes`](crate::from_bytes) and
/// [`parse`](crate::parse).
#[derive(Clone, Copy, Debug, PartialEq, Eq)]
pub enum AddressFault {
    /// There are no bytes, or fewer than three characters.
    Empty,

    /// The protocol is none of 0 to 3.
    Protocol,

    /// An ID that is no number below 2^63 in its one spelling: a varint as bytes, a decimal number as text.
    Number,

    /// The payload has another length than 20 bytes, or 48 for a BLS key; in a text also where no bytes have so many
    /// letters.
    Length,

    /// The text begins neither with `f` nor with `t`, or what follows the protocol is not in base 32.
    Letter,

    /// The checksum is not that of the protocol and the payload.
    Checksum,
}

impl From<AddressFault> for Failure<AddressFault> {
    ghost from_gives = { λ fault failure. failure ≡ Fault fault };

    fn from(fault: AddressFault) -> Failure<AddressFault> {
        Failure::Fault(fault)
    }
}
