ghost use Rattle.std.specs.Prelude.{◌≡◌};
ghost use Rattle.car_file.specs.Place.{at_place};

use fil_base::Failure;

/// Why bytes are no archive, and where. A place beyond 2^64 - 1 is given as that number.
#[derive(Clone, Copy, Debug, PartialEq, Eq)]
pub struct CarFault {
    pub kind: CarKind,
    pub at: u64,
}

/// What is wrong. A fault of the header stands at 0, one of a section where the section begins.
#[derive(Clone, Copy, Debug, PartialEq, Eq)]
pub enum CarKind {
    /// The header's length is not in its one spelling, or the header is no map of DAG-CBOR with the key `version`, or
    /// one of version 1 with a key other than `roots` and `version`.
    Header,

    /// The version is not 1.
    Version,

    /// The key `roots` is absent, or its value is no list of exactly one link.
    Roots,

    /// A section's length is not in its one spelling, or is 0.
    Section,

    /// A section begins with no CID that ends inside it.
    Cid,

    /// A section's CID is not of version 1, or its hash is neither BLAKE2b-256 nor SHA2-256 with 32 bytes.
    HashNotSupported,

    /// A section's bytes have another digest than its CID.
    Digest,

    /// The bytes end inside the header or inside a section. It stands at their end.
    Cut,
}

/// The failure, its fault at this place.
pub(crate) fn placed(failure: Failure<CarKind>, at: u64) -> Failure<CarFault>
    ensures { result ≡ at_place failure at }
{
    match failure {
        Failure::NoMemory => Failure::NoMemory,
        Failure::Fault(kind) => Failure::Fault(CarFault { kind, at }),
    }
}
