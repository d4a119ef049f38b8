ghost use Rattle.std.specs.Prelude.{◌≡◌};
ghost use Rattle.fil_base.specs.declared.failure.Failure.TheVariants.{Fault};

use fil_base::Failure;

/// Why bytes are no module, and at which of them.
#[derive(Clone, Copy, Debug, PartialEq, Eq)]
pub struct WasmFault {
    pub kind: WasmKind,
    pub at: u32,
}

/// The kinds of faults, in the order in which they are judged at one byte.
#[derive(Clone, Copy, Debug, PartialEq, Eq)]
pub enum WasmKind {
    /// There is too much of something. It stands at the count or size, and for the module at its beginning.
    Limit,

    /// A floating-point type, or an instruction on floating-point numbers. It stands at the type or the opcode.
    Float,

    /// A start section. It stands at the section's number.
    Start,

    /// A type, an instruction, a kind of import, a flag of a segment, a second table, memory or result that is known
    /// elsewhere and not here. It stands at the type, the opcode, the import, the flag or the count.
    Unsupported,

    /// An imported function that is no system call of that type. It stands at the import.
    UnknownImport,

    /// Anything else. It stands at what cannot stand there, and at the end of the bytes where they end too early.
    Form,
}

/// Why reading stops in a part of the bytes.
#[derive(Clone, Copy, Debug, PartialEq, Eq)]
pub enum Stop {
    /// The part ends too early.
    Short,

    /// There is a fault, and so many bytes of the part are left at its place, that place among them.
    Flaw(WasmKind, usize),
}

impl From<Stop> for Failure<Stop> {
    ghost from_gives = { λ stop failure. failure ≡ Fault stop };

    fn from(stop: Stop) -> Failure<Stop> {
        Failure::Fault(stop)
    }
}
