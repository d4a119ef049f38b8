ghost use Rattle.std.specs.Prelude.{◌≡◌};
ghost use Rattle.fil_base.specs.declared.failure.Failure.TheVariants.{Fault};

use fil_base::Failure;

/// Why bytes spell no value, and at which of them.
#[derive(Clone, Copy, Debug, PartialEq, Eq)]
pub struct CborFault {
    pub kind: CborKind,
    pub at: u64,
}

/// The kinds of faults, in the order in which they are judged at one byte.
#[derive(Clone, Copy, Debug, PartialEq, Eq)]
pub enum CborKind {
    /// The bytes end inside an item. It stands at their end.
    Cut,

    /// A number is in more bytes than it needs. It stands at the head, as all up to `Tag`.
    LongHead,

    /// The low bits of a head are 28 to 30, or 31 in an integer or a tag.
    Reserved,

    /// A length is indefinite.
    Indefinite,

    /// A floating-point number.
    Float,

    /// A simple value other than false, true and null, or one in two bytes.
    Simple,

    /// A tag other than 42.
    Tag,

    /// Behind tag 42 there is no byte string of 00 and a CID. It stands at the tag.
    LinkForm,

    /// A text is not UTF-8. It stands at the text's head.
    Utf8,

    /// A key is no text. It stands at the key's head, as the next two.
    KeyKind,

    /// A key belongs before the one before it.
    KeyOrder,

    /// A key is equal to the one before it.
    KeyRepeat,

    /// An item is nested 129 deep. It stands at the item's head.
    Depth,

    /// Bytes follow the item. It stands at the first of them.
    Trailing,
}

/// A fault as reading meets it: how many bytes are left at its place, that place among them.
#[derive(Clone, Copy, Debug, PartialEq, Eq)]
pub struct Flaw {
    pub kind: CborKind,
    pub left: u64,
}

impl From<Flaw> for Failure<Flaw> {
    ghost from_gives = { λ flaw failure. failure ≡ Fault flaw };

    fn from(flaw: Flaw) -> Failure<Flaw> {
        Failure::Fault(flaw)
    }
}
