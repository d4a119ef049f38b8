/// Why an item is not what is asked for.
#[derive(Clone, Copy, Debug, PartialEq, Eq)]
pub enum FieldKind {
    /// The item is of another kind.
    WrongKind,

    /// The list has no such item, or there is no list of the length that is asked for.
    WrongLength,

    /// A number is not from 0 to 2^64 - 1, or an amount is ill spelled or too great.
    OutOfRange,
}

/// Which item is not what is asked for.
#[derive(Clone, Copy, Debug, PartialEq, Eq)]
pub struct FieldFault {
    /// The place that was asked for, or 0 where it is the list itself.
    pub index: u32,
    pub kind: FieldKind,
}
