use fil_base::{Bytes, Cid};
use sqlite_items::Items;

/// A value of DAG-CBOR. Lists and maps are `Items`, the kit's list of a type that leads back to itself.
#[derive(Debug, Drop)]
pub enum Value {
    Null,
    Bool(bool),

    /// An integer from -2^64 to 2^64 - 1.
    Int(i128),

    /// A byte string.
    Blob(Bytes),

    /// A text, in UTF-8.
    Text(Bytes),

    /// A list.
    List(Items<Value>),

    /// A map: its pairs by rising keys, shorter keys first and keys of one length by their bytes.
    Map(Items<(Bytes, Value)>),

    /// A link to a block.
    Link(Cid),
}
