ghost use Rattle.std.specs.Prelude.{IfOk};
ghost use Rattle.dag_cbor.specs.Nesting.{IsPut};

use crate::partial::Partial;
use crate::value::Value;
use fil_base::{Bytes, Mem};

/// A list or a map of which an item is being read.
#[derive(Drop)]
pub enum Frame {
    /// The items before it, and how many are wanted after it.
    List {
        done: Vec<Value>,
        wanted: u64,
    },

    /// The pairs before it, how many are wanted after it, and its key.
    Map {
        done: Vec<(Bytes, Value)>,
        wanted: u64,
        key: Bytes,
    },
}

impl Frame {
    /// The list or the map with the item put to it.
    #[inline(always)]
    pub fn put(self, value: Value) -> Mem<Partial>
        ensures { IfOk result (λ partial. IsPut partial self value) }
    {
        match self {
            Frame::List { mut done, wanted } => {
                done.push(value)?;
                Ok(Partial::List { done, wanted })
            }
            Frame::Map {
                mut done,
                wanted,
                key,
            } => {
                done.push((key, value))?;
                Ok(Partial::Map { done, wanted })
            }
        }
    }
}
