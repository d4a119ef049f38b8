ghost use Rattle.std.specs.Prelude.{◌≡◌, ◌==◌, ◌<◌, IfOk};
ghost use Rattle.dag_cbor.specs.Nesting.{wanted_of, whole_of, begun, IsNewList, IsNewMap};
ghost use Rattle.dag_cbor.specs.Reading.{GivesOrNoMemory};

use crate::fault::Flaw;
use crate::frame::Frame;
use crate::key::key_of;
use crate::text::owned;
use crate::value::Value;
use fil_base::{Bytes, Failure, Mem};
use sqlite_items::Items;
use std::alloc::Global;

/// The most items that a list or map has room for before any is read, so that a claimed count takes no memory.
const MOST_ROOM: u64 = 16;

/// A list or a map that is being read, before its next item or pair.
#[derive(Drop)]
pub enum Partial {
    /// The items that were read, and how many are still wanted.
    List {
        done: Vec<Value>,
        wanted: u64,
    },

    /// The pairs that were read, and how many are still wanted.
    Map {
        done: Vec<(Bytes, Value)>,
        wanted: u64,
    },
}

impl Partial {
    /// A list of so many items, of which none is read.
    #[inline(always)]
    pub fn list(alloc: Global, count: u64) -> Mem<Partial>
        ensures { IfOk result (λ partial. IsNewList partial count) }
    {
        let room = count.min(MOST_ROOM);
        Ok(Partial::List {
            done: Vec::with_capacity(alloc, room as usize)?,
            wanted: count,
        })
    }

    /// A map of so many pairs, of which none is read.
    #[inline(always)]
    pub fn map(alloc: Global, count: u64) -> Mem<Partial>
        ensures { IfOk result (λ partial. IsNewMap partial count) }
    {
        let room = count.min(MOST_ROOM);
        Ok(Partial::Map {
            done: Vec::with_capacity(alloc, room as usize)?,
            wanted: count,
        })
    }

    /// Whether nothing more is wanted.
    #[inline(always)]
    pub fn is_full(&self) -> bool
        ensures { result ≡ (wanted_of self.now == 0) }
    {
        match self {
            Partial::List { wanted, .. } => *wanted == 0,
            Partial::Map { wanted, .. } => *wanted == 0,
        }
    }

    /// The list or the map of what was read.
    #[inline(always)]
    pub fn into_value(self) -> Value
        ensures { result ≡ whole_of self }
    {
        match self {
            Partial::List { done, .. } => Value::List(Items::from_vec(done)),
            Partial::Map { done, .. } => Value::Map(Items::from_vec(done)),
        }
    }

    /// What waits for the next item, and the bytes at which the item begins: a map takes its key from the front.
    #[inline(always)]
    pub fn begin(
        self,
        alloc: Global,
        room: u64,
        bytes: &[u8],
    ) -> Result<(Frame, &[u8]), Failure<Flaw>>
        requires { 0 < wanted_of self }
        ensures { GivesOrNoMemory (λ x. (x.0, x.1.now)) result (begun room self bytes.now) }
    {
        match self {
            Partial::List { done, wanted } => {
                let wanted = wanted - 1;
                Ok((Frame::List { done, wanted }, bytes))
            }
            Partial::Map { done, wanted } => {
                let (key, rest) = key_of(room, done.as_slice(), bytes)?;
                let key = owned(alloc, key)?;
                let wanted = wanted - 1;
                Ok((Frame::Map { done, wanted, key }, rest))
            }
        }
    }
}
