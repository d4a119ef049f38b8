ghost use Rattle.std.specs.Prelude.{◌≡◌, IfOk};

use crate::failure::Mem;
use std::alloc::Global;
use std::marker::Model;

/// Bytes that contracts see as a list.
#[derive(Debug, Drop)]
pub struct Bytes {
    inner: Vec<u8>,
}

impl Model for Bytes {
    ghost use Rattle.std.specs.Prelude.{List, ℕ};

    ghost Value = { List ℕ };

    ghost view = { λ bytes. bytes.inner.items };
}

impl Bytes {
    /// These bytes. It takes no memory.
    pub fn of(bytes: Vec<u8>) -> Bytes
        ensures { result ≡ bytes.items }
    {
        Bytes { inner: bytes }
    }

    /// A copy of these bytes.
    pub fn copy_of(alloc: Global, bytes: &[u8]) -> Mem<Bytes>
        ensures { IfOk result (λ copy. copy ≡ bytes.now) }
    {
        let copy = Vec::from_slice(alloc, bytes)?;
        Ok(Bytes { inner: copy })
    }

    pub fn as_slice(&self) -> &[u8]
        ensures { result.now ≡ self.now }
    {
        self.inner.as_slice()
    }

    /// The vector that [`Bytes::of`] was given. It takes no memory.
    pub fn into_vec(self) -> Vec<u8>
        ensures { result.items ≡ self }
    {
        let Bytes { inner } = self;
        inner
    }
}
