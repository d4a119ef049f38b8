// The bytes of a message after the last block that was taken in.

ghost use Rattle.std.specs.Prelude.{◌≡◌, ℕ, ◌+◌, ◌≤◌, List, [], ◌++◌, length, take};
ghost use Rattle.blake2b_hash.specs.Blake.{padded};

use crate::chain::BLOCK_LEN;
use std::marker::Model;

// At most one block, whose bytes a contract sees as a list.
#[derive(Drop)]
pub(crate) struct LastBlock {
    bytes: [u8; 128],
    used: usize,
}

impl Model for LastBlock {
    ghost Value = { List ℕ };

    ghost view = { λ block. take block.used block.bytes };

    ghost invariant = { λ block. block.used ≤ 128 };
}

impl LastBlock {
    pub(crate) fn new() -> LastBlock
        ensures { result ≡ [] }
    {
        LastBlock {
            bytes: [0; 128],
            used: 0,
        }
    }

    pub(crate) fn len(&self) -> usize
        ensures exact { result ≡ length self.now }
        ensures in_block { result ≤ 128 }
    {
        self.used
    }

    // How many bytes still fit.
    pub(crate) fn room(&self) -> usize
        ensures { result + length self.now ≡ 128 }
    {
        BLOCK_LEN - self.used
    }

    pub(crate) fn as_slice(&self) -> &[u8]
        ensures { result.now ≡ self.now }
    {
        &self.bytes[..self.used]
    }

    pub(crate) fn push(&mut self, more: &[u8])
        requires { length self.old + length more.now ≤ 128 }
        ensures { self.new ≡ self.old ++ more.now }
    {
        let end = self.used + more.len();
        self.bytes[self.used..end].copy_from_slice(more);
        self.used = end;
    }

    pub(crate) fn clear(&mut self)
        ensures { self.new ≡ [] }
    {
        self.used = 0;
    }

    // The block with the zeros that fill it up.
    pub(crate) fn padded(self) -> [u8; 128]
        ensures { result ≡ padded self }
    {
        let mut bytes = self.bytes;
        bytes[self.used..].fill(0);
        bytes
    }
}
