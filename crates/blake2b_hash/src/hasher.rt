// A message that comes in pieces.

ghost use Rattle.std.specs.Prelude.{◌≡◌, ℕ, ◌-◌, ◌≤◌, List, [], ◌++◌, replicate};
ghost use Rattle.blake2b_hash.specs.Blake.{blake};
ghost use Rattle.blake2b_hash.specs.Hasher.{Stands};

use crate::chain::{BLOCK_LEN, Chain};
use crate::digest_len::DigestLen;
use crate::last_block::LastBlock;

/// BLAKE2b without a key (RFC 7693) of a message that comes in pieces, however it is cut.
///
/// In clauses, `Stands hasher len given` says that the hasher was begun for a digest of `len` bytes and has been given the
/// bytes `given`. It holds eight words, a counter and one block of the message.
#[derive(Drop)]
pub struct Hasher {
    len: DigestLen,
    chain: Chain,
    block: LastBlock,
}

impl Hasher {
    /// A hasher for a digest of `len` bytes, from 1 to 64, that has been given no bytes.
    pub fn new(len: u8) -> Hasher
        requires at_least_one { 1 ≤ len }
        requires at_most_64 { len ≤ 64 }
        ensures { Stands result len [] }
    {
        Hasher {
            len: DigestLen::new(len),
            chain: Chain::new(len),
            block: LastBlock::new(),
        }
    }

    /// Gives the hasher the next bytes of the message, of any number.
    pub fn update(&mut self, bytes: &[u8])
        ensures { (len : ℕ) (given : List ℕ) → Stands self.old len given → Stands self.new len (given ++ bytes.now) }
    {
        let room = self.block.room();
        if bytes.len() <= room {
            self.block.push(bytes);
            return;
        }
        self.block.push(&bytes[..room]);
        self.chain.take(self.block.as_slice());
        self.block.clear();
        let rest = &bytes[room..];
        let whole = (rest.len() - 1) / BLOCK_LEN;
        self.chain.take_blocks(rest, whole);
        self.block.push(&rest[whole * BLOCK_LEN..]);
    }

    /// The digest of all bytes given, then zeros (RFC 7693, section 3.3).
    pub fn finish(self) -> [u8; 64]
        ensures { (len : ℕ) (given : List ℕ) → Stands self len given
            → result ≡ blake len given ++ replicate (64 - len) 0 }
    {
        let Hasher { len, chain, block } = self;
        let used = block.len();
        len.digest_of(&chain.last(&block.padded(), used))
    }
}
