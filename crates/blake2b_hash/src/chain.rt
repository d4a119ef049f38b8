// The state between two blocks of a message (RFC 7693, section 3.3).

ghost use Rattle.std.specs.Prelude.{◌≡◌, ℕ, ◌+◌, ◌*◌, ◌≤◌, List, [], length, take, true};
ghost use Rattle.blake2b_hash.specs.Blake.{from_block, state_after};
ghost use Rattle.blake2b_hash.specs.Chain.{IsAfter};
ghost use Rattle.blake2b_hash.specs.Compression.{compress, words_of};

use crate::compression::compress;
use crate::tables::IV;

pub(crate) const BLOCK_LEN: usize = 128;

// The parameter word for no key, without the length of the digest: fanout and depth are 1.
const PARAMETERS: u64 = 0x0101_0000;

// The state after some whole blocks, and the count of their bytes.
#[derive(Drop)]
pub(crate) struct Chain {
    state: [u64; 8],
    counter: u128,
}

impl Chain {
    // The state before the first block of a message whose digest is to have `len` bytes.
    pub(crate) fn new(len: u8) -> Chain
        ensures { (message : List ℕ) → IsAfter result len message 0 }
    {
        let mut state = IV;
        state[0] = IV[0] ^ PARAMETERS ^ len as u64;
        Chain { state, counter: 0 }
    }

    // Takes in the next block, which is not the last.
    pub(crate) fn take(&mut self, block: &[u8])
        requires { length block.now ≡ 128 }
        ensures { (len n : ℕ) (message : List ℕ) → IsAfter self.old len message n
            → block.now ≡ take 128 (from_block n message) → IsAfter self.new len message (n + 1) }
    {
        self.counter = self.counter.wrapping_add(BLOCK_LEN as u128);
        compress(&mut self.state, block, self.counter, false);
    }

    // Takes in the first `count` blocks of what follows in the message.
    pub(crate) fn take_blocks(&mut self, bytes: &[u8], count: usize)
        requires { count * 128 ≤ length bytes.now }
        ensures { (len n : ℕ) (message : List ℕ) → IsAfter self.old len message n
            → bytes.now ≡ from_block n message → IsAfter self.new len message (n + count) }
    {
        'blocks: for i in 0..count {
            let at = i * BLOCK_LEN;
            self.take(&bytes[at..at + BLOCK_LEN]);
        }
    }

    // The state after the last block, which has `used` bytes of the message.
    pub(crate) fn last(mut self, block: &[u8], used: usize) -> [u64; 8]
        requires { length block.now ≡ 128 }
        ensures { (len n : ℕ) (message : List ℕ) → IsAfter self len message n → n * 128 + used ≡ length message
            → result ≡ compress (state_after len message n) (words_of block.now) (length message) true }
    {
        let counter = self.counter.wrapping_add(used as u128);
        compress(&mut self.state, block, counter, true);
        self.state
    }
}
