// The compression function of RFC 7693, section 3.

ghost use Rattle.std.specs.Prelude.{◌≡◌, ◌+◌, ◌<◌, ◌≤◌, length};
ghost use Rattle.blake2b_hash.specs.Compression.{compress, mix, round, rounds, scheduled, word_at, words_of, flag_word, working_vector, folded};

use crate::tables::{IV, SIGMA};

// The mixing function G: mixes `x` and `y` into four places of the working vector.
#[inline(always)]
#[tactic(auto, unfolding(crate::specs::Compression::mix))]
fn mix(v: &mut [u64; 16], a: usize, b: usize, c: usize, d: usize, x: u64, y: u64)
    requires a { a < 16 }
    requires b { b < 16 }
    requires c { c < 16 }
    requires d { d < 16 }
    ensures { v.new ≡ mix v.old a b c d x y }
{
    let a1 = v[a].wrapping_add(v[b]).wrapping_add(x);
    let d1 = (v[d] ^ a1).rotate_right(32);
    let c1 = v[c].wrapping_add(d1);
    let b1 = (v[b] ^ c1).rotate_right(24);
    let a2 = a1.wrapping_add(b1).wrapping_add(y);
    let d2 = (d1 ^ a2).rotate_right(16);
    let c2 = c1.wrapping_add(d2);
    let b2 = (b1 ^ c2).rotate_right(63);
    v[a] = a2;
    v[b] = b2;
    v[c] = c2;
    v[d] = d2;
}

// The message word at place `k` of round `i`'s schedule.
#[inline(always)]
fn scheduled(m: &[u64; 16], i: usize, k: usize) -> u64
    requires { k < 16 }
    ensures { result ≡ scheduled m.now i k }
{
    m[SIGMA[i % 10][k]]
}

// Round `i`: the columns, then the diagonals.
#[inline(always)]
#[tactic(auto, unfolding(crate::specs::Compression::round))]
fn round(v: &mut [u64; 16], m: &[u64; 16], i: usize)
    ensures { v.new ≡ round v.old m.now i }
{
    mix(v, 0, 4, 8, 12, scheduled(m, i, 0), scheduled(m, i, 1));
    mix(v, 1, 5, 9, 13, scheduled(m, i, 2), scheduled(m, i, 3));
    mix(v, 2, 6, 10, 14, scheduled(m, i, 4), scheduled(m, i, 5));
    mix(v, 3, 7, 11, 15, scheduled(m, i, 6), scheduled(m, i, 7));
    mix(v, 0, 5, 10, 15, scheduled(m, i, 8), scheduled(m, i, 9));
    mix(v, 1, 6, 11, 12, scheduled(m, i, 10), scheduled(m, i, 11));
    mix(v, 2, 7, 8, 13, scheduled(m, i, 12), scheduled(m, i, 13));
    mix(v, 3, 4, 9, 14, scheduled(m, i, 14), scheduled(m, i, 15));
}

// The twelve rounds, written out so that each place in the schedule is a constant.
#[inline(always)]
#[tactic(auto, unfolding(crate::specs::Compression::rounds))]
fn rounds(v: &mut [u64; 16], m: &[u64; 16])
    ensures { v.new ≡ rounds v.old m.now 12 }
{
    round(v, m, 0);
    round(v, m, 1);
    round(v, m, 2);
    round(v, m, 3);
    round(v, m, 4);
    round(v, m, 5);
    round(v, m, 6);
    round(v, m, 7);
    round(v, m, 8);
    round(v, m, 9);
    round(v, m, 10);
    round(v, m, 11);
}

// The word at place `i` of a block, lowest byte first.
#[inline(always)]
fn word_at(block: &[u8], i: usize) -> u64
    requires { i + 8 ≤ length block.now }
    ensures { result ≡ word_at block.now i }
{
    u64::from_le_bytes([
        block[i],
        block[i + 1],
        block[i + 2],
        block[i + 3],
        block[i + 4],
        block[i + 5],
        block[i + 6],
        block[i + 7],
    ])
}

#[inline(always)]
#[tactic(auto, unfolding(crate::specs::Compression::words_of))]
fn words_of(block: &[u8]) -> [u64; 16]
    requires { length block.now ≡ 128 }
    ensures { result ≡ words_of block.now }
{
    [
        word_at(block, 0),
        word_at(block, 8),
        word_at(block, 16),
        word_at(block, 24),
        word_at(block, 32),
        word_at(block, 40),
        word_at(block, 48),
        word_at(block, 56),
        word_at(block, 64),
        word_at(block, 72),
        word_at(block, 80),
        word_at(block, 88),
        word_at(block, 96),
        word_at(block, 104),
        word_at(block, 112),
        word_at(block, 120),
    ]
}

// What the final block flag adds to a word of the working vector.
#[inline(always)]
fn flag_word(last: bool) -> u64
    ensures { result ≡ flag_word last }
{
    if last { u64::MAX } else { 0 }
}

// The working vector before the rounds.
#[inline(always)]
fn working_vector(h: &[u64; 8], t: u128, last: bool) -> [u64; 16]
    ensures { result ≡ working_vector h.now t last }
{
    let low = (t % (1 << 64)) as u64;
    let high = (t >> 64) as u64;
    [
        h[0],
        h[1],
        h[2],
        h[3],
        h[4],
        h[5],
        h[6],
        h[7],
        IV[0],
        IV[1],
        IV[2],
        IV[3],
        IV[4] ^ low,
        IV[5] ^ high,
        IV[6] ^ flag_word(last),
        IV[7],
    ]
}

#[inline(always)]
fn folded(h: &[u64; 8], v: &[u64; 16], i: usize) -> u64
    requires { i < 8 }
    ensures { result ≡ folded h.now v.now i }
{
    h[i] ^ v[i] ^ v[i + 8]
}

// The compression function F: takes `block` into the state `h`, at the offset `t`.
#[tactic(auto, unfolding(crate::specs::Compression::compress))]
pub(crate) fn compress(h: &mut [u64; 8], block: &[u8], t: u128, last: bool)
    requires { length block.now ≡ 128 }
    ensures { h.new ≡ compress h.old (words_of block.now) t last }
{
    let m = words_of(block);
    let mut v = working_vector(h, t, last);
    rounds(&mut v, &m);
    *h = [
        folded(h, &v, 0),
        folded(h, &v, 1),
        folded(h, &v, 2),
        folded(h, &v, 3),
        folded(h, &v, 4),
        folded(h, &v, 5),
        folded(h, &v, 6),
        folded(h, &v, 7),
    ];
}
