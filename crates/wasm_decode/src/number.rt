ghost use Rattle.std.specs.Prelude.{◌≡◌, ◌≤◌, ◌<◌, ◌-◌, ◌↔◌, ◌∷◌, IsTrue, IfOk, IfSome, IfNone, drop};
ghost use Rattle.wasm_decode.specs.Groups.{IsLed, IsOnlyLed, IsWidth, half, last_bound};
ghost use Rattle.wasm_decode.specs.ReadingValues.{byte_at, i32_at, i64_at, signed_from, u32_at};
ghost use Rattle.wasm_decode.specs.Stops.{Gives};

use crate::fault::{Stop, WasmKind};

/// One byte, and the rest.
#[inline(always)]
pub fn byte_of(bytes: &[u8]) -> Result<(u8, &[u8]), Stop>
    ensures { Gives (λ x. (x.0, x.1.now)) result (byte_at bytes.now) }
{
    match bytes.split_first() {
        None => Err(Stop::Short),
        Some((byte, rest)) => Ok((*byte, rest)),
    }
}

/// An unsigned number of 32 bits, and the rest.
#[inline(always)]
#[tactic(auto, using(crate::proofs::Numbers::one_byte_u32))]
pub fn u32_of(bytes: &[u8]) -> Result<(u32, &[u8]), Stop>
    ensures { Gives (λ x. (x.0, x.1.now)) result (u32_at bytes.now) }
{
    if let Some((byte, rest)) = bytes.split_first() {
        if *byte < 128 {
            return Ok((u32::from(*byte), rest));
        }
    }
    long_u32_of(bytes)
}

// The same in any number of bytes.
fn long_u32_of(bytes: &[u8]) -> Result<(u32, &[u8]), Stop>
    ensures { Gives (λ x. (x.0, x.1.now)) result (u32_at bytes.now) }
{
    match led_of(4, bytes) {
        None => Err(Stop::Short),
        Some((groups, byte, rest)) => {
            if byte >= last_bound_of(4 - groups.count, 16) {
                return Err(Stop::Flaw(WasmKind::Form, bytes.len()));
            }
            let number = groups.low + u64::from(byte) * groups.scale;
            Ok((number as u32, rest))
        }
    }
}

/// The bits of a signed number of 32 bits, and the rest.
#[tactic(auto, unfolding(crate::specs::ReadingValues::i32_at))]
pub fn i32_of(bytes: &[u8]) -> Result<(u32, &[u8]), Stop>
    ensures { Gives (λ x. (x.0, x.1.now)) result (i32_at bytes.now) }
{
    let (number, rest) = signed_of(4, 16, u64::from(u32::MAX), bytes)?;
    Ok((number as u32, rest))
}

/// The bits of a signed number of 64 bits, and the rest.
#[tactic(auto, unfolding(crate::specs::ReadingValues::i64_at))]
pub fn i64_of(bytes: &[u8]) -> Result<(u64, &[u8]), Stop>
    ensures { Gives (λ x. (x.0, x.1.now)) result (i64_at bytes.now) }
{
    signed_of(9, 2, u64::MAX, bytes)
}

// The bits of a signed number in at most so many bytes and one more, of which the last has bits below `top`, and the
// rest. They are at most `greatest`.
fn signed_of(most: usize, top: u8, greatest: u64, bytes: &[u8]) -> Result<(u64, &[u8]), Stop>
    requires bits { IsWidth most top greatest }
    ensures found { Gives (λ x. (x.0, x.1.now)) result (signed_from most top bytes.now bytes.now) }
    ensures within { IfOk result (λ x. x.0 ≤ greatest) }
{
    match led_of(most, bytes) {
        None => Err(Stop::Short),
        Some((groups, byte, rest)) => {
            let half = half_of(most - groups.count, top);
            if byte < half {
                Ok((groups.low + u64::from(byte) * groups.scale, rest))
            } else if has_sign(byte, half) {
                let below = u64::from(128 - byte) * groups.scale;
                Ok((greatest - below + 1 + groups.low, rest))
            } else {
                Err(Stop::Flaw(WasmKind::Form, bytes.len()))
            }
        }
    }
}

// Whether a last byte tells a sign, where those that tell none are below `half`.
fn has_sign(byte: u8, half: u8) -> bool
    ensures { IsTrue result ↔ ((byte < 128) × (128 - byte ≤ half)) }
{
    byte < 128 && 128 - byte <= half
}

// What a last byte is below that tells no sign, where so many bytes may follow it.
fn half_of(more: usize, top: u8) -> u8
    ensures { result ≡ half more top }
{
    if more == 0 { top / 2 } else { 64 }
}

// The bytes at the front that have their top bit, at most so many, the byte behind them, and the rest.
fn led_of(most: usize, bytes: &[u8]) -> Option<(Groups, u8, &[u8])>
    requires { most ≤ 9 }
    ensures found { IfSome result (λ x. IsLed most bytes.now x.0 × (drop x.0.count bytes.now ≡ x.1 ∷ x.2.now)) }
    ensures none { IfNone result (IsOnlyLed most bytes.now) }
{
    let groups = groups_of(most, bytes);
    let (_, behind) = bytes.split_at(groups.count);
    match behind.split_first() {
        None => None,
        Some((byte, rest)) => Some((groups, *byte, rest)),
    }
}

// What a byte is below where so many may follow it, and the last one is below `top`.
fn last_bound_of(more: usize, top: u8) -> u8
    ensures { result ≡ last_bound more top }
{
    if more == 0 { top } else { 128 }
}

/// The bytes at the front that have their top bit, of which a number has one more behind them.
#[derive(Clone, Copy)]
pub struct Groups {
    /// How many they are.
    pub count: usize,

    /// The number that their low bits are.
    pub low: u64,

    /// What the bits behind them count: 128 for each of them.
    pub scale: u64,
}

// The bytes at the front that have their top bit, at most so many.
fn groups_of(most: usize, bytes: &[u8]) -> Groups
    requires { most ≤ 9 }
    ensures { IsLed most bytes.now result }
{
    let mut groups = Groups {
        count: 0,
        low: 0,
        scale: 1,
    };
    while groups.count < most && groups.count < bytes.len() && bytes[groups.count] >= 128 {
        groups.low += u64::from(bytes[groups.count] - 128) * groups.scale;
        groups.scale *= 128;
        groups.count += 1;
    }
    groups
}
