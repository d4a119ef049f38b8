ghost use Rattle.std.specs.Prelude.{◌≡◌};
ghost use Rattle.dag_cbor.specs.HeadRows.{least, shows, head_fault};

use crate::fault::CborKind;
use crate::head::{RawHead, SIMPLE, TAG};

/// The tag of links.
pub const LINK: u64 = 42;

/// The fault of a head by itself that is judged first.
#[inline(always)]
#[tactic(auto, unfolding(crate::specs::HeadRows::head_fault))]
pub fn head_fault(head: RawHead) -> Option<CborKind>
    ensures { result ≡ head_fault head }
{
    if is_long(head) {
        return Some(CborKind::LongHead);
    }
    if is_reserved(head) {
        return Some(CborKind::Reserved);
    }
    if is_indefinite(head) {
        return Some(CborKind::Indefinite);
    }
    if is_float(head) {
        return Some(CborKind::Float);
    }
    if is_other_simple(head) {
        return Some(CborKind::Simple);
    }
    if is_other_tag(head) {
        return Some(CborKind::Tag);
    }
    None
}

/// The least number that needs as many bytes as these low bits say.
#[inline(always)]
fn least(info: u8) -> u64
    ensures { result ≡ least info }
{
    match info {
        24 => 24,
        25 => 1 << 8,
        26 => 1 << 16,
        27 => 1 << 32,
        _ => 0,
    }
}

#[inline(always)]
#[tactic(auto, unfolding(crate::specs::HeadRows::shows))]
fn is_long(head: RawHead) -> bool
    ensures { result ≡ shows head CborKind.LongHead }
{
    head.major < SIMPLE && head.number < least(head.info)
}

#[inline(always)]
#[tactic(auto, unfolding(crate::specs::HeadRows::shows))]
fn is_reserved(head: RawHead) -> bool
    ensures { result ≡ shows head CborKind.Reserved }
{
    (head.info > 27 && head.info < 31) || (head.info == 31 && (head.major < 2 || head.major == TAG))
}

#[inline(always)]
#[tactic(auto, unfolding(crate::specs::HeadRows::shows))]
fn is_indefinite(head: RawHead) -> bool
    ensures { result ≡ shows head CborKind.Indefinite }
{
    head.info == 31 && head.major > 1 && head.major != TAG
}

#[inline(always)]
#[tactic(auto, unfolding(crate::specs::HeadRows::shows))]
fn is_float(head: RawHead) -> bool
    ensures { result ≡ shows head CborKind.Float }
{
    head.major == SIMPLE && head.info > 24 && head.info < 28
}

#[inline(always)]
#[tactic(auto, unfolding(crate::specs::HeadRows::shows))]
fn is_other_simple(head: RawHead) -> bool
    ensures { result ≡ shows head CborKind.Simple }
{
    head.major == SIMPLE && (head.info < 20 || (head.info > 22 && head.info < 25))
}

#[inline(always)]
#[tactic(auto, unfolding(crate::specs::HeadRows::shows))]
fn is_other_tag(head: RawHead) -> bool
    ensures { result ≡ shows head CborKind.Tag }
{
    head.major == TAG && head.number != LINK
}
