ghost use Rattle.std.specs.Prelude.{◌≡◌, ◌↔◌, [], ◌∷◌, ℕ, List, pos, IfErr, IfNone, IfOk, IfSome, IsTrue, OnOk};
ghost use Rattle.std.specs.Bool.{OnFalse, OnTrue};
ghost use Rattle.std.specs.List.{IsAmong};
ghost use Rattle.fil_base.specs.CidParts.{CidParts, IsCid};
ghost use Rattle.fil_base.specs.Failure.{IfFault};
ghost use Rattle.fil_base.specs.declared.failure.Failure.TheVariants.{Fault};
ghost use Rattle.dag_cbor.specs.Spelling.{spelled};
ghost use Rattle.dag_cbor.specs.declared.value.Value.{Value};
ghost use Rattle.dag_cbor.specs.declared.value.Value.TheVariants as v;
ghost use Rattle.car_file.specs.Car.{header_of, roots};
ghost use Rattle.car_file.specs.CarFault.{IsHeaderFault, IsMap, IsOtherKey, IsVersion1, Pairs};
ghost use Rattle.car_file.specs.declared.fault.CarKind.TheVariants.{Header};

use crate::fault::CarKind;
use dag_cbor::{Value, decode};
use fil_base::{Bytes, Cid, Failure};
use sqlite_items::Items;
use std::alloc::Global;

// The keys of a header.
pub const ROOTS: &[u8] = b"roots";

pub const VERSION: &[u8] = b"version";

impl From<CarKind> for Failure<CarKind> {
    ghost from_gives = { λ kind failure. failure ≡ Fault kind };

    fn from(kind: CarKind) -> Failure<CarKind> {
        Failure::Fault(kind)
    }
}

/// The root that the bytes of a header name.
pub fn root_of(alloc: Global, content: &[u8]) -> Result<Cid, Failure<CarKind>>
    ensures found { IfOk result (λ root. IsCid root × (content.now ≡ spelled (header_of root))) }
    ensures fault { IfErr result (λ failure. IfFault failure (IsHeaderFault content.now)) }
{
    let pairs = pairs_of(alloc, content)?;
    judge_pairs(pairs.as_slice())?;
    let Some(root) = root_in(pairs.as_slice()) else {
        return Err(Failure::Fault(CarKind::Roots));
    };
    let root = root.copy(alloc)?;
    Ok(root)
}

// The pairs of the map that the bytes spell.
fn pairs_of(alloc: Global, content: &[u8]) -> Result<Items<(Bytes, Value)>, Failure<CarKind>>
    ensures found { IfOk result (IsMap content.now) }
    ensures kind { IfErr result (λ failure. IfFault failure (λ kind. kind ≡ Header)) }
    ensures fault { IfErr result (λ failure. IfFault failure (λ _. (pairs : Pairs) → IsMap content.now pairs → ⊥)) }
{
    match decode(alloc, content) {
        Ok(value) => map_of(value).ok_or(Failure::Fault(CarKind::Header)),
        Err(Failure::NoMemory) => Err(Failure::NoMemory),
        Err(Failure::Fault(_)) => Err(Failure::Fault(CarKind::Header)),
    }
}

fn map_of(value: Value) -> Option<Items<(Bytes, Value)>>
    ensures found { IfSome result (λ pairs. value ≡ v.Map pairs) }
    ensures none { IfNone result ((pairs : Pairs) → value ≡ v.Map pairs → ⊥) }
{
    match value {
        Value::Map(pairs) => Some(pairs),
        _ => None,
    }
}

// Judges the version, and then the keys.
fn judge_pairs(pairs: &[(Bytes, Value)]) -> Result<(), CarKind>
    ensures version { OnOk result (IsVersion1 pairs.now) }
    ensures keys { OnOk result ((key : List ℕ) (item : Value) → IsAmong pairs.now (key, item) → IsOtherKey key → ⊥) }
    ensures fault { IfErr result (λ kind. (content : List ℕ) → IsMap content pairs.now → IsHeaderFault content kind) }
{
    let Some(number) = item_under(pairs, VERSION) else {
        return Err(CarKind::Header);
    };
    if !is_one(number) {
        return Err(CarKind::Version);
    }
    if has_other_key(pairs) {
        return Err(CarKind::Header);
    }
    Ok(())
}

fn is_one(value: &Value) -> bool
    ensures { IsTrue result ↔ (value.now ≡ v.Int (pos 1)) }
{
    match value {
        Value::Int(number) => *number == 1,
        _ => false,
    }
}

fn has_other_key(pairs: &[(Bytes, Value)]) -> bool
    ensures some { OnTrue result ((key : List ℕ) × (item : Value) × IsAmong pairs.now (key, item) × IsOtherKey key) }
    ensures none { OnFalse result ((key : List ℕ) (item : Value) → IsAmong pairs.now (key, item) → IsOtherKey key → ⊥) }
{
    for (key, _) in pairs {
        if is_other_key(key.as_slice()) {
            return true;
        }
    }
    false
}

fn is_other_key(key: &[u8]) -> bool
    ensures { IsTrue result ↔ IsOtherKey key.now }
{
    key != ROOTS && key != VERSION
}

// The link under `roots`, the only one there.
fn root_in(pairs: &[(Bytes, Value)]) -> Option<&Cid>
    ensures found { IfSome result (λ root. IsAmong pairs.now (roots, v.List (v.Link root.now ∷ []))) }
    ensures none { IfNone result ((content : List ℕ) (root : CidParts) → IsMap content pairs.now
        → IsAmong pairs.now (roots, v.List (v.Link root ∷ [])) → ⊥) }
{
    let list = item_under(pairs, ROOTS)?;
    only_link(list)
}

// The link in a list of just one.
fn only_link(value: &Value) -> Option<&Cid>
    ensures found { IfSome result (λ root. value.now ≡ v.List (v.Link root.now ∷ [])) }
    ensures none { IfNone result ((root : CidParts) → value.now ≡ v.List (v.Link root ∷ []) → ⊥) }
{
    let Value::List(items) = value else {
        return None;
    };
    match items.as_slice() {
        [Value::Link(root)] => Some(root),
        _ => None,
    }
}

// The first item under the key.
fn item_under<'a>(pairs: &'a [(Bytes, Value)], key: &[u8]) -> Option<&'a Value>
    ensures found { IfSome result (λ item. IsAmong pairs.now (key.now, item.now)) }
    ensures none { IfNone result ((item : Value) → IsAmong pairs.now (key.now, item) → ⊥) }
{
    for (name, item) in pairs {
        if name.as_slice() == key {
            return Some(item);
        }
    }
    None
}

#[cfg(test)]
mod tests {
    use super::*;
    use std::test::Fail;

    #[test]
    fn a_header_names_its_root(rt: HostRuntime) -> Result<(), Fail> {
        let content = b"\xa2\x65roots\x81\xd8\x2a\x45\x00\x01\x55\x00\x00\x67version\x01";
        let root = root_of(rt.alloc(), content)?;
        assert_eq!(rt; root.version(), 1);
        assert_eq!(rt; root.codec(), 0x55);
        Ok(())
    }

    #[test]
    fn other_bytes_have_a_fault(rt: HostRuntime) {
        let rows: [(&[u8], CarKind); 7] = [
            (b"\xa2\x65roots", CarKind::Header),
            (b"\x81\x01", CarKind::Header),
            (b"\xa1\x65roots\x80", CarKind::Header),
            (b"\xa2\x61a\x00\x67version\x01", CarKind::Header),
            (b"\xa2\x61a\x00\x67version\x02", CarKind::Version),
            (b"\xa2\x65roots\x80\x67version\x01", CarKind::Roots),
            (b"\xa1\x67version\x01", CarKind::Roots),
        ];
        for (content, kind) in rows {
            let fault = root_of(rt.alloc(), content).err();
            assert_eq!(rt; fault, Some(Failure::Fault(kind)));
        }
    }
}
