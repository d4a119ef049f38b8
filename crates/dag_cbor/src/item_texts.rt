ghost use Rattle.std.specs.Prelude.{◌≡◌, List, IfNone, IfOk, IfSome, length, map};
ghost use Rattle.std.specs.List.{AllByRecursion};
ghost use Rattle.dag_cbor.specs.declared.value.Value.{Value};
ghost use Rattle.dag_cbor.specs.declared.value.Value.TheVariants as v;
ghost use Rattle.dag_cbor.specs.Plain.{IsPlain};
ghost use Rattle.dag_cbor.specs.Spelling.{joined, spelled};

use crate::decoding::MAX_DEPTH;
use crate::front::{list_head, split_item};
use fil_base::Mem;
use std::alloc::Global;

/// The spellings of the items of the list that the bytes spell, all of them; none where they spell no list. The items are
/// judged, and not made.
pub fn items_in(alloc: Global, bytes: &[u8]) -> Mem<Option<Vec<&[u8]>>>
    // The bytes are the spelling of a list, of whose items these are the spellings.
    ensures found { IfOk result (λ found. IfSome found (λ spellings. (items : List Value) × IsPlain 128 (v.List items)
        × (bytes.now ≡ spelled (v.List items)) × (map (λ s. s.now) spellings.items ≡ map spelled items))) }
    // There are none only where no list is spelled so.
    ensures only { IfOk result (λ found. IfNone found ((items : List Value) → IsPlain 128 (v.List items)
        → bytes.now ≡ spelled (v.List items) → ⊥)) }
{
    match list_head(bytes) {
        Some((count, rest)) => whole_items(alloc, count, rest),
        None => Ok(None),
    }
}

/// The spellings of so many items that the bytes are, one after another.
fn whole_items(alloc: Global, count: u64, bytes: &[u8]) -> Mem<Option<Vec<&[u8]>>>
    ensures found { IfOk result (λ found. IfSome found (λ spellings. (items : List Value)
        × AllByRecursion (IsPlain 127) items × (length items ≡ count) × (bytes.now ≡ joined (map spelled items))
        × (map (λ s. s.now) spellings.items ≡ map spelled items))) }
    ensures only { IfOk result (λ found. IfNone found ((items : List Value) → AllByRecursion (IsPlain 127) items
        → length items ≡ count → bytes.now ≡ joined (map spelled items) → ⊥)) }
{
    let mut spellings = Vec::new(alloc);
    let mut rest = bytes;
    for _ in 0..count {
        let Some((spelling, behind)) = split_item(MAX_DEPTH - 1, rest) else {
            return Ok(None);
        };
        spellings.push(spelling)?;
        rest = behind;
    }
    if rest.is_empty() {
        Ok(Some(spellings))
    } else {
        Ok(None)
    }
}
