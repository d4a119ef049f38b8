ghost use Rattle.std.specs.Prelude.{◌≡◌, IfSome, Ok};
ghost use Rattle.dag_cbor.specs.Behind.{behind};
ghost use Rattle.dag_cbor.specs.Reading.{item_at};

/// The first byte of the byte string of no bytes. That of one of fewer than 24 bytes is as many above it.
const NO_BYTES: u8 = 0x40;

/// The spelling of null.
const NULL: u8 = 0xf6;

/// The bytes behind the item at the front, which nests at most so deep, where it is a natural number below 24, null, or a
/// byte string of fewer than 24 bytes.
#[inline(always)]
pub fn behind_short_item(depth: u64, bytes: &[u8]) -> Option<&[u8]>
    ensures { IfSome result (λ rest. behind (item_at depth bytes.now) ≡ Ok rest.now) }
{
    let (first, rest) = bytes.split_first()?;
    if depth == 0 {
        return None;
    }
    if *first < 24 {
        return Some(rest);
    }
    if *first == NULL {
        return Some(rest);
    }
    if *first < NO_BYTES {
        return None;
    }
    let len = usize::from(*first - NO_BYTES);
    if len >= 24 {
        return None;
    }
    if rest.len() < len {
        return None;
    }
    let (_, behind) = rest.split_at(len);
    Some(behind)
}
