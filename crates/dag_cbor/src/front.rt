ghost use Rattle.std.specs.Prelude.{◌≡◌, ◌++◌, ◌<◌, ◌^◌, ℕ, List, IfNone, IfSome, IsErr, Ok, length};
ghost use Rattle.dag_cbor.specs.declared.value.Value.{Value};
ghost use Rattle.dag_cbor.specs.Plain.{IsPlain};
ghost use Rattle.dag_cbor.specs.Reading.{item_at};
ghost use Rattle.dag_cbor.specs.Spelling.{head, spelled};

use crate::head::{LIST, head_of};
use crate::link::link_bytes_of;
use crate::skipping::skip_item;

/// The spelling of the value at the front, which has at most this depth, and the bytes after it. The value is judged as
/// [`decode`](crate::decode) judges it, and not made: no memory is taken. Calls nest as deep as the value, so `depth`
/// bounds the stack.
pub fn split_item(depth: u64, bytes: &[u8]) -> Option<(&[u8], &[u8])>
    // The front is the spelling of a value, which is what is read there.
    ensures found { IfSome result (λ x. (value : Value) × IsPlain depth value × (x.0.now ≡ spelled value)
        × (bytes.now ≡ x.0.now ++ x.1.now) × (item_at depth bytes.now ≡ Ok (value, x.1.now))) }
    // There is none only where no value is spelled at the front.
    ensures only { IfNone result ((value : Value) (rest : List ℕ) → IsPlain depth value
        → bytes.now ≡ spelled value ++ rest → ⊥) }
    // There is none only where reading has a fault.
    ensures fault { IfNone result (IsErr (item_at depth bytes.now)) }
{
    match skip_item(depth, bytes) {
        Ok(rest) => {
            let len = bytes.len() - rest.len();
            Some(bytes.split_at(len))
        }
        Err(_) => None,
    }
}

/// How many items the list has whose head is at the front, and the bytes after the head. These are not judged: there
/// may be fewer items.
pub fn list_head(bytes: &[u8]) -> Option<(u64, &[u8])>
    ensures found { IfSome result (λ x. bytes.now ≡ head 4 x.0 ++ x.1.now) }
    ensures only { IfNone result ((count : ℕ) (rest : List ℕ) → count < 2 ^ 64
        → bytes.now ≡ head 4 count ++ rest → ⊥) }
{
    match head_of(bytes) {
        Ok((head, rest)) => {
            if head.major == LIST {
                Some((head.number, rest))
            } else {
                None
            }
        }
        Err(_) => None,
    }
}

/// The content of the byte string at the front, and the bytes after it.
pub fn blob(bytes: &[u8]) -> Option<(&[u8], &[u8])>
    ensures found { IfSome result (λ x. bytes.now ≡ head 2 (length x.0.now) ++ (x.0.now ++ x.1.now)) }
    ensures only { IfNone result ((content rest : List ℕ) → length content < 2 ^ 64
        → bytes.now ≡ head 2 (length content) ++ (content ++ rest) → ⊥) }
{
    match link_bytes_of(0, bytes) {
        Ok(found) => Some(found),
        Err(_) => None,
    }
}
