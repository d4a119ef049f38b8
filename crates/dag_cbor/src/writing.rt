ghost use Rattle.std.specs.Prelude.{◌≡◌, ◌<◌, ◌+◌, ◌∷◌, ◌++◌, length, IfOk, OnOk};
ghost use Rattle.fil_base.specs.CidBytes.{cid_bytes};
ghost use Rattle.dag_cbor.specs.declared.value.Value.TheOpen as layer;
ghost use Rattle.dag_cbor.specs.Plain.{IsPlain, IsPlainLayer};
ghost use Rattle.dag_cbor.specs.Spelling.{head, spelled_layer};

use crate::head::{BYTES, NATURAL, NEGATIVE, SIMPLE, TAG};
use crate::rows::LINK;
use crate::usual_link::{is_usual, put_usual_link};
use fil_base::{Cid, Mem, write_cid};

/// Writes the head of an item behind the bytes that are there: its major type, and its number in as few bytes as hold
/// it. The head of a list is major type 4 with the count of its items, that of a map 5 with the count of its pairs.
#[tactic(auto, unfolding(crate::specs::Spelling::head))]
pub fn put_head(out: &mut Vec<u8>, major: u8, number: u64) -> Mem<()>
    requires { major < 8 }
    ensures { IfOk result (λ _. out.new.items ≡ out.old.items ++ head major number) }
{
    let first = 32 * major;
    if number < 24 {
        out.push(first + number as u8)?;
    } else if number < 1 << 8 {
        out.extend_from_slice(&[first + 24, number as u8])?;
    } else if number < 1 << 16 {
        out.push(first + 25)?;
        out.extend_from_slice(&(number as u16).to_be_bytes())?;
    } else if number < 1 << 32 {
        out.push(first + 26)?;
        out.extend_from_slice(&(number as u32).to_be_bytes())?;
    } else {
        out.push(first + 27)?;
        out.extend_from_slice(&number.to_be_bytes())?;
    }
    Ok(())
}

/// Writes an integer.
pub fn put_integer(out: &mut Vec<u8>, integer: &i128) -> Mem<()>
    requires { IsPlainLayer (IsPlain 0) (layer.Int integer.now) }
    ensures { IfOk result (λ _. out.new.items ≡ out.old.items ++ spelled_layer (layer.Int integer.now)) }
{
    let integer = *integer;
    if integer < 0 {
        put_head(out, NEGATIVE, (-1 - integer) as u64)
    } else {
        put_head(out, NATURAL, integer as u64)
    }
}

/// Writes a byte string (major type 2) or a text (3), which is the head with its length and then these bytes. Whether
/// the bytes of a text are UTF-8 is for the caller to know.
pub fn put_string(out: &mut Vec<u8>, major: u8, bytes: &[u8]) -> Mem<()>
    requires { major < 8 }
    ensures { IfOk result (λ _. out.new.items ≡ out.old.items ++ (head major (length bytes.now) ++ bytes.now)) }
{
    put_head(out, major, bytes.len() as u64)?;
    out.extend_from_slice(bytes)?;
    Ok(())
}

/// Writes a truth value.
pub fn put_bool(out: &mut Vec<u8>, truth: bool) -> Mem<()>
    ensures { IfOk result (λ _. out.new.items ≡ out.old.items ++ spelled_layer (layer.Bool truth)) }
{
    put_head(out, SIMPLE, if truth { 21 } else { 20 })
}

/// Writes a link: the tag 42, and a byte string of 00 and the CID.
pub fn put_link(out: &mut Vec<u8>, cid: &Cid) -> Mem<()>
    ensures { IfOk result (λ _. out.new.items ≡ out.old.items ++ spelled_layer (layer.Link cid.now)) }
{
    if is_usual(cid) {
        put_usual_link(out, cid.codec() as u8, cid.digest())
    } else {
        put_any_link(out, cid)
    }
}

/// Writes a link of any CID.
fn put_any_link(out: &mut Vec<u8>, cid: &Cid) -> Mem<()>
    ensures { IfOk result (λ _. out.new.items ≡ out.old.items ++ spelled_layer (layer.Link cid.now)) }
{
    let len = link_len(out, cid)?;
    put_head(out, TAG, LINK)?;
    put_head(out, BYTES, len)?;
    put_link_bytes(out, cid)
}

/// The length of a link's byte string. It is written behind the bytes that are there, and taken back.
fn link_len(out: &mut Vec<u8>, cid: &Cid) -> Mem<u64>
    ensures len { IfOk result (λ len. len ≡ length (cid_bytes cid.now) + 1) }
    ensures unchanged { OnOk result (out.new.items ≡ out.old.items) }
{
    let before = out.len();
    put_link_bytes(out, cid)?;
    let len = out.len() - before;
    out.truncate(before);
    Ok(len as u64)
}

/// Writes a link's byte string without its length: 00 and the CID.
fn put_link_bytes(out: &mut Vec<u8>, cid: &Cid) -> Mem<()>
    ensures { IfOk result (λ _. out.new.items ≡ out.old.items ++ (0 ∷ cid_bytes cid.now)) }
{
    out.push(0)?;
    write_cid(out, cid)
}
