use super::*;
use fil_base::{Bytes, Cid, Mem};
use sqlite_items::Items;
use std::alloc::Global;
use std::process::Abort;
use std::test::Fail;

fn copied(alloc: Global, bytes: &[u8]) -> Mem<Bytes> {
    Ok(Bytes::of(Vec::from_slice(alloc, bytes)?))
}

fn text(alloc: Global, text: &str) -> Mem<Value> {
    Ok(Value::Text(copied(alloc, text.as_bytes())?))
}

fn pair(alloc: Global, first: Value, second: Value) -> Mem<Value> {
    let mut items = Vec::new(alloc);
    items.push(first)?;
    items.push(second)?;
    Ok(Value::List(Items::from_vec(items)))
}

/// A map of two keys to 1 and 2.
fn keyed(alloc: Global, first: &[u8], second: &[u8]) -> Mem<Value> {
    let mut pairs = Vec::new(alloc);
    pairs.push((copied(alloc, first)?, Value::Int(1)))?;
    pairs.push((copied(alloc, second)?, Value::Int(2)))?;
    Ok(Value::Map(Items::from_vec(pairs)))
}

/// Lists inside one another, so many of them, the innermost empty.
fn nested(alloc: Global, depth: u64) -> Mem<Value> {
    let mut value = Value::List(Items::new(alloc));
    for _ in 1..depth {
        let mut items = Vec::new(alloc);
        items.push(value)?;
        value = Value::List(Items::from_vec(items));
    }
    Ok(value)
}

/// A link of this codec, under the hash that is no hash, of these bytes.
fn link(alloc: Global, codec: u64, bytes: &[u8]) -> Result<Value, Fail> {
    let cid = Cid::new(1, codec, 0, copied(alloc, bytes)?);
    Ok(Value::Link(cid.ok_or("these parts are a CID")?))
}

fn judge_spelling(rt: &impl Abort, alloc: Global, value: Value, wanted: &[u8]) -> Mem<()> {
    assert!(rt; is_plain(&value), "{value:?} has a spelling");
    let bytes = encode(alloc, &value)?;
    assert_eq!(rt; bytes.as_slice(), wanted);
    Ok(())
}

#[test]
fn integers_are_written_in_the_shortest_heads(rt: HostRuntime) -> Result<(), Fail> {
    let rows: [(i128, &[u8]); 8] = [
        (0, &[0x00]),
        (23, &[0x17]),
        (24, &[0x18, 0x18]),
        (0x100, &[0x19, 0x01, 0x00]),
        (0x1_0000, &[0x1a, 0x00, 0x01, 0x00, 0x00]),
        (
            0x1_0000_0000,
            &[0x1b, 0x00, 0x00, 0x00, 0x01, 0x00, 0x00, 0x00, 0x00],
        ),
        (-1, &[0x20]),
        (
            -0x1_0000_0000_0000_0000,
            &[0x3b, 0xff, 0xff, 0xff, 0xff, 0xff, 0xff, 0xff, 0xff],
        ),
    ];
    for (integer, wanted) in rows {
        judge_spelling(&rt, rt.alloc(), Value::Int(integer), wanted)?;
    }
    Ok(())
}

#[test]
fn other_values_are_written(rt: HostRuntime) -> Result<(), Fail> {
    let alloc = rt.alloc();
    judge_spelling(&rt, alloc, Value::Null, &[0xf6])?;
    judge_spelling(&rt, alloc, Value::Bool(false), &[0xf4])?;
    judge_spelling(&rt, alloc, Value::Bool(true), &[0xf5])?;
    let blob = Value::Blob(copied(alloc, &[1, 2, 3])?);
    judge_spelling(&rt, alloc, blob, &[0x43, 1, 2, 3])?;
    judge_spelling(&rt, alloc, text(alloc, "é")?, &[0x62, 0xc3, 0xa9])?;
    let list = pair(alloc, Value::Int(5), nested(alloc, 1)?)?;
    judge_spelling(&rt, alloc, list, &[0x82, 0x05, 0x80])?;
    let map = keyed(alloc, b"b", b"aa")?;
    judge_spelling(&rt, alloc, map, b"\xa2\x61b\x01\x62aa\x02")?;
    Ok(())
}

#[test]
fn values_without_a_spelling_are_told(rt: HostRuntime) -> Result<(), Fail> {
    let alloc = rt.alloc();
    assert!(rt; !is_plain(&Value::Int(1 << 64)));
    assert!(rt; !is_plain(&Value::Int(-1 - (1 << 64))));
    assert!(rt; !is_plain(&Value::Text(copied(alloc, &[0xff])?)));
    assert!(rt; !is_plain(&keyed(alloc, b"aa", b"b")?));
    assert!(rt; !is_plain(&keyed(alloc, b"a", b"a")?));
    assert!(rt; !is_plain(&keyed(alloc, b"a", b"\xff")?));
    assert!(rt; is_plain(&nested(alloc, MAX_DEPTH)?));
    assert!(rt; !is_plain(&nested(alloc, MAX_DEPTH + 1)?));
    Ok(())
}

#[test]
fn links_are_written_and_found(rt: HostRuntime) -> Result<(), Fail> {
    let alloc = rt.alloc();
    let short = link(alloc, 0x55, &[])?;
    judge_spelling(&rt, alloc, short, b"\xd8\x2a\x45\x00\x01\x55\x00\x00")?;
    let long = link(alloc, 0x71, b"twenty-four bytes or so!")?;
    let spelling = b"\xd8\x2a\x58\x1d\x00\x01\x71\x00\x18twenty-four bytes or so!";
    judge_spelling(&rt, alloc, long, spelling)?;
    let front = pair(alloc, link(alloc, 0x55, &[])?, link(alloc, 0x71, &[])?)?;
    let value = pair(alloc, front, link(alloc, 0x55, &[])?)?;
    let found = links_in(alloc, &value)?;
    let mut codecs = Vec::new(alloc);
    for cid in found.as_slice() {
        codecs.push(cid.codec())?;
    }
    assert_eq!(rt; codecs.as_slice(), [0x55u64, 0x71, 0x55].as_slice());
    Ok(())
}
