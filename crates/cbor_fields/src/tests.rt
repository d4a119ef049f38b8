use crate::*;
use dag_cbor::Value;
use fil_base::{Bytes, Cid, Mem};
use sqlite_items::Items;
use std::alloc::Global;
use std::test::Fail;

fn copied(alloc: Global, bytes: &[u8]) -> Mem<Bytes> {
    Bytes::copy_of(alloc, bytes)
}

fn fault<T>(index: u32, kind: FieldKind) -> Result<T, FieldFault> {
    Err(FieldFault { index, kind })
}

#[test]
fn numbers_are_read(rt: HostRuntime) {
    let list = [
        Value::Int(18446744073709551615),
        Value::Int(18446744073709551616),
        Value::Int(-1),
        Value::Null,
    ];
    assert_eq!(rt; u64_at(&list, 0), Ok(18446744073709551615));
    assert_eq!(rt; u64_at(&list, 1), fault(1, FieldKind::OutOfRange));
    assert_eq!(rt; u64_at(&list, 2), fault(2, FieldKind::OutOfRange));
    assert_eq!(rt; u64_at(&list, 3), fault(3, FieldKind::WrongKind));
    assert_eq!(rt; u64_at(&list, 4), fault(4, FieldKind::WrongLength));
}

#[test]
fn amounts_are_read(rt: HostRuntime) -> Result<(), Fail> {
    let list = [
        Value::Blob(copied(rt.alloc(), &[0, 5])?),
        Value::Blob(copied(rt.alloc(), &[0, 0, 5])?),
        Value::Int(5),
    ];
    let amount = |at: usize| token_at(&list, at).map(|token| token.number());
    assert_eq!(rt; amount(0), Ok(5));
    assert_eq!(rt; amount(1), fault(1, FieldKind::OutOfRange));
    assert_eq!(rt; amount(2), fault(2, FieldKind::WrongKind));
    assert_eq!(rt; amount(3), fault(3, FieldKind::WrongLength));
    Ok(())
}

#[test]
fn bytes_and_links_are_read(rt: HostRuntime) -> Result<(), Fail> {
    let cid = Cid::new(1, 0x71, 0, copied(rt.alloc(), &[7])?);
    let list = [
        Value::Blob(copied(rt.alloc(), &[1, 2])?),
        Value::Text(copied(rt.alloc(), &[0x61])?),
        Value::Link(cid.ok_or("these parts are a CID")?),
    ];
    assert_eq!(rt; bytes_at(&list, 0), Ok([1u8, 2].as_slice()));
    assert_eq!(rt; bytes_at(&list, 1), fault(1, FieldKind::WrongKind));
    assert_eq!(rt; cid_at(&list, 2).map(|cid| cid.codec()), Ok(0x71));
    assert_eq!(rt;
        cid_at(&list, 0).map(|cid| cid.codec()),
        fault(0, FieldKind::WrongKind)
    );
    assert_eq!(rt;
        cid_at(&list, 3).map(|cid| cid.codec()),
        fault(3, FieldKind::WrongLength)
    );
    Ok(())
}

#[test]
fn lists_are_read(rt: HostRuntime) -> Result<(), Fail> {
    let pair = Value::List(Items::from_vec(vec![in rt.alloc(); Value::Null, Value::Null]?));
    assert_eq!(rt; list_of(&pair, 2).map(|items| items.len()), Ok(2));
    assert_eq!(rt;
        list_of(&pair, 1).map(|items| items.len()),
        fault(0, FieldKind::WrongLength)
    );
    assert_eq!(rt;
        list_of(&Value::Null, 0).map(|items| items.len()),
        fault(0, FieldKind::WrongLength)
    );
    assert_eq!(rt; items_of(&pair, 9).map(|items| items.len()), Ok(2));
    assert_eq!(rt;
        items_of(&Value::Null, 9).map(|items| items.len()),
        fault(9, FieldKind::WrongKind)
    );
    Ok(())
}
