use super::*;
use fil_base::Failure;
use std::alloc::{AllocError, Global};
use std::test::Fail;

/// Lists inside one another, so many of them, the innermost empty.
fn nested(alloc: Global, depth: u64) -> Result<Vec<u8>, AllocError> {
    let mut bytes = Vec::new(alloc);
    for _ in 1..depth {
        bytes.push(0x81)?;
    }
    bytes.push(0x80)?;
    Ok(bytes)
}

#[test]
fn integers_stand_in_the_shortest_heads(rt: HostRuntime) -> Result<(), Fail> {
    let rows: [(&[u8], i128); 12] = [
        (&[0x00], 0),
        (&[0x17], 23),
        (&[0x18, 0x18], 24),
        (&[0x18, 0xff], 0xff),
        (&[0x19, 0x01, 0x00], 0x100),
        (&[0x19, 0xff, 0xff], 0xffff),
        (&[0x1a, 0x00, 0x01, 0x00, 0x00], 0x1_0000),
        (&[0x1a, 0xff, 0xff, 0xff, 0xff], 0xffff_ffff),
        (
            &[0x1b, 0x00, 0x00, 0x00, 0x01, 0x00, 0x00, 0x00, 0x00],
            0x1_0000_0000,
        ),
        (
            &[0x1b, 0xff, 0xff, 0xff, 0xff, 0xff, 0xff, 0xff, 0xff],
            0xffff_ffff_ffff_ffff,
        ),
        (&[0x20], -1),
        (
            &[0x3b, 0xff, 0xff, 0xff, 0xff, 0xff, 0xff, 0xff, 0xff],
            -0x1_0000_0000_0000_0000,
        ),
    ];
    for (bytes, number) in rows {
        match decode(rt.alloc(), bytes) {
            Ok(Value::Int(read)) => assert_eq!(rt; read, number),
            _ => assert!(rt; false, "{number} is not read"),
        }
    }
    Ok(())
}

#[test]
fn values_are_read(rt: HostRuntime) -> Result<(), Fail> {
    let rows: [(&[u8], &str); 9] = [
        (&[0xf6], "Null"),
        (
            &[0x82, 0xf4, 0xf5],
            "List(Items { items: [Bool(false), Bool(true)] })",
        ),
        (
            &[0x43, 0x01, 0x02, 0x03],
            "Blob(Bytes { inner: [1, 2, 3] })",
        ),
        (
            &[0x63, 0xe2, 0x82, 0xac],
            "Text(Bytes { inner: [226, 130, 172] })",
        ),
        (&[0x80], "List(Items { items: [] })"),
        (
            &[0x82, 0x05, 0x40],
            "List(Items { items: [Int(5), Blob(Bytes { inner: [] })] })",
        ),
        (&[0xa0], "Map(Items { items: [] })"),
        (
            &[0xa2, 0x61, 0x62, 0x00, 0x62, 0x61, 0x61, 0x00],
            "Map(Items { items: [(Bytes { inner: [98] }, Int(0)), (Bytes { inner: [97, 97] }, Int(0))] })",
        ),
        (
            &[0xa1, 0x60, 0xa1, 0x61, 0x61, 0x81, 0x00],
            "Map(Items { items: [(Bytes { inner: [] }, Map(Items { items: [(Bytes { inner: [97] }, List(Items { items: [Int(0)] }))] }))] })",
        ),
    ];
    for (bytes, wanted) in rows {
        let value = decode(rt.alloc(), bytes)?;
        let text = format!(in rt.alloc(); "{value:?}")?;
        assert_eq!(rt; text.as_str(), wanted);
    }
    let deepest = nested(rt.alloc(), MAX_DEPTH)?;
    let _value = decode(rt.alloc(), deepest.as_slice())?;
    Ok(())
}

#[test]
fn heads_have_their_faults(rt: HostRuntime) -> Result<(), Fail> {
    let rows: [(&[u8], CborKind, u64); 27] = [
        (&[], CborKind::Cut, 0),
        (&[0x18], CborKind::Cut, 1),
        (&[0x19, 0x00], CborKind::Cut, 2),
        (&[0xf9], CborKind::Cut, 1),
        (&[0x18, 0x17], CborKind::LongHead, 0),
        (&[0x19, 0x00, 0xff], CborKind::LongHead, 0),
        (&[0x1a, 0x00, 0x00, 0xff, 0xff], CborKind::LongHead, 0),
        (
            &[0x1b, 0x00, 0x00, 0x00, 0x00, 0xff, 0xff, 0xff, 0xff],
            CborKind::LongHead,
            0,
        ),
        (&[0x58, 0x17], CborKind::LongHead, 0),
        (&[0x81, 0x98, 0x01, 0x00], CborKind::LongHead, 1),
        (&[0xd8, 0x05], CborKind::LongHead, 0),
        (&[0x1c], CborKind::Reserved, 0),
        (&[0xfe], CborKind::Reserved, 0),
        (&[0x1f], CborKind::Reserved, 0),
        (&[0xdf], CborKind::Reserved, 0),
        (&[0x5f, 0xff], CborKind::Indefinite, 0),
        (&[0x9f, 0xff], CborKind::Indefinite, 0),
        (&[0xff], CborKind::Indefinite, 0),
        (&[0xf9, 0x00, 0x00], CborKind::Float, 0),
        (
            &[0xfb, 0x00, 0x00, 0x00, 0x00, 0x00, 0x00, 0x00, 0x00],
            CborKind::Float,
            0,
        ),
        (&[0xf8, 0x14], CborKind::Simple, 0),
        (&[0xf7], CborKind::Simple, 0),
        (&[0xe0], CborKind::Simple, 0),
        (&[0xc0, 0x00], CborKind::Tag, 0),
        (&[0xd8, 0x2b], CborKind::Tag, 0),
        (&[0x00, 0x00], CborKind::Trailing, 1),
        (&[0x80, 0xff], CborKind::Trailing, 1),
    ];
    for (bytes, kind, at) in rows {
        assert_eq!(rt;
            decode(rt.alloc(), bytes).err(),
            Some(Failure::Fault(CborFault { kind, at })),
            "at {bytes:?}"
        );
    }
    Ok(())
}

#[test]
fn items_have_their_faults(rt: HostRuntime) -> Result<(), Fail> {
    let rows: [(&[u8], CborKind, u64); 20] = [
        (&[0x43, 0x01, 0x02], CborKind::Cut, 3),
        (&[0x82, 0x00], CborKind::Cut, 2),
        (
            &[0x9b, 0xff, 0xff, 0xff, 0xff, 0xff, 0xff, 0xff, 0xff],
            CborKind::Cut,
            9,
        ),
        (
            &[0x5b, 0xff, 0xff, 0xff, 0xff, 0xff, 0xff, 0xff, 0xff],
            CborKind::Cut,
            9,
        ),
        (&[0xa1, 0x61, 0x61], CborKind::Cut, 3),
        (&[0xd8, 0x2a, 0x00], CborKind::LinkForm, 0),
        (&[0x81, 0xd8, 0x2a, 0x60], CborKind::LinkForm, 1),
        (&[0xd8, 0x2a, 0x41, 0x01], CborKind::LinkForm, 0),
        (&[0xd8, 0x2a, 0x18, 0x01], CborKind::LongHead, 2),
        (&[0xd8, 0x2a, 0xd8, 0x2b], CborKind::Tag, 2),
        (&[0xd8, 0x2a, 0x42, 0x00], CborKind::Cut, 4),
        (&[0x62, 0xc3, 0x28], CborKind::Utf8, 0),
        (&[0x81, 0x61, 0x80], CborKind::Utf8, 1),
        (&[0xa1, 0x61, 0xff, 0x00], CborKind::Utf8, 1),
        (&[0xa1, 0x00, 0x00], CborKind::KeyKind, 1),
        (&[0xa1, 0xd8, 0x2a, 0x00], CborKind::KeyKind, 1),
        (&[0xa1, 0xf7, 0x00], CborKind::Simple, 1),
        (
            &[0xa2, 0x62, 0x61, 0x61, 0x00, 0x61, 0x62, 0x00],
            CborKind::KeyOrder,
            5,
        ),
        (
            &[0xa2, 0x61, 0x62, 0x00, 0x61, 0x61, 0x00],
            CborKind::KeyOrder,
            4,
        ),
        (
            &[0xa2, 0x61, 0x61, 0x00, 0x61, 0x61, 0x00],
            CborKind::KeyRepeat,
            4,
        ),
    ];
    for (bytes, kind, at) in rows {
        assert_eq!(rt;
            decode(rt.alloc(), bytes).err(),
            Some(Failure::Fault(CborFault { kind, at })),
            "at {bytes:?}"
        );
    }
    let too_deep = nested(rt.alloc(), MAX_DEPTH + 1)?;
    assert_eq!(rt;
        decode(rt.alloc(), too_deep.as_slice()).err(),
        Some(Failure::Fault(CborFault {
            kind: CborKind::Depth,
            at: MAX_DEPTH
        }))
    );
    Ok(())
}
