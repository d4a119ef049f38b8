use super::*;

#[test]
fn spellings_are_cut_off(rt: HostRuntime) {
    let rows: [(u64, &[u8], usize); 7] = [
        (1, &[0x18, 0x18, 0x00], 2),
        (1, &[0x80], 1),
        (1, &[0x42, 0x01, 0x02, 0x03], 3),
        (1, &[0x63, 0xe2, 0x82, 0xac], 4),
        (1, b"\xd8\x2a\x45\x00\x01\x55\x00\x00\xf6", 8),
        (3, &[0x82, 0x81, 0x05, 0x40, 0xf6], 4),
        (2, b"\xa2\x61b\x01\x62aa\x02\xff", 8),
    ];
    for (depth, bytes, len) in rows {
        match split_item(depth, bytes) {
            Some((front, _)) => assert_eq!(rt; front.len(), len, "at {bytes:?}"),
            None => assert!(rt; false, "nothing is cut off {bytes:?}"),
        }
    }
}

#[test]
fn other_bytes_have_no_spelling_in_front(rt: HostRuntime) {
    let rows: [(u64, &[u8]); 11] = [
        (128, &[]),
        (0, &[0xf6]),
        (1, &[0x18, 0x17]),
        (1, &[0x42, 0x01]),
        (1, &[0x81, 0x00]),
        (128, &[0x82, 0x00]),
        (128, &[0x61, 0xff]),
        (2, b"\xa2\x62aa\x02\x61b\x01"),
        (2, b"\xa2\x61b\x01\x61b\x02"),
        (1, b"\xd8\x2a\x45\x00\x02\x55\x00\x00"),
        (1, b"\xd8\x2a\x45\x01\x01\x55\x00\x00"),
    ];
    for (depth, bytes) in rows {
        assert!(rt; split_item(depth, bytes).is_none(), "at {bytes:?}");
    }
}

#[test]
fn heads_of_lists_are_read(rt: HostRuntime) {
    let rest = [0x00u8].as_slice();
    assert_eq!(rt; list_head(&[0x98, 0x18, 0x00]), Some((24, rest)));
    assert_eq!(rt; list_head(&[0x98, 0x17]), None);
    assert_eq!(rt; list_head(&[0xa1, 0x60, 0x00]), None);
}

#[test]
fn byte_strings_are_read(rt: HostRuntime) {
    let content = [0x01u8, 0x02].as_slice();
    let rest = [0xf6u8].as_slice();
    assert_eq!(rt; blob(&[0x42, 0x01, 0x02, 0xf6]), Some((content, rest)));
    assert_eq!(rt; blob(&[0x43, 0x01, 0x02]), None);
    assert_eq!(rt; blob(&[0x80]), None);
}
