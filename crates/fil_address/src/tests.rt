use crate::{Address, AddressFault, from_bytes, parse};
use fil_base::{ActorId, Failure};
use std::test::Fail;

// Addresses of the Filecoin specification's examples. The payload of the first is in hexadecimal below.
const SECP: &[u8] = b"f17uoq6tp427uzv7fztkbsnn64iwotfrristwpryy";

const MADE: &[u8] = b"f24vg6ut43yw2h2jqydgbg2xq7x6f4kub3bg6as6i";

const BLS: &[u8] =
    b"f3vvmn62lofvhjd2ugzca6sof2j2ubwok6cj4xxbfzz4yuxfkgobpihhd2thlanmsh3w2ptld2gqkn2jvlss4a";

const SECP_BYTES: [u8; 21] = [
    0x01, 0xfd, 0x1d, 0x0f, 0x4d, 0xfc, 0xd7, 0xe9, 0x9a, 0xfc, 0xb9, 0x9a, 0x83, 0x26, 0xb7, 0xdc,
    0x45, 0x9d, 0x32, 0xc6, 0x28,
];

#[test]
fn an_id_is_read_and_written(rt: HostRuntime) -> Result<(), Fail> {
    let address = from_bytes(&[0x00, 0x80, 0x08])?;
    assert_eq!(rt; ActorId::new(1024).map(Address::Id), Some(address));
    assert_eq!(rt; address.text(rt.alloc())?.as_slice(), b"f01024".as_slice());
    assert_eq!(rt; parse(rt.alloc(), b"t01024")?, address);
    assert_eq!(rt;
        address.to_bytes(rt.alloc())?.as_slice(),
        [0x00u8, 0x80, 0x08].as_slice()
    );
    Ok(())
}

#[test]
fn known_texts_are_read_and_written(rt: HostRuntime) -> Result<(), Fail> {
    for text in [SECP, MADE, BLS, b"f09223372036854775807"] {
        let address = parse(rt.alloc(), text)?;
        assert_eq!(rt; address.text(rt.alloc())?.as_slice(), text);
        let bytes = address.to_bytes(rt.alloc())?;
        assert_eq!(rt; from_bytes(bytes.as_slice()), Ok(address));
    }
    let address = parse(rt.alloc(), SECP)?;
    assert_eq!(rt;
        address.to_bytes(rt.alloc())?.as_slice(),
        SECP_BYTES.as_slice()
    );
    Ok(())
}

#[test]
fn faulty_bytes_are_refused(rt: HostRuntime) {
    let rows: [(&[u8], AddressFault); 8] = [
        (&[], AddressFault::Empty),
        (&[0x05], AddressFault::Protocol),
        (&[0x04, 0x0a, 0x01, 0x02], AddressFault::Protocol),
        (&[0x00], AddressFault::Number),
        (&[0x00, 0x80, 0x00], AddressFault::Number),
        (&[0x00, 0x05, 0x00], AddressFault::Number),
        (&SECP_BYTES[..20], AddressFault::Length),
        (&[0x03; 48], AddressFault::Length),
    ];
    for (bytes, fault) in rows {
        assert_eq!(rt; from_bytes(bytes), Err(fault));
    }
}

#[test]
fn faulty_texts_are_refused(rt: HostRuntime) {
    let rows: [(&[u8], AddressFault); 14] = [
        (b"f0", AddressFault::Empty),
        (b"x01", AddressFault::Letter),
        (b"f4abc", AddressFault::Protocol),
        (b"f000", AddressFault::Number),
        (b"f01x", AddressFault::Number),
        (b"f0+1", AddressFault::Number),
        (b"f09223372036854775808", AddressFault::Number),
        // 20 zeros and their checksum, but for one letter.
        (
            b"f1baaaaaaaaaaaaaaaaaaaaaaaaaaaaaaahaui6xa",
            AddressFault::Checksum,
        ),
        (
            b"f1aaaaaaaaaaaaaaaaaaaaaaaaaaaaaaaahaui6x",
            AddressFault::Length,
        ),
        (
            b"f1aaaaaaaaaaaaaaaaaaaaaaaaaaaaaaaahaui6xb",
            AddressFault::Letter,
        ),
        (
            b"f1Aaaaaaaaaaaaaaaaaaaaaaaaaaaaaaaahaui6xa",
            AddressFault::Letter,
        ),
        // 21 and 19 zeros, and no bytes at all.
        (
            b"f1aaaaaaaaaaaaaaaaaaaaaaaaaaaaaaaaaby6kwyn",
            AddressFault::Length,
        ),
        (
            b"f1aaaaaaaaaaaaaaaaaaaaaaaaaaaaaabh2wd2q",
            AddressFault::Length,
        ),
        (b"f1aa", AddressFault::Length),
    ];
    for (text, fault) in rows {
        assert_eq!(rt; parse(rt.alloc(), text).err(), Some(Failure::Fault(fault)));
    }
    let zeros = parse(rt.alloc(), b"f1aaaaaaaaaaaaaaaaaaaaaaaaaaaaaaaahaui6xa").ok();
    assert_eq!(rt; zeros, Some(Address::Secp([0; 20])));
}
