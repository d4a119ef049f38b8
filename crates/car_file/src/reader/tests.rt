ghost use Rattle.std.specs.Prelude.{◌<◌};

use super::CarReader;
use crate::car::Car;
use crate::fault::{CarFault, CarKind};
use fil_base::Failure;
use std::alloc::Global;
use std::process::Abort;
use std::test::Fail;

/// The length of the header, and the place where the second section begins.
const HEADER_LEN: usize = 61;

const SECOND: usize = 103;

/// The block `first` under SHA2-256, and the empty list of DAG-CBOR under BLAKE2b-256, which is the root.
const ARCHIVE: [u8; 143] = [
    0x3c, 0xa2, 0x65, 0x72, 0x6f, 0x6f, 0x74, 0x73, 0x81, 0xd8, 0x2a, 0x58, 0x27, 0x00, 0x01, 0x71,
    0xa0, 0xe4, 0x02, 0x20, 0x45, 0xb0, 0xcf, 0xc2, 0x20, 0xce, 0xec, 0x5b, 0x7c, 0x1c, 0x62, 0xc4,
    0xd4, 0x19, 0x3d, 0x38, 0xe4, 0xeb, 0xa4, 0x8e, 0x88, 0x15, 0x72, 0x9c, 0xe7, 0x5f, 0x9c, 0x0a,
    0xb0, 0xe4, 0xc1, 0xc0, 0x67, 0x76, 0x65, 0x72, 0x73, 0x69, 0x6f, 0x6e, 0x01, 0x29, 0x01, 0x55,
    0x12, 0x20, 0xa7, 0x93, 0x7b, 0x64, 0xb8, 0xca, 0xa5, 0x8f, 0x03, 0x72, 0x1b, 0xb6, 0xba, 0xcf,
    0x5c, 0x78, 0xcb, 0x23, 0x5f, 0xeb, 0xe0, 0xe7, 0x0b, 0x1b, 0x84, 0xcd, 0x99, 0x54, 0x14, 0x61,
    0xa0, 0x8e, 0x66, 0x69, 0x72, 0x73, 0x74, 0x27, 0x01, 0x71, 0xa0, 0xe4, 0x02, 0x20, 0x45, 0xb0,
    0xcf, 0xc2, 0x20, 0xce, 0xec, 0x5b, 0x7c, 0x1c, 0x62, 0xc4, 0xd4, 0x19, 0x3d, 0x38, 0xe4, 0xeb,
    0xa4, 0x8e, 0x88, 0x15, 0x72, 0x9c, 0xe7, 0x5f, 0x9c, 0x0a, 0xb0, 0xe4, 0xc1, 0xc0, 0x80,
];

fn fault(kind: CarKind, at: usize) -> Option<Failure<CarFault>> {
    Some(Failure::Fault(CarFault {
        kind,
        at: at as u64,
    }))
}

fn read_in_pieces(alloc: Global, bytes: &[u8], size: usize) -> Result<Car, Failure<CarFault>>
    requires { 0 < size }
{
    let mut reader = CarReader::new(alloc);
    for piece in bytes.chunks(size) {
        reader.feed(piece)?;
    }
    reader.finish()
}

fn judge_pieces(rt: &impl Abort, alloc: Global, size: usize) -> Result<(), Failure<CarFault>>
    requires { 0 < size }
{
    let car = read_in_pieces(alloc, &ARCHIVE, size)?;
    let blocks = car.blocks.as_slice();
    assert_eq!(rt; blocks.len(), 2);
    assert_eq!(rt; blocks[0].bytes(), b"first".as_slice());
    assert_eq!(rt; blocks[1].bytes(), [0x80u8].as_slice());
    assert!(rt; *blocks[1].cid() == car.root);
    Ok(())
}

#[test]
fn an_archive_is_read_in_pieces_of_any_size(rt: HostRuntime) -> Result<(), Fail> {
    judge_pieces(&rt, rt.alloc(), 1)?;
    judge_pieces(&rt, rt.alloc(), 7)?;
    judge_pieces(&rt, rt.alloc(), ARCHIVE.len())?;
    Ok(())
}

#[test]
fn a_cut_stands_at_the_end(rt: HostRuntime) {
    for len in 0..ARCHIVE.len() {
        let found = read_in_pieces(rt.alloc(), &ARCHIVE[..len], 16).err();
        let wanted = if len == HEADER_LEN || len == SECOND {
            None
        } else {
            fault(CarKind::Cut, len)
        };
        assert_eq!(rt; found, wanted, "at {len}");
    }
}

#[test]
fn a_digest_is_judged_with_the_last_byte(rt: HostRuntime) -> Result<(), Fail> {
    let mut reader = CarReader::new(rt.alloc());
    reader.feed(&ARCHIVE[..142])?;
    let wanted = fault(CarKind::Digest, SECOND);
    assert_eq!(rt; reader.feed(&[0x81]).err(), wanted);
    assert_eq!(rt; reader.feed(&[]).err(), wanted);
    assert_eq!(rt; reader.finish().err(), wanted);
    Ok(())
}

#[test]
fn sections_are_judged(rt: HostRuntime) -> Result<(), Fail> {
    let rows: [(&[u8], CarKind); 4] = [
        (&[0], CarKind::Section),
        (&[0x80, 0], CarKind::Section),
        (&[1, 0], CarKind::Cid),
        (&[4, 1, 0x55, 0, 0], CarKind::HashNotSupported),
    ];
    for (section, kind) in rows {
        let mut reader = CarReader::new(rt.alloc());
        reader.feed(&ARCHIVE[..HEADER_LEN])?;
        assert_eq!(rt; reader.feed(section).err(), fault(kind, HEADER_LEN));
    }
    let mut reader = CarReader::new(rt.alloc());
    assert_eq!(rt; reader.feed(&[0xff; 9]).err(), fault(CarKind::Header, 0));
    Ok(())
}
