ghost use Rattle.std.specs.Prelude.{◌≡◌, ◌++◌, ◌<◌, ◌^◌, length, IfOk, OnOk};
ghost use Rattle.fil_base.specs.CidBytes.{cid_bytes};
ghost use Rattle.fil_base.specs.Varint.{varint};
ghost use Rattle.dag_cbor.specs.Spelling.{spelled};
ghost use Rattle.car_file.specs.Car.{car, content_of, framed, header_of};

use crate::header::{ROOTS, VERSION};
use cid_core::Block;
use dag_cbor::{Value, encode};
use fil_base::{Bytes, Cid, Mem, NoMemory, write_cid, write_varint};
use sqlite_items::Items;
use std::alloc::Global;

/// The archive of the root and the blocks, in their order (the CARv1 specification).
pub fn write_car(alloc: Global, root: &Cid, blocks: &[Block]) -> Mem<Bytes>
    ensures { IfOk result (λ bytes. bytes ≡ car root.now blocks.now) }
{
    let mut out = Vec::new(alloc);
    put_header(&mut out, alloc, root)?;
    for block in blocks {
        put_section(&mut out, block)?;
    }
    Ok(Bytes::of(out))
}

// Appends the header of the root behind its length.
fn put_header(out: &mut Vec<u8>, alloc: Global, root: &Cid) -> Mem<()>
    ensures { OnOk result (out.new.items ≡ out.old.items ++ framed (spelled (header_of root.now))) }
{
    let header = header_value(alloc, root)?;
    // The root is a CID, so its header has a spelling.
    prove!(root.version() <= 1);
    let bytes = encode(alloc, &header)?;
    put_length(out, bytes.as_slice().len())?;
    out.extend_from_slice(bytes.as_slice())?;
    Ok(())
}

// The header of the root, as a value of DAG-CBOR.
fn header_value(alloc: Global, root: &Cid) -> Mem<Value>
    ensures { IfOk result (λ header. header ≡ header_of root.now) }
{
    let root = root.copy(alloc)?;
    let links = vec![in alloc; Value::Link(root)]?;
    let roots = Bytes::copy_of(alloc, ROOTS)?;
    let version = Bytes::copy_of(alloc, VERSION)?;
    let links = Value::List(Items::from_vec(links));
    let pairs = vec![in alloc; (roots, links), (version, Value::Int(1))]?;
    Ok(Value::Map(Items::from_vec(pairs)))
}

// Appends the section of the block: its CID and bytes behind their length.
fn put_section(out: &mut Vec<u8>, block: &Block) -> Mem<()>
    ensures { OnOk result (out.new.items ≡ out.old.items ++ framed (content_of block.now)) }
{
    let bytes = block.bytes();
    let length = cid_length(out, block.cid())? + bytes.len();
    put_length(out, length)?;
    write_cid(out, block.cid())?;
    out.extend_from_slice(bytes)?;
    Ok(())
}

// The length of the CID's bytes. They are written behind the bytes that are there, and taken back.
fn cid_length(out: &mut Vec<u8>, cid: &Cid) -> Mem<usize>
    ensures length { IfOk result (λ len. len ≡ length (cid_bytes cid.now)) }
    ensures small { IfOk result (λ len. len < 2 ^ 63) }
    ensures unchanged { OnOk result (out.new.items ≡ out.old.items) }
{
    let before = out.len();
    write_cid(out, cid)?;
    let length = out.len() - before;
    out.truncate(before);
    Ok(length)
}

// Appends a length. One of 2^63 or more is that of nothing in memory.
fn put_length(out: &mut Vec<u8>, length: usize) -> Mem<()>
    ensures { OnOk result (out.new.items ≡ out.old.items ++ varint length) }
{
    if length >= 1 << 63 {
        return Err(NoMemory);
    }
    write_varint(out, length as u64)
}

#[cfg(test)]
mod tests {
    use super::*;
    use std::test::Fail;

    /// The CID of "one" in the codec 55: the digest is that of Python's hashlib.
    const ONE: [u8; 38] = [
        0x01, 0x55, 0xa0, 0xe4, 0x02, 0x20, 0xd0, 0x1c, 0x06, 0xcb, 0x09, 0x60, 0x6b, 0xc4, 0xb2,
        0xce, 0xdf, 0x42, 0x66, 0xa3, 0xa2, 0x0e, 0x1e, 0x63, 0x6b, 0x46, 0x7c, 0xb7, 0x7a, 0x9d,
        0xbe, 0xd5, 0x95, 0x09, 0x4e, 0x02, 0xea, 0x46,
    ];

    /// The CID of no bytes.
    const EMPTY: [u8; 38] = [
        0x01, 0x55, 0xa0, 0xe4, 0x02, 0x20, 0x0e, 0x57, 0x51, 0xc0, 0x26, 0xe5, 0x43, 0xb2, 0xe8,
        0xab, 0x2e, 0xb0, 0x60, 0x99, 0xda, 0xa1, 0xd1, 0xe5, 0xdf, 0x47, 0x77, 0x8f, 0x77, 0x87,
        0xfa, 0xab, 0x45, 0xcd, 0xf1, 0x2f, 0xe3, 0xa8,
    ];

    #[test]
    fn an_archive_is_a_header_and_sections(rt: HostRuntime) -> Result<(), Fail> {
        let alloc = rt.alloc();
        let one = Block::of(alloc, 0x55, Bytes::copy_of(alloc, b"one")?)?;
        let empty = Block::of(alloc, 0x55, Bytes::copy_of(alloc, b"")?)?;
        let root = one.cid().copy(alloc)?;
        let blocks = vec![in alloc; one, empty]?;
        let archive = write_car(alloc, &root, blocks.as_slice())?;

        let mut expected = Vec::from_slice(alloc, b"\x3c\xa2\x65roots\x81\xd8\x2a\x58\x27\x00")?;
        expected.extend_from_slice(&ONE)?;
        expected.extend_from_slice(b"\x67version\x01\x29")?;
        expected.extend_from_slice(&ONE)?;
        expected.extend_from_slice(b"one\x26")?;
        expected.extend_from_slice(&EMPTY)?;
        assert_eq!(rt; archive.as_slice(), expected.as_slice());
        Ok(())
    }
}
