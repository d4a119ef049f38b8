use crate::decoding::decode;
use crate::fault::{Stop, WasmKind};
use crate::number::{i32_of, i64_of, u32_of};
use crate::value::{count_of, name_of};
use fil_base::Failure;
use std::alloc::Global;

// Numbers by hand, from WebAssembly 1.0, section 5.2.2.
#[test]
fn unsigned_numbers_are_read(rt: HostRuntime) {
    assert_eq!(rt; u32_of(&[0x80, 0x00, 0x07]), Ok((0, [7u8].as_slice())));
    assert_eq!(rt;
        u32_of(&[0xff, 0xff, 0xff, 0xff, 0x0f]),
        Ok((u32::MAX, [].as_slice()))
    );
    assert_eq!(rt;
        u32_of(&[0xff, 0xff, 0xff, 0xff, 0x1f]),
        Err(Stop::Flaw(WasmKind::Form, 5))
    );
    assert_eq!(rt; u32_of(&[0xff]), Err(Stop::Short));
}

#[test]
fn signed_numbers_are_read(rt: HostRuntime) {
    assert_eq!(rt; i32_of(&[0x7f]), Ok((u32::MAX, [].as_slice())));
    assert_eq!(rt;
        i32_of(&[0xc0, 0xbb, 0x78]),
        Ok((0xfffe_1dc0, [].as_slice()))
    );
    assert_eq!(rt;
        i32_of(&[0x80, 0x80, 0x80, 0x80, 0x08]),
        Err(Stop::Flaw(WasmKind::Form, 5))
    );
    assert_eq!(rt;
        i64_of(&[0x80, 0x80, 0x80, 0x80, 0x80, 0x80, 0x80, 0x80, 0x80, 0x7f]),
        Ok((0x8000_0000_0000_0000, [].as_slice()))
    );
}

// By hand, from WebAssembly 1.0, sections 5.1.3 and 5.2.4.
#[test]
fn names_and_counts_are_read(rt: HostRuntime) {
    assert_eq!(rt;
        name_of(&[0x01, 0x61, 0x62]),
        Ok(([0x61u8].as_slice(), [0x62u8].as_slice()))
    );
    assert_eq!(rt; name_of(&[0x01, 0xff]), Err(Stop::Flaw(WasmKind::Form, 2)));
    assert_eq!(rt; count_of(64, &[0x41]), Err(Stop::Flaw(WasmKind::Limit, 1)));
}

/// The kind and the place of the fault of these bytes.
fn fault_in(alloc: Global, bytes: &[u8]) -> Option<(WasmKind, u32)> {
    match decode(alloc, bytes) {
        Err(Failure::Fault(fault)) => Some((fault.kind, fault.at)),
        Err(Failure::NoMemory) => None,
        Ok(_) => None,
    }
}

// A module by hand, from WebAssembly 1.0, sections 5.4 and 5.5: a type, a function, a memory, two exports and a body.
#[test]
fn a_module_is_read_whole(rt: HostRuntime) {
    let bytes = b"\0asm\x01\0\0\0\
        \x01\x06\x01\x60\x01\x7f\x01\x7f\
        \x03\x02\x01\x00\
        \x05\x03\x01\x00\x01\
        \x07\x13\x02\x06memory\x02\x00\x06invoke\x00\x00\
        \x0a\x06\x01\x04\x00\x41\x00\x0b";
    match decode(rt.alloc(), bytes) {
        Ok(raw) => {
            assert_eq!(rt; raw.types.as_slice().len(), 1);
            assert_eq!(rt; raw.functions.as_slice(), [0u32].as_slice());
            assert_eq!(rt; raw.memories.as_slice().len(), 1);
            assert_eq!(rt; raw.exports.as_slice().len(), 2);
            assert_eq!(rt; raw.bodies.as_slice().len(), 1);
        }
        Err(_) => assert!(rt; false, "the module is not read"),
    }
}

// Offsets by hand: the magic number, the version, a start section, the count of two memories.
#[test]
fn faults_stand_at_sections(rt: HostRuntime) {
    let rows: [(&[u8], WasmKind, u32); 4] = [
        (b"", WasmKind::Form, 0),
        (b"\0asm\x02\0\0\0", WasmKind::Form, 4),
        (b"\0asm\x01\0\0\0\x08\x01\x00", WasmKind::Start, 8),
        (
            b"\0asm\x01\0\0\0\x05\x05\x02\x00\x01\x00\x01",
            WasmKind::Unsupported,
            10,
        ),
    ];
    for (bytes, kind, at) in rows {
        assert_eq!(rt; fault_in(rt.alloc(), bytes), Some((kind, at)));
    }
}

// Offsets by hand: a parameter of 32-bit floats, 513 pages, an import of `self.root` without its result, a type section
// behind that of functions.
#[test]
fn faults_stand_at_entries(rt: HostRuntime) {
    let rows: [(&[u8], WasmKind, u32); 4] = [
        (
            b"\0asm\x01\0\0\0\x01\x05\x01\x60\x01\x7d\x00",
            WasmKind::Float,
            13,
        ),
        (
            b"\0asm\x01\0\0\0\x05\x04\x01\x00\x81\x04",
            WasmKind::Limit,
            12,
        ),
        (
            b"\0asm\x01\0\0\0\x01\x07\x01\x60\x03\x7f\x7f\x7f\x00\x02\x0d\x01\x04self\x04root\x00\x00",
            WasmKind::UnknownImport,
            20,
        ),
        (
            b"\0asm\x01\0\0\0\x01\x04\x01\x60\x00\x00\x03\x01\x00\x01\x01\x00",
            WasmKind::Form,
            17,
        ),
    ];
    for (bytes, kind, at) in rows {
        assert_eq!(rt; fault_in(rt.alloc(), bytes), Some((kind, at)));
    }
}
